//! Which held fragment has which part of a datagram, so that a new one is compared with at most one
//! of them. Each fragment begins at a multiple of eight bytes, so the datagram is marked in units
//! of eight.
ghost use Rattle.std.specs.Prelude.{◌≡◌, ◌+◌, ◌-◌, ◌/◌, ◌<◌, ◌≤◌, ◌++◌, [], OnErr, OnOk, drop};
ghost use Rattle.std.specs.Prelude.{find};
ghost use Rattle.std.specs.Prelude.{length, nat_lt, option_copied, replicate, take};
ghost use Rattle.ip_defrag.specs.Fragments.{from_of};
ghost use Rattle.ip_defrag.specs.Held.{AreHeld};
ghost use Rattle.ip_defrag.specs.Marks.{AreMarked, AreMarks, marked, own_marks, units_to};

use crate::fragments::Fragment;
use frame_view::Memory;
use std::alloc::Global;

/// The length of a unit in bytes.
const UNIT: usize = 8;

/// The marks of a datagram. Fragments that come in their order are judged without them, so those
/// that are held are marked only once one comes that begins before the end of another.
#[derive(Drop)]
pub(crate) struct UnitOwners {
    /// Which fragment has which unit: its number, from 1, and 0 where none has it.
    pub(crate) units: Vec<u16>,
    /// The number of fragments that are marked, the first ones.
    pub(crate) count: usize,
}

impl UnitOwners {
    /// The marks of no fragment.
    pub(crate) fn new(alloc: Global) -> UnitOwners
        ensures units { result.units.items ≡ [] }
        ensures count { result.count ≡ 0 }
    {
        UnitOwners {
            units: Vec::new(alloc),
            count: 0,
        }
    }

    /// Marks each of some fragments that isn't marked yet. After `Memory` some may be left.
    pub(crate) fn mark_all(&mut self, fragments: &[Fragment]) -> Result<(), Memory>
        requires held { AreHeld fragments.now }
        requires marked { AreMarked self.old fragments.now }
        ensures marked { AreMarked self.new fragments.now }
        ensures all { OnOk result (AreMarks self.new.units.items fragments.now) }
    {
        while self.count < fragments.len() {
            self.mark_next(fragments)?;
        }
        Ok(())
    }

    /// Marks the first of some fragments that isn't marked yet.
    fn mark_next(&mut self, fragments: &[Fragment]) -> Result<(), Memory>
        requires held { AreHeld fragments.now }
        requires marked { AreMarked self.old fragments.now }
        requires some { self.old.count < length fragments.now }
        ensures marked { AreMarked self.new fragments.now }
        ensures count { OnOk result (self.new.count ≡ self.old.count + 1) }
    {
        let next = &fragments[self.count];
        let (first, last) = (next.from() / UNIT, units_to(next.to()));
        widen(&mut self.units, last)?;
        self.count += 1;
        mark(&mut self.units, first, last, self.count as u16);
        Ok(())
    }
}

/// The number of units that begin before a place.
fn units_to(place: usize) -> usize
    requires { place ≤ 65475 }
    ensures { result ≡ units_to place }
{
    (place + UNIT - 1) / UNIT
}

/// Widens the marks to `units` units, if they have fewer. The new ones belong to no fragment.
fn widen(marks: &mut Vec<u16>, units: usize) -> Result<(), Memory>
    ensures wide { OnOk result (marks.new.items
        ≡ marks.old.items ++ replicate (units - length marks.old.items) 0) }
    ensures same { OnErr result (marks.new.items ≡ marks.old.items) }
{
    if marks.len() < units {
        marks.resize(units, 0)?;
    }
    Ok(())
}

/// The mark of the first unit of a fragment's data that a held one has.
pub(crate) fn met(marks: &[u16], new: &Fragment) -> Option<u16>
    requires { from_of new.now / 8 ≤ length marks.now }
    ensures { result ≡ find (λ mark. nat_lt 0 mark) (own_marks new.now marks.now) }
{
    let first = new.from() / UNIT;
    let (_, rest) = marks.split_at(first);
    let count = (units_to(new.to()) - first).min(rest.len());
    let (own, _) = rest.split_at(count);
    first_mark(own).copied()
}

/// The first of some marks that isn't 0.
fn first_mark(marks: &[u16]) -> Option<&u16>
    ensures { option_copied result ≡ find (λ mark. nat_lt 0 mark) marks.now }
{
    marks.iter().find(|mark| 0 < **mark)
}

/// Marks the units from `first` to before `last` with a number.
fn mark(marks: &mut [u16], first: usize, last: usize, number: u16)
    requires order { first ≤ last }
    requires within { last ≤ length marks.old }
    ensures { marks.new ≡ marked first last number marks.old }
{
    marks[first..last].fill(number);
}
