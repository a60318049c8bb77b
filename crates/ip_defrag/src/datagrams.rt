//! The fragments of one datagram that were pushed so far.
ghost use Rattle.std.specs.Prelude.{◌≡◌, ◌≤◌, ◌<◌, ◌++◌, ◌∷◌, [], IfErr, IfOk, OnErr, OnOk, true};
ghost use Rattle.std.specs.Prelude.{false, length};
ghost use Rattle.ip_defrag.specs.Fragments.{from_of, takes_part, to_of};
ghost use Rattle.ip_defrag.specs.Extents.{AreKept, reach_of};
ghost use Rattle.ip_defrag.specs.Grouped.{FitsIn, completed_with, is_fresh, is_live, judgement};
ghost use Rattle.ip_defrag.specs.Grouped.{opened_by, with_frame};
ghost use Rattle.ip_defrag.specs.Held.{AreHeld};
ghost use Rattle.ip_defrag.specs.Marks.{AreMarks};

use crate::NoPush;
use crate::extents::Extent;
use crate::fragments::Fragment;
use crate::marks::{UnitOwners, met};
use crate::names::Name;
use crate::rules::{Judgement, apart, beside};
use crate::wholes::completed;
use frame_view::{Frame, Memory};
use std::alloc::Global;
use std::marker::Model;

/// The age in seconds at which a datagram is given up, counted from its first fragment.
const TOO_OLD: u32 = 30;

/// The held fragments of one datagram. Contracts see it as a group of frames.
#[derive(Drop)]
pub(crate) struct Datagram {
    /// The name that its fragments have.
    name: Name,
    /// The seconds of the fragment that was pushed first.
    opened: u32,
    /// The fragments, in the order in which they were pushed.
    fragments: Vec<Fragment>,
    /// Which of the marked ones has which unit of eight bytes.
    marks: UnitOwners,
    /// Their extent.
    extent: Extent,
}

impl Model for Datagram {
    ghost use Rattle.ip_defrag.specs.Grouped.{Group};

    ghost Value = { Group };

    ghost use Rattle.ip_defrag.specs.Extents.{AreKept};
    ghost use Rattle.ip_defrag.specs.Marks.{AreMarked};

    ghost view = { λ it. record {
      name = it.name;
      opened = it.opened;
      fragments = it.fragments.items;
    } };

    ghost invariant = { λ it.
        AreKept it.fragments.items it.extent × AreMarked it.marks it.fragments.items };
}

impl Datagram {
    /// A datagram with its first fragment. After `NoPush` the fragment's frame is handed back.
    pub(crate) fn open(alloc: Global, fragment: Fragment) -> Result<Datagram, NoPush>
        ensures opened { IfOk result (λ datagram. datagram ≡ opened_by fragment) }
        ensures handed_back { IfErr result (λ no. no.frame ≡ fragment) }
    {
        let name = fragment.name();
        let opened = fragment.frame().sec;
        let extent = Extent::new().with(&fragment);
        let mut fragments = Vec::new(alloc);
        if let Err(refused) = fragments.push(fragment) {
            return Err(NoPush {
                frame: refused.value.into_frame(),
            });
        }
        Ok(Datagram {
            name,
            opened,
            fragments,
            marks: UnitOwners::new(alloc),
            extent,
        })
    }

    /// Whether its first fragment is less than 30 seconds old.
    pub(crate) fn is_fresh(&self, now: u32) -> bool
        ensures { result ≡ is_fresh now self.now }
    {
        now.saturating_sub(self.opened) < TOO_OLD
    }

    /// Whether it has a name, and is fresh.
    #[tactic(auto, unfolding(crate::specs::Fold::same_name))]
    pub(crate) fn is_live(&self, name: Name, now: u32) -> bool
        ensures { result ≡ is_live name now self.now }
    {
        self.name == name && self.is_fresh(now)
    }

    /// The number of its fragments.
    pub(crate) fn len(&self) -> u32
        ensures count { result ≡ length self.now.fragments }
        ensures most { result ≤ 65475 }
    {
        self.fragments.len() as u32
    }

    /// How a new fragment relates to its fragments. One that shares no place with any contradicts
    /// an end where it lies after all of them and one is last, or before one of them and is last
    /// itself. Its fragments are marked where the new one begins before the end of one of them.
    pub(crate) fn judge(&mut self, new: &Fragment) -> Result<Judgement, Memory>
        ensures judged { IfOk result (λ is. is ≡ judgement new.now self.old.fragments) }
        ensures same { self.new ≡ self.old }
    {
        if new.from() >= self.extent.reach {
            return Ok(apart(self.extent.end.is_some()));
        }
        self.marks.mark_all(&self.fragments)?;
        Ok(judge_marked(&self.marks.units, &self.fragments, new))
    }

    /// Adds a fragment, and returns the datagram's frame if that completes it. After `NoPush`
    /// nothing has changed, and the fragment's frame is handed back.
    pub(crate) fn add(&mut self, alloc: Global, fragment: Fragment) -> Result<Option<Frame>, NoPush>
        requires taken { takes_part fragment ≡ true }
        requires fits { FitsIn fragment self.old }
        ensures added { OnOk result (self.new ≡ with_frame fragment self.old) }
        ensures whole { IfOk result (λ it. it ≡ completed_with fragment self.old.fragments) }
        ensures unchanged { OnErr result (self.new ≡ self.old) }
        ensures handed_back { IfErr result (λ no. no.frame ≡ fragment) }
    {
        let extent = self.extent.with(&fragment);
        let whole = add_to(alloc, &mut self.fragments, extent, fragment)?;
        self.extent = extent;
        Ok(whole)
    }
}

/// How a fragment relates to others that are all marked, if it begins before the end of one of
/// them.
fn judge_marked(marks: &[u16], fragments: &[Fragment], new: &Fragment) -> Judgement
    requires held { AreHeld fragments.now }
    requires marked { AreMarks marks.now fragments.now }
    requires early { from_of new.now < reach_of fragments.now }
    requires some { from_of new.now < to_of new.now }
    ensures { result ≡ judgement new.now fragments.now }
{
    match met(marks, new) {
        Some(number) => beside(new, &fragments[number as usize - 1]),
        None => apart(new.is_last()),
    }
}

/// Adds a fragment after others, and returns their datagram's frame if that completes it. The
/// extent is that of all of them. After `NoPush` nothing has changed, and the fragment's frame is
/// handed back.
fn add_to(
    alloc: Global,
    fragments: &mut Vec<Fragment>,
    extent: Extent,
    fragment: Fragment,
) -> Result<Option<Frame>, NoPush>
    requires kept { AreKept (fragments.old.items ++ fragment ∷ []) extent }
    ensures added { OnOk result (fragments.new.items ≡ fragments.old.items ++ fragment ∷ []) }
    ensures whole { IfOk result (λ it. it ≡ completed_with fragment fragments.old.items) }
    ensures unchanged { OnErr result (fragments.new.items ≡ fragments.old.items) }
    ensures handed_back { IfErr result (λ no. no.frame ≡ fragment) }
{
    if let Err(refused) = fragments.push(fragment) {
        return Err(NoPush {
            frame: refused.value.into_frame(),
        });
    }
    let newest = &fragments[fragments.len() - 1];
    if let Ok(whole) = completed(alloc, fragments, extent, newest) {
        return Ok(whole);
    }
    Err(NoPush {
        frame: fragments.pop().unwrap().into_frame(),
    })
}
