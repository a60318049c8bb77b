//! How a ring between two threads is finished: its ends are joined, and the blocks that were
//! retired and not taken are left.
ghost use Rattle.std.specs.Prelude.{◌≡◌, ◌+◌, ◌-◌, ◌^◌, ◌<◌, ◌≤◌, ◌↔◌, true, false, [], ◌∷◌, ◌++◌};
ghost use Rattle.std.specs.Prelude.{length, take, option_map, slice_get, IfOk, IfSome, IsNone};
ghost use Rattle.std.specs.List.{AllByRecursion};
ghost use Rattle.ring_words.specs.Pendings.{AreReadyAfter, TookOne, entries_of};
ghost use Rattle.ring_words.specs.TableEnds.{IsSeated, found_in, odd_count};

use crate::handover::{CompareStep, DrainBothStep, Handover, RingSeat};
use crate::knowledge::{Known, Together};
use crate::{Content, TableFeeder, TableWalker};
use atomic_table::Shared;
use frame_view::Memory;
use std::alloc::Global;
use std::fmt;
use std::marker::Model;
use std::snapshot::Snapshot;

/// The retired blocks of a ring that weren't taken, by number, each with its status. Only `finish`
/// makes one. Contracts also see the list of all blocks that the feeder retired, and the numbers of
/// the reader's blocks that its looks found.
#[derive(Drop)]
pub struct Pending<B: Content + Drop> {
    /// The blocks, each with the status that it was retired with.
    blocks: Vec<(B, u32)>,
    /// The seat of both ends, which knows what the feeder did. It takes no memory.
    seat: RingSeat<B>,
}

impl<B: Content + Drop> Model for Pending<B> {
    ghost use Rattle.ring_words.specs.Pendings.{IsLeft, Pends, pends_of};

    ghost Value = { Pends B };

    ghost view = { λ left. pends_of left.seat.me left.blocks.items };

    ghost invariant = { λ left.
        IsLeft B.bytes B.kind B.ready (pends_of left.seat.me left.blocks.items) };
}

impl<B: Content + Drop> Pending<B> {
    /// How many blocks are pending.
    pub fn len(&self) -> usize
        ensures { result ≡ length self.now.blocks }
    {
        self.blocks.len()
    }

    /// The pending block at a place, counted from 0, with the status that it was retired with;
    /// `None` where the place isn't below the length.
    pub fn get(&self, at: usize) -> Option<(&B, u32)>
        ensures value { option_map (λ one. (one.0.now, one.1)) result
            ≡ slice_get self.now.blocks at }
        ensures none { IsNone result ↔ (length self.now.blocks ≤ at) }
        ensures kind { IfSome result (λ one. B.kind one.0.now ≡ self.now.kind) }
        ensures ready { IfSome result (λ one. B.ready one.0.now (self.now.passed + at + 1) one.1) }
    {
        match self.blocks.get(at) {
            Some((block, status)) => Some((block, *status)),
            None => None,
        }
    }
}

impl<B: Content + Drop> fmt::Debug for Pending<B> {
    /// Writes how many blocks are pending. Their bytes aren't shown.
    fn fmt<W: fmt::Write>(&self, f: &mut fmt::Formatter<W>) -> fmt::Result {
        f.debug_struct("Pending")
            .field("blocks", &self.len())
            .finish_non_exhaustive()
    }
}

/// Closes a ring whose reader has no block in hand, and returns the blocks that were retired and
/// not taken.
pub fn finish<B: Content + Drop>(
    alloc: Global,
    feeder: TableFeeder<B>,
    walker: TableWalker<B>,
) -> Result<Pending<B>, Memory>
    requires ring { walker.id ≡ feeder.id }
    requires hand { walker.in_hand ≡ false }
    ensures all { IfOk result (λ pending.
        walker.taken ++ entries_of B.bytes pending.blocks ≡ feeder.retired) }
    ensures retired { IfOk result (λ pending. pending.retired ≡ feeder.retired) }
    ensures holds { IfOk result (λ pending. pending.holds ≡ odd_count feeder.looks) }
    ensures found { IfOk result (λ pending. pending.found ≡ found_in feeder.looks) }
    ensures few { IfOk result (λ pending. length pending.retired < 2 ^ 40) }
    ensures kind { IfOk result (λ pending. pending.kind ≡ feeder.kind) }
    ensures passed { IfOk result (λ pending. pending.passed ≡ length walker.taken) }
{
    let TableFeeder {
        table,
        mut seat,
        places,
        retired,
        ..
    } = feeder;
    let TableWalker {
        seat: other,
        taken,
        ..
    } = walker;
    table.shared.join_seat::<Together>(&mut seat, other);
    table.shared.load::<CompareStep>(&mut seat, 0);
    let blocks = drain(alloc, &table.shared, &mut seat, places, taken, retired)?;
    Ok(Pending { blocks, seat })
}

/// Takes out the blocks that were retired and not taken, from one index up to another.
fn drain<B: Content + Drop>(
    alloc: Global,
    table: &Shared<Option<B>, Known, Snapshot<B>, Handover>,
    seat: &mut RingSeat<B>,
    places: u64,
    from: u64,
    to: u64,
) -> Result<Vec<(B, u32)>, Memory>
    requires table { IsSeated table.now.table_id seat.old.table_id places }
    requires feeds { seat.old.me.0.feeds ≡ true }
    requires walks { seat.old.me.0.walks ≡ true }
    requires from { length seat.old.me.0.taken ≡ from }
    requires to { length seat.old.me.0.retired ≡ to }
    requires order { from ≤ to }
    requires front { seat.old.me.0.taken ≡ take from seat.old.me.0.retired }
    ensures all { IfOk result (λ blocks. seat.old.me.0.taken ++ entries_of B.bytes blocks.items
        ≡ seat.old.me.0.retired) }
    ensures same { IfOk result (λ blocks. seat.new.me.0 ≡ record seat.old.me.0 {
      taken = seat.new.me.0.taken;
      visits = seat.new.me.0.visits;
    }) }
    ensures kind { IfOk result (λ blocks.
        AllByRecursion (λ one. B.kind one.0 ≡ seat.old.me.0.kind) blocks.items) }
    ensures ready { IfOk result (λ blocks. AreReadyAfter B.ready from blocks.items) }
{
    let mut blocks = Vec::with_capacity(alloc, (to - from) as usize)?;
    for at in from..to {
        blocks.push_reserved(next_pending(table, seat, places, at));
    }
    Ok(blocks)
}

/// Takes out the next block that was retired. It is there, so its word isn't tested.
fn next_pending<B: Content>(
    table: &Shared<Option<B>, Known, Snapshot<B>, Handover>,
    seat: &mut RingSeat<B>,
    places: u64,
    at: u64,
) -> (B, u32)
    requires table { IsSeated table.now.table_id seat.old.table_id places }
    requires feeds { seat.old.me.0.feeds ≡ true }
    requires walks { seat.old.me.0.walks ≡ true }
    requires at { length seat.old.me.0.taken ≡ at }
    requires left { at < length seat.old.me.0.retired }
    ensures table { seat.new.table_id ≡ seat.old.table_id }
    ensures took { TookOne seat.old.me.0 seat.new.me.0 (B.bytes result.0, result.1) }
    ensures front { seat.new.me.0.taken ≡ take (at + 1) seat.old.me.0.retired }
    ensures kind { B.kind result.0 ≡ seat.old.me.0.kind }
    ensures ready { B.ready result.0 (at + 1) result.1 }
{
    let place = (at % places) as usize;
    let word = table.load::<DrainBothStep>(seat, place);
    match table.exchange(seat, place, None) {
        Some(block) => (block, (word % 256) as u32),
        None => unreachable!(),
    }
}
