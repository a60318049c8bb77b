//! A ring on one thread whose feeder is done: the waiting blocks are read, and then dropped.
ghost use Rattle.std.specs.Prelude.{◌≡◌, ◌+◌, ◌<◌, ◌≤◌, ℕ, true, false, List, length, vec_capacity};
ghost use Rattle.std.specs.Prelude.{IfOk, IfSome, IfNone, OnSome};
ghost use Rattle.std.specs.VecDeque.{deque_capacity};
ghost use Rattle.ring_words.specs.PlainRings.{GaveBack, PlainState, Took, marks_of, walk_of};
ghost use Rattle.ring_words.specs.Rings.{IsMark};

use crate::plain_ring::{Filled, Vacant};
use crate::{Content, WalkerEnd};
use frame_view::Memory;
use std::alloc::Global;
use std::collections::VecDeque;
use std::marker::Model;
use std::snapshot::Snapshot;

/// The reader's end of a ring on one thread whose feeder is done. Contracts see it as they see the
/// ring. A block that is released is dropped, since nobody fills it again, so its memory is free
/// for what was read.
#[derive(Drop)]
pub struct ClosingRing<B: Content + Drop> {
    /// The number of places.
    pub(crate) places: u64,
    /// How many blocks were given to the feeder.
    pub(crate) given: u64,
    /// How many of them it retired.
    pub(crate) retired: u64,
    /// How many of these the reader took.
    pub(crate) taken: u64,
    /// How many of these it released.
    pub(crate) released: u64,
    /// The words of the free places, by number.
    pub(crate) marks: Vec<u32>,
    /// The blocks that wait for the reader, by number.
    pub(crate) filled: VecDeque<Filled<B>>,
    /// How many looks of the feeder found no free block; it saturates at `u64::MAX`.
    pub(crate) holds: u64,
    /// How many looks of the reader found no block; it saturates at `u64::MAX`.
    pub(crate) empties: u64,
    /// One of the blocks that the ring was made from. It takes no memory: only contracts read it.
    pub(crate) sample: Snapshot<B>,
}

impl<B: Content + Drop> Model for ClosingRing<B> {
    ghost use Rattle.std.specs.Prelude.{◌≤◌, [], vec_capacity};
    ghost use Rattle.ring_words.specs.PlainRings.{Keeps, PlainState, entries_of};

    ghost Value = { PlainState };

    ghost view = { λ ring. record {
      places = ring.places;
      kind = B.kind ring.sample.value;
      given = ring.given;
      retired = ring.retired;
      taken = ring.taken;
      released = ring.released;
      shown = entries_of B.bytes ring.filled.items;
      marks = ring.marks.items;
      contents = [];
      holds = ring.holds;
      empties = ring.empties;
    } };

    ghost invariant = { λ ring.
        Keeps B.kind B.ready (record {
          places = ring.places;
          kind = B.kind ring.sample.value;
          given = ring.given;
          retired = ring.retired;
          taken = ring.taken;
          released = ring.released;
          shown = entries_of B.bytes ring.filled.items;
          marks = ring.marks.items;
          contents = [];
          holds = ring.holds;
          empties = ring.empties;
        }) [] ring.filled.items
        × (ring.places ≤ vec_capacity ring.marks) };
}

impl<B: Content + Drop> WalkerEnd<B> for ClosingRing<B> {
    ghost use Rattle.ring_words.specs.PlainRings.{GaveBack, Stays, Took, walk_of};

    ghost walk = { walk_of };

    ghost took = { Took };

    ghost gave_back = { λ before after content. GaveBack before after };

    ghost stays = { Stays };

    fn take(&mut self) -> Option<B> {
        match self.filled.pop_front() {
            Some(Filled { block, .. }) => {
                self.taken += 1;
                Some(block)
            }
            None => {
                self.empties = self.empties.saturating_add(1);
                None
            }
        }
    }

    fn release(&mut self, _block: B, mark: u32) {
        self.release_place(mark);
    }
}

impl<B: Content + Drop> ClosingRing<B> {
    /// Gives back the place of the block in hand, with this word, which is even and below 256, and
    /// not the block: that stays with whoever took it.
    pub fn release_place(&mut self, mark: u32)
        requires hand { (walk_of self.old).in_hand ≡ true }
        requires mark { IsMark mark }
        ensures released { walk_of self.new ≡ record (walk_of self.old) { in_hand = false } }
        ensures gave_back { GaveBack self.old self.new mark }
        ensures took { (before : PlainState) (content : List ℕ) →
            Took before self.old content → Took before self.new content }
    {
        self.marks.push_reserved(mark);
        self.released += 1;
    }
}

/// The words of the free places, in a list with room for all places.
pub(crate) fn marks_of<B: Drop>(
    alloc: Global,
    places: usize,
    vacant: VecDeque<Vacant<B>>,
) -> Result<Vec<u32>, Memory>
    ensures marks { IfOk result (λ marks. marks.items ≡ marks_of vacant.items) }
    ensures room { IfOk result (λ marks. places ≤ vec_capacity marks) }
{
    let mut marks = Vec::with_capacity(alloc, places)?;
    for place in vacant {
        marks.push(place.mark)?;
    }
    Ok(marks)
}
