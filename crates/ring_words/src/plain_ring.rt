//! A ring on one thread. It has no words: its blocks are in two queues by number, the free ones and
//! those that wait for the reader.
ghost use Rattle.std.specs.Prelude.{◌≡◌, ◌+◌, ◌-◌, ◌^◌, ◌<◌, ◌≤◌, ℕ, false, true, List, [], ◌∷◌};
ghost use Rattle.std.specs.Prelude.{◌++◌, length, map, Option, Some, IfOk, IfSome, IfNone, OnSome};
ghost use Rattle.std.specs.List.{AllByRecursion};
ghost use Rattle.std.specs.VecDeque.{deque_capacity};
ghost use Rattle.ring_words.specs.Counts.{Rose};
ghost use Rattle.ring_words.specs.Looks.{IfFree, IfHeld, OnFree, OnHeld, IsOneRoundBefore};
ghost use Rattle.ring_words.specs.PlainRings.{IsOwned, Stays, Took, fresh, has_block, ring_of};
ghost use Rattle.ring_words.specs.Rings.{IsMark, IsStatus};

use crate::closing_ring::{ClosingRing, marks_of};
use crate::{BothEnds, Content, FeederEnd, Next, WalkerEnd};
use frame_view::Memory;
use std::alloc::Global;
use std::collections::VecDeque;
use std::marker::Model;
use std::snapshot::Snapshot;

/// A free block at its place.
#[derive(Drop)]
pub(crate) struct Vacant<B> {
    pub(crate) block: B,
    /// The word of its place, which is even and below 256.
    pub(crate) mark: u32,
}

/// A retired block at its place.
#[derive(Drop)]
pub(crate) struct Filled<B> {
    pub(crate) block: B,
    /// The status that it was retired with, which is odd and below 256.
    pub(crate) status: u32,
}

/// Both ends of a ring, on one thread. Here each look is exact: the feeder finds a block free
/// exactly where the reader has released the one at that place, and the reader finds one exactly
/// where one waits.
#[derive(Drop)]
pub struct PlainRing<B: Content + Drop> {
    /// The number of places.
    places: u64,
    /// How many blocks were given to the feeder.
    given: u64,
    /// How many of them it retired.
    retired: u64,
    /// How many of these the reader took.
    taken: u64,
    /// How many of these it released.
    released: u64,
    /// The free blocks, by number.
    vacant: VecDeque<Vacant<B>>,
    /// The blocks that wait for the reader, by number.
    filled: VecDeque<Filled<B>>,
    /// How many looks of the feeder found no free block; it saturates at `u64::MAX`.
    holds: u64,
    /// How many looks of the reader found no block; it saturates at `u64::MAX`.
    empties: u64,
    /// One of the blocks that the ring was made from. It takes no memory: only contracts read it.
    sample: Snapshot<B>,
}

impl<B: Content + Drop> Model for PlainRing<B> {
    ghost use Rattle.std.specs.Prelude.{◌≤◌};
    ghost use Rattle.std.specs.VecDeque.{deque_capacity};
    ghost use Rattle.ring_words.specs.PlainRings.{Keeps, PlainState, contents_of, entries_of};
    ghost use Rattle.ring_words.specs.PlainRings.{marks_of};

    ghost Value = { PlainState };

    ghost view = { λ ring. record {
      places = ring.places;
      kind = B.kind ring.sample.value;
      given = ring.given;
      retired = ring.retired;
      taken = ring.taken;
      released = ring.released;
      shown = entries_of B.bytes ring.filled.items;
      marks = marks_of ring.vacant.items;
      contents = contents_of B.bytes ring.vacant.items;
      holds = ring.holds;
      empties = ring.empties;
    } };

    ghost invariant = { λ ring.
        Keeps B.kind B.ready (record {
          places = ring.places;
          kind = B.kind ring.sample.value;
          given = ring.given;
          retired = ring.retired;
          taken = ring.taken;
          released = ring.released;
          shown = entries_of B.bytes ring.filled.items;
          marks = marks_of ring.vacant.items;
          contents = contents_of B.bytes ring.vacant.items;
          holds = ring.holds;
          empties = ring.empties;
        }) ring.vacant.items ring.filled.items
        × (ring.places ≤ deque_capacity ring.vacant)
        × (ring.places ≤ deque_capacity ring.filled) };
}

impl<B: Content + Drop> FeederEnd<B> for PlainRing<B> {
    ghost use Rattle.ring_words.specs.PlainRings.{FoundFree, feed_of};

    ghost feed = { feed_of };

    ghost found_free = { FoundFree };

    fn next(&mut self) -> Next<B> {
        match self.vacant.pop_front() {
            Some(Vacant { block, mark }) => {
                self.given += 1;
                Next::Free { block, mark }
            }
            None => {
                self.holds = self.holds.saturating_add(1);
                Next::Held(self.released + 1)
            }
        }
    }

    fn retire(&mut self, block: B, status: u32) {
        self.filled.push_back_reserved(Filled { block, status });
        self.retired += 1;
    }

    ghost use Rattle.std.proofs.Common.{arith};

    ghost far = { λ ring. Prim.omega arith };
}

impl<B: Content + Drop> WalkerEnd<B> for PlainRing<B> {
    ghost use Rattle.ring_words.specs.PlainRings.{PutBack, Stays, Took, walk_of};

    ghost walk = { walk_of };

    ghost took = { Took };

    ghost gave_back = { PutBack };

    ghost stays = { Stays };

    fn take(&mut self) -> Option<B> {
        match self.filled.pop_front() {
            Some(Filled { block, .. }) => {
                self.taken += 1;
                Some(block)
            }
            None => {
                self.empties = self.empties.saturating_add(1);
                None
            }
        }
    }

    fn release(&mut self, block: B, mark: u32) {
        self.vacant.push_back_reserved(Vacant { block, mark });
        self.released += 1;
    }
}

impl<B: Content + Drop> BothEnds<B> for PlainRing<B> {
    ghost use Rattle.ring_words.specs.PlainLaws.{gave_back_leaves, stays_leaves, took_leaves};

    ghost took_leaves = { took_leaves };

    ghost gave_back_leaves = { gave_back_leaves };

    ghost stays_leaves = { stays_leaves };
}

impl<B: Content + Drop> PlainRing<B> {
    /// A ring of these blocks, in the order of its places. They are 2 to 1,048,576 of one kind.
    pub fn new(alloc: Global, blocks: Vec<B>) -> Result<PlainRing<B>, Memory>
        requires some { 2 ≤ length blocks.items }
        requires few { length blocks.items ≤ 1048576 }
        requires kind { (kind : List ℕ) ×
            AllByRecursion (λ block. B.kind block ≡ kind) blocks.items }
        ensures fresh { IfOk result (λ ring. ring
            ≡ fresh (length blocks.items) ring.kind (map B.bytes blocks.items)) }
        ensures kind { (kind : List ℕ) →
            AllByRecursion (λ block. B.kind block ≡ kind) blocks.items →
            IfOk result (λ ring. ring.kind ≡ kind) }
    {
        let places = blocks.len();
        let sample = Snapshot::of(&blocks[0]);
        let filled = VecDeque::with_capacity(alloc, places)?;
        Ok(PlainRing {
            places: places as u64,
            given: 0,
            retired: 0,
            taken: 0,
            released: 0,
            vacant: all_vacant(alloc, blocks)?,
            filled,
            holds: 0,
            empties: 0,
            sample,
        })
    }

    /// The ring after its feeder is done, for the reader alone: the memory of each block that is
    /// free or is released is freed.
    pub fn closing(self, alloc: Global) -> Result<ClosingRing<B>, Memory>
        ensures { IfOk result (λ ring. ring ≡ record self { contents = [] }) }
    {
        let marks = marks_of(alloc, self.places as usize, self.vacant)?;
        Ok(ClosingRing {
            places: self.places,
            given: self.given,
            retired: self.retired,
            taken: self.taken,
            released: self.released,
            marks,
            filled: self.filled,
            holds: self.holds,
            empties: self.empties,
            sample: self.sample,
        })
    }
}

/// Who owns which block of a ring, at each moment between two calls.
pub fn ownership_holds<B: Content + Drop>(ring: &PlainRing<B>)
    ensures owned { IsOwned ring.now }
    ensures places { (2 ≤ ring.now.places) × (ring.now.places ≤ 1048576) }
    ensures bound { ring.now.given < (ring_of ring.now).bound }
{
    let _ring = &ring.given;
}

/// All blocks as free ones with the word 0, and an empty queue with room for as many.
fn all_vacant<B: Drop>(alloc: Global, blocks: Vec<B>) -> Result<VecDeque<Vacant<B>>, Memory>
    ensures items { IfOk result (λ vacant. vacant.items
        ≡ map (λ block. record { block = block; mark = 0 }) blocks.items) }
    ensures room { IfOk result (λ vacant. length blocks.items ≤ deque_capacity vacant) }
{
    let mut vacant = VecDeque::with_capacity(alloc, blocks.len())?;
    for block in blocks {
        vacant.push_back_reserved(Vacant { block, mark: 0 });
    }
    Ok(vacant)
}
