//! What is kept of the frames of a CPU, first in, first out.
//!
//! The frames are in chunks of 65,536, and a chunk is given back once all of its frames are taken.
//! So what is dealt takes the place of what was kept, and the two together don't take twice the
//! memory.
ghost use Rattle.std.specs.Prelude.{◌≡◌, ◌≢◌, [], ◌∷◌, ◌++◌, OnErr, OnOk, drop, slice_get};
ghost use Rattle.std.specs.List.{AllByRecursion};
ghost use Rattle.frame_deals.specs.inside.Chunks.{IsFilled, chunked, joined};

use crate::chunk::Chunk;
use deal_rules::Mark;
use frame_view::Memory;
use std::alloc::Global;
use std::collections::VecDeque;
use std::marker::Model;
use std::mem;

/// What is kept of a frame: 16 bytes, however long it is.
#[derive(Clone, Copy, Debug, PartialEq, Eq)]
pub struct MarkedFrame {
    /// Its time in nanoseconds, at least that of the frame before it.
    pub time: u64,
    /// What comes of it. In mode lb the member isn't known yet, and is that of ticket 0.
    pub mark: Mark,
}

/// What is kept of the frames of a CPU, first in, first out. Contracts see the frames, in order.
#[derive(Drop)]
pub struct MarkQueue {
    /// The first frames; empty only if there is none.
    head: Chunk,
    /// The chunks after it, none of which is empty.
    middle: VecDeque<Chunk>,
    /// The last frames.
    tail: Chunk,
}

impl Model for MarkQueue {
    ghost use Rattle.std.specs.Prelude.{List};
    ghost use Rattle.frame_deals.specs.inside.Chunks.{IsFilled, chunked};
    ghost use Rattle.frame_deals.specs.declared.mark_queue.MarkedFrame.{MarkedFrame};

    ghost Value = { List MarkedFrame };

    ghost view = { λ queue. chunked queue.head queue.middle.items queue.tail };

    ghost invariant = { λ queue. IsFilled queue.head queue.middle.items queue.tail };
}

impl MarkQueue {
    /// No frame. It takes no memory.
    pub(crate) fn new(alloc: Global) -> MarkQueue
        ensures { result ≡ [] }
    {
        MarkQueue {
            head: Chunk::new(alloc),
            middle: VecDeque::new(alloc),
            tail: Chunk::new(alloc),
        }
    }

    /// Puts a frame at the end. After `Memory` the frames are as before.
    #[tactic(auto, using(crate::proofs::ChunkLists::end_more))]
    pub(crate) fn push(&mut self, alloc: Global, frame: MarkedFrame) -> Result<(), Memory>
        ensures ok { OnOk result (self.new ≡ self.old ++ frame ∷ []) }
        ensures err { OnErr result (self.new ≡ self.old) }
    {
        make_room(alloc, &mut self.middle, &mut self.tail)?;
        self.tail.push(frame)?;
        refill(alloc, &mut self.head, &mut self.middle, &mut self.tail);
        Ok(())
    }

    /// The first frame, if there is one.
    pub(crate) fn front(&self) -> Option<MarkedFrame>
        ensures { result ≡ slice_get self.now 0 }
    {
        self.head.front()
    }

    /// Takes the first frame, if there is one.
    pub(crate) fn pop(&mut self, alloc: Global) -> Option<MarkedFrame>
        ensures first { result ≡ slice_get self.old 0 }
        ensures rest { self.new ≡ drop 1 self.old }
    {
        let frame = self.head.pop();
        refill(alloc, &mut self.head, &mut self.middle, &mut self.tail);
        frame
    }
}

/// Puts a full last chunk after those in the middle, and an empty one in its place.
#[tactic(auto, using(crate::proofs::ChunkLists::moved_same, crate::proofs::ChunkLists::some_more))]
fn make_room(alloc: Global, middle: &mut VecDeque<Chunk>, tail: &mut Chunk) -> Result<(), Memory>
    requires some { AllByRecursion (λ chunk. chunk ≢ []) middle.old.items }
    ensures same { joined middle.new.items ++ tail.new ≡ joined middle.old.items ++ tail.old }
    ensures some { AllByRecursion (λ chunk. chunk ≢ []) middle.new.items }
    ensures none { tail.old ≡ [] → (middle.new.items ≡ middle.old.items) × (tail.new ≡ []) }
{
    if tail.is_full() {
        middle.reserve(1)?;
        let full = mem::replace(tail, Chunk::new(alloc));
        middle.push_back_reserved(full);
    }
    Ok(())
}

/// Puts the next chunk in the place of an empty first one.
fn refill(alloc: Global, head: &mut Chunk, middle: &mut VecDeque<Chunk>, tail: &mut Chunk)
    requires some { AllByRecursion (λ chunk. chunk ≢ []) middle.old.items }
    ensures same { chunked head.new middle.new.items tail.new
        ≡ chunked head.old middle.old.items tail.old }
    ensures filled { IsFilled head.new middle.new.items tail.new }
{
    if !head.is_empty() {
        return;
    }
    match middle.pop_front() {
        Some(chunk) => *head = chunk,
        None => *head = mem::replace(tail, Chunk::new(alloc)),
    }
}
