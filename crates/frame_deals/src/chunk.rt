//! Some frames that follow one another, as far as they aren't taken.
ghost use Rattle.std.specs.Prelude.{◌≡◌, ◌≢◌, ◌↔◌, [], ◌∷◌, ◌++◌, OnErr, OnOk, IsTrue, drop};
ghost use Rattle.std.specs.Prelude.{slice_get};

use crate::MarkedFrame;
use frame_view::Memory;
use std::alloc::Global;
use std::collections::VecDeque;
use std::marker::Model;

/// The most frames of a chunk, which then has 1 MiB: this project's own choice. An allocator gives
/// memory of that size back to the system.
const FRAMES: usize = 65_536;

/// Some frames that follow one another, as far as they aren't taken.
#[derive(Drop)]
pub(crate) struct Chunk {
    frames: VecDeque<MarkedFrame>,
}

impl Model for Chunk {
    ghost use Rattle.std.specs.Prelude.{List};
    ghost use Rattle.frame_deals.specs.declared.mark_queue.MarkedFrame.{MarkedFrame};

    ghost Value = { List MarkedFrame };

    ghost view = { λ chunk. chunk.frames.items };
}

impl Chunk {
    /// No frame. It takes no memory.
    pub(crate) fn new(alloc: Global) -> Chunk
        ensures { result ≡ [] }
    {
        Chunk {
            frames: VecDeque::new(alloc),
        }
    }

    /// Whether there is no frame.
    pub(crate) fn is_empty(&self) -> bool
        ensures { IsTrue result ↔ (self.now ≡ []) }
    {
        self.frames.is_empty()
    }

    /// Whether there are as many frames as a chunk may have.
    pub(crate) fn is_full(&self) -> bool
        ensures { IsTrue result → self.now ≢ [] }
    {
        FRAMES <= self.frames.len()
    }

    /// Puts a frame at the end.
    pub(crate) fn push(&mut self, frame: MarkedFrame) -> Result<(), Memory>
        ensures ok { OnOk result (self.new ≡ self.old ++ frame ∷ []) }
        ensures err { OnErr result (self.new ≡ self.old) }
    {
        self.frames.push_back(frame)?;
        Ok(())
    }

    /// The first frame, if there is one.
    pub(crate) fn front(&self) -> Option<MarkedFrame>
        ensures { result ≡ slice_get self.now 0 }
    {
        self.frames.front().copied()
    }

    /// Takes the first frame, if there is one.
    pub(crate) fn pop(&mut self) -> Option<MarkedFrame>
        ensures first { result ≡ slice_get self.old 0 }
        ensures rest { self.new ≡ drop 1 self.old }
    {
        self.frames.pop_front()
    }
}
