//! A member's taker in a run with a pool: it decodes nothing, and hands each block in as a work.
ghost use Rattle.std.specs.Prelude.{◌≡◌, length};
ghost use Rattle.block_pool.specs.Takers.{HasNumbered};

use frame_view::{ByteList, Memory};
use reader_walk::{Taker, a_text_is_read_as_it_was_written};
use std::alloc::Global;
use std::marker::Model;
use std::sync::Wait;
use tp_layout::{Block, Shape, a_shape_is_sound, text_of};
use work_queue::{Work, WorkPass, WorkQueue};

/// A taker that copies the text of each block into a work, with its member and the next number.
#[derive(Drop)]
pub struct QueueTaker<'a, R: Wait> {
    /// Allocates the copies.
    pub(crate) alloc: Global,
    /// Ties the type to that of the runtime.
    pub(crate) rt: &'a R,
    /// Takes the works.
    pub(crate) queue: &'a WorkQueue,
    /// Its pass of the queue.
    pub(crate) pass: WorkPass,
    /// The number of its member, from 0.
    pub(crate) member: u32,
    /// The shape of the member's blocks.
    pub(crate) shape: Shape,
    /// How many works it has handed.
    pub(crate) handed: u64,
}

impl<'a, R: Wait> Model for QueueTaker<'a, R> {
    ghost use Rattle.block_pool.specs.Takers.{HandingValue};

    ghost Value = { HandingValue };

    ghost use Rattle.block_pool.specs.Takers.{IsHanding, handing_value};

    ghost view = { λ taker. handing_value taker.member taker.shape taker.pass };

    ghost invariant = { λ taker.
        IsHanding taker.queue.now taker.pass taker.member taker.shape taker.handed };
}

impl<'a, R: Wait> QueueTaker<'a, R> {
    /// Its pass, and how many works it has handed.
    pub(crate) fn into_parts(self) -> (WorkPass, u64)
        ensures pass { result.0 ≡ self.entry.pass }
        ensures handed { result.1 ≡ length self.entry.pass.handed }
        ensures numbered { HasNumbered self.entry }
    {
        (self.pass, self.handed)
    }
}

impl<'a, R: Wait> Taker for QueueTaker<'a, R> {
    ghost use Rattle.block_pool.specs.Takers.{handing_base, works_taken};

    ghost base = { handing_base };

    ghost taken = { λ taker. works_taken taker.pass.handed };

    fn block(&mut self, block: &Block) -> Result<(), Memory> {
        a_text_is_read_as_it_was_written();
        a_shape_is_sound(&self.shape);
        let text = ByteList::from_vec(text_of(block).to_vec(self.alloc)?);
        let work = Work {
            member: self.member,
            number: self.handed + 1,
            shape: self.shape,
            text,
        };
        match self.queue.hand(self.rt, &mut self.pass, work) {
            Ok(()) => {
                self.handed += 1;
                Ok(())
            }
            Err(_unhanded) => Err(Memory),
        }
    }
}
