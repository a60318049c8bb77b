//! A ring of blocks with both its ends on one thread is a receive ring.
use crate::ReceiveRing;
use block_ring::{Producer, TickError};
use frame_view::Memory;
use reader_walk::a_text_is_read_as_it_was_written;
use ring_model::{Notes, Offer, Put, Tried, Unput, the_clock_is_that_of_the_last_tick};
use ring_words::{ClosingRing, PlainRing};
use std::alloc::Global;
use tp_layout::{Block, Shape, a_shape_is_sound, blocks};

impl ReceiveRing for Producer<PlainRing<Block>> {
    type Unit = Block;

    ghost use Rattle.std.specs.Prelude.{refl};
    ghost use Rattle.receive_ring.specs.BlockLaws.{all_blocks, blocks_grow, blocks_read_back};
    ghost use Rattle.receive_ring.specs.BlockLaws.{few_blocks, stays_blocks, took_block};
    ghost use Rattle.receive_ring.specs.BlockRings.{block_reads, seen_blocks, steps_of_blocks};
    ghost use Rattle.run_reports.specs.declared.ring_kind.RingKind.TheVariants.{Blocks};
    ghost use Rattle.tp_layout.specs.Requests.{IsShape};

    ghost seen = { seen_blocks };

    ghost may = { IsShape };

    ghost kind = { Blocks };

    ghost steps = { steps_of_blocks };

    ghost reads = { block_reads };

    fn open(alloc: Global, shape: &Shape) -> Result<Producer<PlainRing<Block>>, Memory> {
        a_text_is_read_as_it_was_written();
        let ring = PlainRing::new(alloc, blocks(alloc, shape)?)?;
        Producer::new(alloc, *shape, ring)
    }

    /// The bytes of a block that are for packets.
    fn room(shape: &Shape) -> u32 {
        a_shape_is_sound(shape);
        shape.room()
    }

    /// If the offer finds no room and no free block the open block is retired, and the ring is
    /// frozen.
    #[inline(always)]
    fn put(&mut self, offer: Offer) -> Result<Put, Unput> {
        a_text_is_read_as_it_was_written();
        self.put(offer)
    }

    fn try_put(&mut self, offer: Offer) -> Result<Tried, Unput> {
        a_text_is_read_as_it_was_written();
        self.try_put(offer)
    }

    /// If the deadline is reached an open block that has packets is retired, and a next block is
    /// asked for.
    fn tick(&mut self, ms: u64) -> Result<(), Memory> {
        a_text_is_read_as_it_was_written();
        the_clock_is_that_of_the_last_tick();
        match self.tick(ms) {
            Ok(()) => Ok(()),
            Err(TickError::Memory) => Err(Memory),
            Err(TickError::Backwards(_)) => unreachable!(),
        }
    }

    fn take_stats(&mut self) -> Result<(), Memory> {
        a_text_is_read_as_it_was_written();
        self.take_stats()?;
        Ok(())
    }

    fn close(self, alloc: Global) -> Result<(ClosingRing<Block>, Notes), Memory> {
        a_text_is_read_as_it_was_written();
        let (ring, notes) = self.finish();
        Ok((ring.closing(alloc)?, notes))
    }

    ghost walk_is = { λ ring. refl };

    ghost took_is = { took_block };

    ghost stays_is = { stays_blocks };

    ghost reads_grow = { blocks_grow };

    ghost reads_few = { few_blocks };

    ghost serves = { λ shape may. tt };

    ghost steps_are = { λ shape. refl };

    ghost reads_back = { blocks_read_back };

    ghost reads_all = { all_blocks };
}
