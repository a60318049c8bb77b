//! A ring of slots with both its ends on one thread is a receive ring.
use crate::ReceiveRing;
use frame_view::Memory;
use ring_model::{Notes, Offer, Put, Tried, Unput};
use ring_words::{ClosingRing, PlainRing};
use slot_layout::{Slot, a_checked_ring_is_bounded, a_slot_is_read_as_it_was_written, slots};
use std::alloc::Global;
use tp_layout::{Shape, a_shape_is_sound};
use v2_ring::SlotProducer;

/// By how much the room of a block for a slot's packet is longer than the slot: a packet's data
/// follow 66 bytes in a slot and 82 in a block.
const NEARER: u32 = 16;

impl ReceiveRing for SlotProducer<PlainRing<Slot>> {
    type Unit = Slot;

    ghost use Rattle.std.specs.Prelude.{refl};
    ghost use Rattle.receive_ring.specs.SlotLaws.{all_slots, few_slots, slots_grow};
    ghost use Rattle.receive_ring.specs.SlotLaws.{slots_read_back};
    ghost use Rattle.receive_ring.specs.SlotLaws.{stays_slots, took_slot};
    ghost use Rattle.receive_ring.specs.SlotRings.{seen_slots, slot_reads, steps_of_slots};
    ghost use Rattle.run_reports.specs.declared.ring_kind.RingKind.TheVariants.{Slots};
    ghost use Rattle.slot_layout.specs.SlotShapes.{IsSlotShape};

    ghost seen = { seen_slots };

    ghost may = { IsSlotShape };

    ghost kind = { Slots };

    ghost steps = { steps_of_slots };

    ghost reads = { slot_reads };

    fn open(alloc: Global, shape: &Shape) -> Result<SlotProducer<PlainRing<Slot>>, Memory> {
        a_checked_ring_is_bounded();
        let ring = PlainRing::new(alloc, slots(alloc, shape)?)?;
        SlotProducer::new(alloc, *shape, ring)
    }

    fn room(shape: &Shape) -> u32 {
        a_checked_ring_is_bounded();
        a_shape_is_sound(shape);
        shape.frame_size() + NEARER
    }

    fn put(&mut self, offer: Offer) -> Result<Put, Unput> {
        a_slot_is_read_as_it_was_written();
        self.put(offer)
    }

    fn try_put(&mut self, offer: Offer) -> Result<Tried, Unput> {
        a_slot_is_read_as_it_was_written();
        self.try_put(offer)
    }

    /// A ring of slots has no timer, so nothing happens.
    fn tick(&mut self, _ms: u64) -> Result<(), Memory> {
        Ok(())
    }

    fn take_stats(&mut self) -> Result<(), Memory> {
        a_slot_is_read_as_it_was_written();
        self.take_stats()?;
        Ok(())
    }

    fn close(self, alloc: Global) -> Result<(ClosingRing<Slot>, Notes), Memory> {
        a_slot_is_read_as_it_was_written();
        let (ring, notes) = self.finish();
        Ok((ring.closing(alloc)?, notes))
    }

    ghost walk_is = { λ ring. refl };

    ghost took_is = { took_slot };

    ghost stays_is = { stays_slots };

    ghost reads_grow = { slots_grow };

    ghost reads_few = { few_slots };

    ghost serves = { λ shape may. may };

    ghost steps_are = { λ shape. refl };

    ghost reads_back = { slots_read_back };

    ghost reads_all = { all_slots };
}
