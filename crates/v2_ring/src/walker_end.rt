//! A ring of slots with both its ends on one thread is itself an end of its reader's side.
ghost use Rattle.std.specs.Prelude.{◌≡◌};

use crate::SlotProducer;
use ring_words::{BothEnds, WalkerEnd};
use slot_layout::Slot;

impl<E: BothEnds<Slot> + Drop> WalkerEnd<Slot> for SlotProducer<E> {
    ghost use Rattle.v2_ring.specs.SlotWalkerSteps.{SlotGaveBackBy, SlotStaysBy, SlotTookBy};

    ghost walk = { λ ring. E.walk ring.end };

    ghost took = { λ before after content. SlotTookBy E.took before after content };

    ghost gave_back = { λ before after content mark. SlotGaveBackBy E.gave_back before after content mark };

    ghost stays = { λ before after. SlotStaysBy E.stays before after };

    fn take(&mut self) -> Option<Slot> {
        self.machine.end.take()
    }

    fn release(&mut self, block: Slot, mark: u32) {
        self.machine.end.release(block, mark);
    }
}
