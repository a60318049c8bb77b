//! A ring with both its ends on one thread is itself an end of its reader's side.
ghost use Rattle.std.specs.Prelude.{◌≡◌};

use crate::Producer;
use ring_words::{BothEnds, WalkerEnd};
use tp_layout::Block;

impl<E: BothEnds<Block> + Drop> WalkerEnd<Block> for Producer<E> {
    ghost use Rattle.block_ring.specs.WalkerSteps.{GaveBackBy, StaysBy, TookBy};

    ghost walk = { λ ring. E.walk ring.end };

    ghost took = { λ before after content. TookBy E.took before after content };

    ghost gave_back = { λ before after content mark. GaveBackBy E.gave_back before after content mark };

    ghost stays = { λ before after. StaysBy E.stays before after };

    fn take(&mut self) -> Option<Block> {
        self.machine.end.take()
    }

    fn release(&mut self, block: Block, mark: u32) {
        self.machine.end.release(block, mark);
    }
}
