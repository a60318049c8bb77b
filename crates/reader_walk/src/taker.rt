//! What reads the blocks of a ring.
ghost use Rattle.std.specs.Prelude.{◌≡◌, ◌<◌, ◌^◌, [], ◌∷◌, ◌++◌, length, List, OnOk};
ghost use Rattle.reader_walk.specs.Takers.{Base, IsReadable};
ghost use Rattle.tp_layout.specs.Layouts.{Taken, taken_in};

use frame_view::Memory;
use tp_layout::Block;

/// What a reader thread does with each block that it takes. Contracts see the blocks that were
/// read, and what no block changes.
pub trait Taker {
    // The shape of the blocks that it reads, and whatever else distinguishes it from other takers.
    ghost base: { Self → Base };

    // The blocks that it has read, in order.
    ghost taken: { Self → List Taken };

    /// Reads a block that was retired, whose text reports its number, its status and its packets.
    /// After `Memory` nothing more is known of what was read.
    fn block(&mut self, block: &Block) -> Result<(), Memory>
        requires readable { IsReadable (base self.old).shape block.now }
        requires few { length (taken self.old) < 2 ^ 40 }
        ensures read { OnOk result (taken self.new
            ≡ taken self.old ++ taken_in (base self.old).shape block.now.bytes ∷ []) }
        ensures base { base self.new ≡ base self.old };
}
