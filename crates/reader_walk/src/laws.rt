//! What a reader reads is what was written.
ghost use Rattle.std.specs.Prelude.{◌≡◌, ◌≤◌, ℕ, List, length};
ghost use Rattle.frame_view.specs.declared.frames.Packet.{Packet};
ghost use Rattle.reader_walk.specs.Takers.{IsReadable};
ghost use Rattle.tp_layout.specs.Blocks.{BeginsWith};
ghost use Rattle.tp_layout.specs.Layouts.{taken_in};
ghost use Rattle.tp_layout.specs.declared.requests.RingRequest.{RingRequest};

use tp_layout::Block;

/// A law, for proofs only: a block that begins with a lawful text is read as that text's number,
/// status and packets.
pub fn a_text_is_read_as_it_was_written()
    ensures { (shape : RingRequest) (number status : ℕ) (packets : List Packet) (bytes : List ℕ)
        → shape.block_size ≤ 1048576 → BeginsWith shape number status packets bytes
        → taken_in shape bytes ≡ record { number = number; status = status; packets = packets } }
{}

/// A law, whose call does nothing: a block that can be read has at most 16,383 packets, since it
/// has at most 1 MiB and each packet takes at least 80 bytes of it.
pub fn a_block_has_few_packets(block: &Block)
    ensures { (shape : RingRequest) → IsReadable shape block.now
        → length (taken_in shape block.now.bytes).packets ≤ 16383 }
{
    let _bytes = block.bytes();
}
