//! How a block is filled: its header when it is opened, then packet after packet, and at last the
//! fields that are known only at its end.
ghost use Rattle.std.specs.Prelude.{◌≡◌, ◌+◌, ◌%◌, ◌^◌, ◌<◌, ◌≤◌, ◌++◌, ℕ, IsTrue, List, [], ◌∷◌};
ghost use Rattle.std.specs.Prelude.{length};
ghost use Rattle.frame_view.specs.declared.frames.Packet.{Packet};
ghost use Rattle.ring_model.specs.Offers.{packet_of};
ghost use Rattle.ring_model.specs.Sizes.{need_of};
ghost use Rattle.tp_layout.specs.Blocks.{BeginsWith, is_status};
ghost use Rattle.tp_layout.specs.Packets.{packet_text};
ghost use Rattle.tp_layout.specs.Requests.{fills_hash, first_of};
ghost use Rattle.tp_layout.specs.BlockWrites.{IsOpen, IsWritable, closed, closing_of, end_of};
ghost use Rattle.tp_layout.specs.BlockWrites.{open_header, put};

use crate::{Block, Shape};
use ring_model::Offer;

/// What the close of a block writes into its header.
#[derive(Clone, Copy, Debug, PartialEq, Eq)]
pub struct Closing {
    /// The status of retirement: TP_STATUS_USER (1), with TP_STATUS_LOSING (4), TP_STATUS_BLK_TMO
    /// (32) or both.
    pub status: u32,
    /// The number of packets.
    pub packets: u32,
    /// The place after the last packet, in bytes.
    pub length: u32,
    /// The place of the last packet, in bytes.
    pub last_at: u32,
    /// The seconds of the first packet's time.
    pub first_sec: u32,
    /// The nanoseconds of the first packet's time.
    pub first_nsec: u32,
    /// The seconds of the last packet's time.
    pub last_sec: u32,
    /// The nanoseconds of the last packet's time.
    pub last_nsec: u32,
}

/// Opens a block: writes the header of a block without packets, with status 0 and this number, and
/// zeros up to the place of the first packet. The other bytes stay (`prb_open_block` of the kernel;
/// the zeros and the times of 0 are this project's own choice).
pub fn write_header(block: &mut Block, shape: &Shape, number: u64)
    requires shape { block.old.shape ≡ shape.now }
    ensures written { block.new
        ≡ record block.old { bytes = put 0 (open_header shape.now number) block.old.bytes } }
    ensures opened { IsOpen shape.now number [] block.new.bytes }
{
    let first = shape.first();
    block.put_empty(first, number);
}

/// Writes the packet of an offer at a place, `need` bytes in all. The other bytes stay
/// (`tpacket_rcv` of the kernel).
pub fn write_packet(block: &mut Block, shape: &Shape, at: u32, offer: &Offer)
    requires shape { block.old.shape ≡ shape.now }
    requires aligned { at % 8 ≡ 0 }
    requires behind { first_of shape.now ≤ at }
    requires fits { at + need_of offer.now.snap ≤ shape.now.block_size }
    requires sound { IsWritable offer.now }
    ensures written { block.new ≡ record block.old {
      bytes = put at (packet_text (need_of offer.now.snap)
          (packet_of (fills_hash shape.now) offer.now)) block.old.bytes;
    } }
    ensures held { (number : ℕ) (packets : List Packet)
        → IsOpen shape.now number packets block.old.bytes → at ≡ end_of shape.now packets
        → IsOpen shape.now number
        (packets ++ packet_of (fills_hash shape.now) offer.now ∷ []) block.new.bytes }
{
    let fill = shape.fill_hash();
    block.put_packet(at, offer, fill);
}

/// Closes a block: writes the fields that are known only at its end, and that no packet follows the
/// last one. The other bytes stay (`prb_close_block` of the kernel).
pub fn close_header(block: &mut Block, shape: &Shape, closing: &Closing)
    requires shape { block.old.shape ≡ shape.now }
    requires behind { first_of shape.now ≤ closing.now.last_at }
    requires fits { closing.now.last_at + 88 ≤ shape.now.block_size }
    ensures written { block.new ≡ record block.old { bytes = closed closing.now block.old.bytes } }
    ensures text { (number : ℕ) (packets : List Packet)
        → IsOpen shape.now number packets block.old.bytes → 0 < number → 0 < length packets
        → closing.now ≡ closing_of shape.now closing.now.status packets
        → IsTrue (is_status closing.now.status)
        → BeginsWith shape.now number closing.now.status packets block.new.bytes }
{
    block.put_closing(closing);
}
