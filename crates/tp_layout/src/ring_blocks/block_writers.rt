//! A block while it is filled, whose memory grows as it is written.
ghost use Rattle.std.specs.Prelude.{◌≡◌, ◌+◌, ◌%◌, ◌<◌, ◌≤◌, ◌++◌, ◌∷◌, ℕ, IsTrue, List, []};
ghost use Rattle.std.specs.Prelude.{length};
ghost use Rattle.frame_view.specs.declared.frames.Packet.{Packet};
ghost use Rattle.ring_model.specs.Offers.{packet_of};
ghost use Rattle.ring_model.specs.Sizes.{need_of};
ghost use Rattle.tp_layout.specs.Blocks.{BeginsWith, is_status};
ghost use Rattle.tp_layout.specs.Packets.{IsTyped, packet_text};
ghost use Rattle.tp_layout.specs.Requests.{fills_hash, first_of};
ghost use Rattle.tp_layout.specs.BlockWrites.{IsOpen, IsWritable, closed, closing_of, end_of};
ghost use Rattle.tp_layout.specs.BlockWrites.{open_header, put};
ghost use Rattle.tp_layout.specs.declared.requests.RingRequest.{RingRequest};

use super::Block;
use crate::block_headers::put_empty;
use crate::packet_fields::put_packet;
use crate::{Closing, LazyBytes, Shape, close_header};
use ring_model::{Offer, need};
use std::marker::Model;

/// A block that is being filled. Contracts see it as they see a block: its shape and its bytes. If
/// it is filled for the first time its memory grows before each packet, as far as that needs, and
/// its close writes zeros over the rest.
#[derive(Debug, Drop)]
pub struct BlockWriter {
    /// The shape of the ring's blocks.
    shape: Shape,
    /// Its first bytes, with memory for the zeros after them.
    bytes: LazyBytes,
}

impl Model for BlockWriter {
    ghost use Rattle.tp_layout.specs.BlockWrites.{ShapedBytes};

    ghost Value = { ShapedBytes };

    ghost use Rattle.tp_layout.specs.WritersInside.{IsWriter, grown_bytes};

    ghost view = { grown_bytes };

    ghost invariant = { IsWriter };
}

impl BlockWriter {
    /// Opens a block, as `write_header` does.
    pub fn new(block: Block, shape: &Shape, number: u64) -> BlockWriter
        requires shape { block.shape ≡ shape.now }
        ensures written { result
            ≡ record block { bytes = put 0 (open_header shape.now number) block.bytes } }
        ensures opened { IsOpen shape.now number [] result.bytes }
    {
        let first = shape.first();
        let mut writer = BlockWriter::over(block);
        writer.put_empty(first, number);
        writer
    }

    /// Writes the packet of an offer at a place, as `write_packet` does.
    pub fn write(&mut self, shape: &Shape, at: u32, offer: &Offer)
        requires shape { self.old.shape ≡ shape.now }
        requires aligned { at % 8 ≡ 0 }
        requires behind { first_of shape.now ≤ at }
        requires fits { at + need_of offer.now.snap ≤ shape.now.block_size }
        requires sound { IsWritable offer.now }
        ensures written { self.new ≡ record self.old {
          bytes = put at (packet_text (need_of offer.now.snap)
              (packet_of (fills_hash shape.now) offer.now)) self.old.bytes;
        } }
        ensures held { (number : ℕ) (packets : List Packet)
            → IsOpen shape.now number packets self.old.bytes → at ≡ end_of shape.now packets
            → IsOpen shape.now number
            (packets ++ packet_of (fills_hash shape.now) offer.now ∷ []) self.new.bytes }
    {
        let fill = shape.fill_hash();
        self.put_packet(at, offer, fill);
    }

    /// Closes the block, as `close_header` does.
    pub fn close(mut self, shape: &Shape, closing: &Closing) -> Block
        requires shape { self.shape ≡ shape.now }
        requires behind { first_of shape.now ≤ closing.now.last_at }
        requires fits { closing.now.last_at + 88 ≤ shape.now.block_size }
        ensures written { result ≡ record self { bytes = closed closing.now self.bytes } }
        ensures text { (number : ℕ) (packets : List Packet)
            → IsOpen shape.now number packets self.bytes → 0 < number → 0 < length packets
            → closing.now ≡ closing_of shape.now closing.now.status packets
            → IsTrue (is_status closing.now.status)
            → BeginsWith shape.now number closing.now.status packets result.bytes }
    {
        let mut block = self.whole();
        close_header(&mut block, shape, closing);
        block
    }

    /// A writer of this block, which has written nothing so far.
    fn over(block: Block) -> BlockWriter
        ensures { result ≡ block }
    {
        BlockWriter {
            shape: block.shape,
            bytes: block.bytes,
        }
    }

    /// Writes the header of a block without packets, and zeros up to the place of the first packet.
    fn put_empty(&mut self, first: u32, number: u64)
        requires order { 48 ≤ first }
        requires fits { first ≤ self.old.shape.block_size }
        ensures { (shape : RingRequest) → first ≡ first_of shape
            → self.new
            ≡ record self.old { bytes = put 0 (open_header shape number) self.old.bytes } }
    {
        self.bytes.grow(first, self.shape.block_size());
        put_empty(self.bytes.written.as_mut_slice(), first, number);
    }

    /// Writes the packet of an offer at a place.
    fn put_packet(&mut self, at: u32, offer: &Offer, fill: bool)
        requires fits { at + need_of offer.now.snap ≤ self.old.shape.block_size }
        requires small { self.old.shape.block_size ≤ 1048576 }
        requires sound { IsWritable offer.now }
        ensures written { self.new ≡ record self.old {
          bytes = put at (packet_text (need_of offer.now.snap)
              (packet_of fill offer.now)) self.old.bytes;
        } }
        ensures typed { IsTyped (packet_of fill offer.now) }
    {
        self.bytes
            .grow(at + need(offer.snap), self.shape.block_size());
        put_packet(self.bytes.written.as_mut_slice(), at as usize, offer, fill);
    }

    /// The block, with zeros written up to its end.
    fn whole(mut self) -> Block
        ensures { result ≡ self }
    {
        let size = self.shape.block_size();
        self.bytes.grow(size, size);
        Block {
            shape: self.shape,
            bytes: self.bytes,
        }
    }
}
