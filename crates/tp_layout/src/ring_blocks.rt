//! The blocks of a ring.
ghost use Rattle.std.specs.Prelude.{◌≡◌, ◌+◌, ◌≤◌, IfOk, length, replicate};
ghost use Rattle.std.specs.Arc.{arc_value};
ghost use Rattle.ring_model.specs.Offers.{packet_of};
ghost use Rattle.ring_model.specs.Sizes.{need_of};
ghost use Rattle.tp_layout.specs.Packets.{IsTyped, packet_text};
ghost use Rattle.tp_layout.specs.Requests.{IsShape, first_of};
ghost use Rattle.tp_layout.specs.BlockWrites.{IsWritable, bytes_or_zeros, closed, open_header, put};
ghost use Rattle.tp_layout.specs.BlockWrites.{zero_block};
ghost use Rattle.tp_layout.specs.declared.requests.RingRequest.{RingRequest};

mod block_writers;

use crate::block_headers::{put_closing, put_empty};
use crate::packet_fields::put_packet;
use crate::{Closing, LazyBytes, Shape, zeros};
pub use block_writers::BlockWriter;
use frame_view::Memory;
use ring_model::Offer;
use std::alloc::Global;
use std::marker::Model;
use std::sync::Arc;

/// One block of a ring. Contracts see it as its shape and its bytes.
#[derive(Debug, Drop)]
pub struct Block {
    /// The shape of the ring's blocks.
    shape: Shape,
    /// Its bytes, whose number the shape gives, with memory for all of them.
    bytes: LazyBytes,
}

impl Model for Block {
    ghost use Rattle.tp_layout.specs.BlockWrites.{ShapedBytes};

    ghost Value = { ShapedBytes };

    ghost use Rattle.tp_layout.specs.BlocksInside.{IsBlock, shaped_bytes};

    ghost view = { shaped_bytes };

    ghost invariant = { IsBlock };
}

impl Block {
    /// Its bytes, whose number its shape gives.
    pub fn bytes(&self) -> &[u8]
        ensures value { result.now ≡ self.now.bytes }
        ensures size { length result.now ≡ self.now.shape.block_size }
        ensures sound { IsShape self.now.shape }
    {
        self.bytes.as_slice()
    }

    /// The bytes that were written, in their own memory: all of them, or none at all.
    pub(crate) fn into_written(self) -> Vec<u8>
        ensures { bytes_or_zeros self.shape.block_size result.items ≡ self.bytes }
    {
        self.bytes.into_written()
    }

    /// The shape of the ring's blocks.
    pub(crate) fn shape(&self) -> &Shape
        ensures { result.now ≡ self.now.shape }
    {
        &self.shape
    }

    /// Writes the header of a block without packets, and zeros up to the place of the first packet.
    pub(crate) fn put_empty(&mut self, first: u32, number: u64)
        requires order { 48 ≤ first }
        requires fits { first ≤ self.old.shape.block_size }
        ensures { (shape : RingRequest) → first ≡ first_of shape
            → self.new
            ≡ record self.old { bytes = put 0 (open_header shape number) self.old.bytes } }
    {
        self.bytes.begin(self.shape.block_size());
        put_empty(self.bytes.written.as_mut_slice(), first, number);
    }

    /// Writes the packet of an offer at a place.
    pub(crate) fn put_packet(&mut self, at: u32, offer: &Offer, fill: bool)
        requires fits { at + need_of offer.now.snap ≤ self.old.shape.block_size }
        requires small { self.old.shape.block_size ≤ 1048576 }
        requires sound { IsWritable offer.now }
        ensures written { self.new ≡ record self.old {
          bytes = put at (packet_text (need_of offer.now.snap)
              (packet_of fill offer.now)) self.old.bytes;
        } }
        ensures typed { IsTyped (packet_of fill offer.now) }
    {
        self.bytes.begin(self.shape.block_size());
        put_packet(self.bytes.written.as_mut_slice(), at as usize, offer, fill);
    }

    /// Writes the fields of the descriptor that are known at the end of a block, and that no packet
    /// follows the last one.
    pub(crate) fn put_closing(&mut self, closing: &Closing)
        requires behind { 48 ≤ closing.now.last_at }
        requires fits { closing.now.last_at + 4 ≤ self.old.shape.block_size }
        ensures written { self.new ≡ record self.old { bytes = closed closing.now self.old.bytes } }
        ensures size { length self.old.bytes ≡ self.old.shape.block_size }
    {
        self.bytes.begin(self.shape.block_size());
        put_closing(self.bytes.written.as_mut_slice(), closing);
    }
}

/// The blocks of a ring of this shape, of zeros. Their bytes have memory, and cost nothing more
/// until they are written.
pub fn blocks(alloc: Global, shape: &Shape) -> Result<Vec<Block>, Memory>
    ensures { IfOk result (λ blocks.
        blocks.items ≡ replicate shape.now.block_nr (zero_block shape.now)) }
{
    let zeros = zeros(alloc, shape.block_size())?;
    let mut blocks = Vec::new(alloc);
    for _ in 0..shape.block_nr() {
        blocks.push(unwritten_block(alloc, shape, &zeros)?)?;
    }
    Ok(blocks)
}

/// A block of zeros that was never written.
fn unwritten_block(
    alloc: Global,
    shape: &Shape,
    zeros: &Arc<Vec<u8>, Global>,
) -> Result<Block, Memory>
    requires { (arc_value zeros.now).items ≡ replicate shape.now.block_size 0 }
    ensures { IfOk result (λ block. block ≡ zero_block shape.now) }
{
    Ok(Block {
        shape: *shape,
        bytes: LazyBytes::with_room(alloc, zeros, shape.block_size())?,
    })
}
