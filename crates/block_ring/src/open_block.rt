//! The open block: packets are written one after another, and what its close will write is kept
//! beside it.
ghost use Rattle.std.specs.Prelude.{◌≡◌, ◌+◌, ◌^◌, ◌<◌, ◌≤◌, ◌++◌, ◌∷◌, ℕ, IsTrue, List, []};
ghost use Rattle.std.specs.Prelude.{length, ◌↔◌};
ghost use Rattle.ring_model.specs.Offers.{packet_of};
ghost use Rattle.ring_model.specs.Sizes.{fits, need_of};
ghost use Rattle.tp_layout.specs.Blocks.{BeginsWith, first_time, is_status};
ghost use Rattle.tp_layout.specs.Dump.{packets_of_offers};
ghost use Rattle.tp_layout.specs.Requests.{IsShape, fills_hash, room_of};
ghost use Rattle.tp_layout.specs.declared.requests.RingRequest.{RingRequest};
ghost use Rattle.tp_layout.specs.BlockWrites.{IsWritable};
ghost use Rattle.block_ring.specs.OpenBlocks.{Holds, OpenText, with_packet};

use ring_model::{Offer, need};
use tp_layout::{Block, BlockWriter, Closing, Shape, a_shape_is_sound};

/// A block that packets are written into.
#[derive(Drop)]
pub(crate) struct OpenBlock {
    block: BlockWriter,
    /// What its close will write, except the status. Its `length` is the place of the next packet,
    /// in bytes.
    closing: Closing,
}

impl OpenBlock {
    /// Opens a block with a number.
    pub(crate) fn new(block: Block, shape: &Shape, number: u64) -> OpenBlock
        requires { block.shape ≡ shape.now }
        ensures { Holds shape.now (record { number = number; offers = [] }) result }
    {
        let first = shape.first();
        OpenBlock {
            block: BlockWriter::new(block, shape, number),
            closing: Closing {
                status: 0,
                packets: 0,
                length: first,
                last_at: first,
                first_sec: 0,
                first_nsec: 0,
                last_sec: 0,
                last_nsec: 0,
            },
        }
    }

    /// Whether it has no packet.
    pub(crate) fn is_empty(&self) -> bool
        ghost text: { OpenText }
        requires { (shape : RingRequest) × Holds shape text self.now }
        ensures { IsTrue result ↔ (text.offers ≡ []) }
    {
        self.closing.packets == 0
    }

    /// Whether a packet of `need` bytes has room after the others.
    pub(crate) fn has_room(&self, shape: &Shape, need: u32) -> bool
        ghost text: { OpenText }
        requires holds { Holds shape.now text self.now }
        requires need { need ≤ 1048576 }
        ensures { result ≡ fits (room_of shape.now) text.offers need }
    {
        a_shape_is_sound(shape);
        self.closing.length + need <= shape.block_size()
    }

    /// Writes the packet of an offer after the others.
    pub(crate) fn add(&mut self, shape: &Shape, offer: &Offer)
        ghost text: { OpenText }
        requires holds { Holds shape.now text self.old }
        requires writable { IsWritable offer.now }
        requires room { self.old.closing.length + need_of offer.now.snap ≤ shape.now.block_size }
        ensures { Holds shape.now (with_packet text offer.now) self.new }
    {
        a_shape_is_sound(shape);
        self.keep_first_time(offer);
        let at = self.closing.length;
        self.block.write(shape, at, offer);
        self.closing.packets += 1;
        self.closing.length = at + need(offer.snap);
        self.closing.last_at = at;
        self.closing.last_sec = offer.frame.sec;
        self.closing.last_nsec = offer.frame.nsec;
    }

    /// Closes the block, with the status of retirement: TP_STATUS_USER (1), with TP_STATUS_LOSING
    /// (4), TP_STATUS_BLK_TMO (32) or both.
    pub(crate) fn close(self, shape: &Shape, status: u32) -> Block
        ghost text: { OpenText }
        requires holds { Holds shape.now text self }
        requires number { 0 < text.number }
        requires some { 0 < length text.offers }
        requires status { IsTrue (is_status status) }
        ensures shape { result.shape ≡ shape.now }
        ensures text { BeginsWith shape.now text.number status
            (packets_of_offers shape.now text.offers) result.bytes }
    {
        a_shape_is_sound(shape);
        let closing = Closing {
            status,
            ..self.closing
        };
        self.block.close(shape, &closing)
    }

    /// Keeps the time of an offer's packet, if it will be the first one.
    fn keep_first_time(&mut self, offer: &Offer)
        ghost text: { OpenText }
        requires { (shape : RingRequest) × Holds shape text self.old }
        ensures same { self.new ≡ record self.old {
          closing = record self.old.closing {
            first_sec = self.new.closing.first_sec;
            first_nsec = self.new.closing.first_nsec;
          };
        } }
        ensures time { (shape : RingRequest) → Holds shape text self.old
            → (self.new.closing.first_sec, self.new.closing.first_nsec)
            ≡ first_time (packets_of_offers shape (with_packet text offer.now).offers) }
    {
        if self.closing.packets == 0 {
            self.closing.first_sec = offer.frame.sec;
            self.closing.first_nsec = offer.frame.nsec;
        }
    }
}
