//! The ring of slots, in the manner of the kernel's `tpacket_snd` with TPACKET_V3.
//!
//! All slots are available at first. A sender places frames in turn: it writes a slot, which
//! requests it, and goes on to the next one; the first follows the last. It can go on until all
//! slots are requested. A send takes the requested slots in the order in which they were placed. A
//! good one becomes a packet, and the slot is available again. A bad one is skipped if that is
//! asked for (PACKET_LOSS of packet(7)), and is then available; otherwise it stays where it is, in
//! wrong format, and the ring has stopped for good: nothing more is placed or sent. The kernel lets
//! the sender repair such a slot.
ghost use Rattle.std.specs.Prelude.{◌≡◌, ◌+◌, ◌-◌, ◌^◌, ◌<◌, ◌≤◌, ◌++◌, ◌==◌, ℕ, false, true, None};
ghost use Rattle.std.specs.Prelude.{Some, IfOk, is_some, length};
ghost use Rattle.tp_layout.specs.Requests.{transmit_fault};
ghost use Rattle.tx_ring.specs.Rings.{after_place, new_ring, place_answer, request_of, room_of};
ghost use Rattle.tx_ring.specs.Rings.{slot_of, status_at, whole_request, with_request};

mod outgoing;
mod sends;

use crate::TxError;
use crate::slot_fields::HEADER;
use crate::slots::Slots;
use frame_view::Memory;
use std::alloc::Global;
use std::marker::Model;
use tp_layout::Shape;

/// What one call of `send` did.
#[derive(Clone, Copy, Debug, PartialEq, Eq)]
pub struct Sent {
    /// The number of packets that were appended.
    pub sent: u32,
    /// The number of slots that were skipped.
    pub skipped: u32,
}

/// A transmit ring (PACKET_TX_RING). Contracts see what was placed in it and not sent yet, as a
/// list.
#[derive(Debug, Drop)]
pub struct TxRing {
    /// The allocator, for the packets that are sent.
    alloc: Global,
    /// The shape of the ring.
    shape: Shape,
    /// Whether a bad slot is skipped instead of stopping the ring (PACKET_LOSS).
    skip_bad: bool,
    /// The slots, as many as the shape says.
    slots: Slots,
    /// How many slots were placed so far; the next one is that of this number.
    placed: u64,
    /// How many of them were sent or skipped; the next one to send is that of this number.
    taken: u64,
    /// The slot where the ring stopped.
    stopped: Option<u32>,
}

impl Model for TxRing {
    ghost use Rattle.tx_ring.specs.KeptSlots.{Keeps, state_in};
    ghost use Rattle.tx_ring.specs.Rings.{TxState};

    ghost Value = { TxState };

    ghost view = { λ ring.
        state_in ring.shape ring.skip_bad ring.slots ring.placed ring.taken ring.stopped };

    ghost invariant = { λ ring.
        Keeps
        (state_in ring.shape ring.skip_bad ring.slots ring.placed ring.taken ring.stopped)
        ring.slots ring.taken };
}

impl TxRing {
    /// A ring of this shape, which is that of a request that passed `RingRequest::check_tx`. All
    /// its slots are available.
    pub fn new(alloc: Global, shape: Shape, skip_bad: bool) -> Result<TxRing, Memory>
        requires { transmit_fault shape ≡ None }
        ensures { IfOk result (λ ring. ring ≡ new_ring shape skip_bad) }
    {
        let slots = Slots::new(alloc, shape)?;
        Ok(TxRing {
            alloc,
            shape,
            skip_bad,
            slots,
            placed: 0,
            taken: 0,
            stopped: None,
        })
    }

    /// Writes the next slot and requests it: the offset to a next frame (0 if there is none), the
    /// length of the frame and the bytes that it begins with. The rest of the slot is zeros. After
    /// a refusal the ring is unchanged.
    pub fn place(&mut self, next_offset: u32, length: u32, bytes: &[u8]) -> Result<(), TxError>
        requires few { self.old.placed < 2 ^ 54 }
        ensures answer { result ≡ place_answer self.old bytes.now }
        ensures placed { self.new ≡ after_place self.old (request_of next_offset length bytes.now) }
    {
        if bytes.len() > self.room() {
            return Err(TxError::TooLong);
        }
        if let Some(slot) = self.stopped {
            return Err(TxError::Stopped(slot));
        }
        if self.is_full() {
            return Err(TxError::Full);
        }
        self.request_next(next_offset, length, bytes);
        Ok(())
    }

    /// Places a whole frame: `place` with no next frame and the number of its bytes. After a
    /// refusal the ring is unchanged.
    pub fn queue(&mut self, bytes: &[u8]) -> Result<(), TxError>
        requires few { self.old.placed < 2 ^ 54 }
        ensures answer { result ≡ place_answer self.old bytes.now }
        ensures placed { self.new ≡ after_place self.old (whole_request bytes.now) }
    {
        if self.room() < bytes.len() {
            return Err(TxError::TooLong);
        }
        self.place(0, bytes.len() as u32, bytes)
    }

    /// The status of a slot (tp_status): TP_STATUS_AVAILABLE (0), TP_STATUS_SEND_REQUEST (1), or
    /// TP_STATUS_WRONG_FORMAT (4) where the ring stopped. `None` exactly if there is no slot of
    /// this number.
    pub fn status(&self, slot: u32) -> Option<u32>
        ensures { result ≡ status_at self.now slot }
    {
        if slot < self.shape.frame_nr() {
            Some(self.slots.status(slot as usize))
        } else {
            None
        }
    }

    /// The number of bytes that fit after the header of a slot.
    pub(crate) fn room(&self) -> usize
        ensures value { result ≡ room_of self.now.shape }
        ensures least { 20 ≤ result }
        ensures small { result + 48 < 2 ^ 32 }
        ensures whole { room_of self.now.shape + 48 ≡ self.now.shape.frame_size }
    {
        self.shape.frame_size() as usize - HEADER
    }

    /// Whether the ring stopped at a bad slot.
    pub(crate) fn has_stopped(&self) -> bool
        ensures { result ≡ is_some self.now.stopped }
    {
        self.stopped.is_some()
    }

    /// Whether all slots are requested.
    pub(crate) fn is_full(&self) -> bool
        ensures full { result ≡ (length self.now.requests == self.now.shape.frame_nr) }
        ensures free { result ≡ false → length self.now.requests < self.now.shape.frame_nr }
    {
        self.placed - self.taken == u64::from(self.shape.frame_nr())
    }

    /// Writes the next slot, which is free, and requests it.
    fn request_next(&mut self, next_offset: u32, asked: u32, bytes: &[u8])
        requires few { self.old.placed < 2 ^ 54 }
        requires fits { length bytes.now ≤ room_of self.old.shape }
        requires going { self.old.stopped ≡ None }
        requires free { length self.old.requests < self.old.shape.frame_nr }
        ensures { self.new ≡ with_request self.old (request_of next_offset asked bytes.now) }
    {
        let at = self.slot_of(self.placed);
        self.slots.request(at, next_offset, asked, bytes);
        self.placed += 1;
    }

    /// The slot of the request that was placed as number `number`, from 0.
    fn slot_of(&self, number: u64) -> usize
        ensures value { result ≡ slot_of self.now.shape number }
        ensures within { result < self.now.shape.frame_nr }
        ensures small { result < 2 ^ 32 }
    {
        (number % u64::from(self.shape.frame_nr())) as usize
    }
}
