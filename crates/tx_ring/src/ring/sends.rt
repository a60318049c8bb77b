//! How the requested slots of a ring are sent, from the start.
ghost use Rattle.std.specs.Prelude.{◌≡◌, ◌+◌, ◌^◌, ◌<◌, ◌≤◌, ◌++◌, ℕ, false, true, None, Some};
ghost use Rattle.std.specs.Prelude.{IfOk, IfSome, Err, is_some, length};
ghost use Rattle.tx_ring.specs.Outgoing.{Holds, frames_in};
ghost use Rattle.tx_ring.specs.Rings.{front_slot, room_of};
ghost use Rattle.tx_ring.specs.Sends.{FrontTaken, IsBrokenOff, OnMemory, UnlessMemory};
ghost use Rattle.tx_ring.specs.Sends.{after_send, after_taking, counted, front_of, is_good};
ghost use Rattle.tx_ring.specs.Sends.{frame_of, packets_sent, request_at, send_answer};
ghost use Rattle.tx_ring.specs.declared.error.SendError.TheVariants as errors;

use super::outgoing::Outgoing;
use super::{Sent, TxRing};
use crate::SendError;
use crate::slot_fields::{AVAILABLE, WRONG_FORMAT};
use frame_view::{LINK_HEADER, Memory, Packets, Piece};
use std::alloc::Global;
use std::mem;
use tp_layout::a_shape_is_sound;

impl TxRing {
    /// Takes the requested slots in order, and appends the packet of each good one, which is
    /// available then. A bad slot stops the ring for good, or with `skip_bad` is skipped. What was
    /// appended before an error stays; after `Memory` the slot in question is still requested.
    pub fn send(&mut self, out: &mut Packets) -> Result<Sent, SendError>
        ensures answer { UnlessMemory result (result ≡ send_answer self.old) }
        ensures ring { UnlessMemory result (self.new ≡ after_send self.old) }
        ensures packets { UnlessMemory result (out.new ≡ out.old ++ packets_sent self.old) }
        ensures memory { OnMemory result
            ((count : ℕ) × IsBrokenOff count self.old self.new out.old out.new) }
        ensures stays { (slot : ℕ) → self.old.stopped ≡ Some slot →
            (result ≡ Err (errors.BadSlot slot)) × (self.new ≡ self.old) × (out.new ≡ out.old) }
    {
        if let Some(slot) = self.stopped {
            return Err(SendError::BadSlot(slot));
        }
        let mut counts = Sent {
            sent: 0,
            skipped: 0,
        };
        reserve(self.alloc, out, self.requested() as usize);
        let mut frames = self.outgoing();
        for _ in 0..self.requested() {
            let is_sent = self.take_front(&mut frames, out)?;
            counts = count_one(counts, is_sent);
        }
        Ok(counts)
    }

    /// The number of slots that are requested.
    fn requested(&self) -> u32
        ensures { result ≡ length self.now.requests }
    {
        a_shape_is_sound(&self.shape);
        (self.placed - self.taken) as u32
    }

    /// The frames of all good requests, in one piece. A piece takes two allocations, so that one
    /// request alone makes none; and if there is no memory for it there may still be enough for
    /// those that are sent.
    fn outgoing(&self) -> Outgoing
        ensures { Holds result (frames_in (room_of self.now.shape) self.now.requests) }
    {
        let piece = if self.requested() > 1 {
            self.piece_of_frames().ok()
        } else {
            None
        };
        Outgoing::new(piece)
    }

    /// The bytes of the frames of all good requests, one after another.
    fn piece_of_frames(&self) -> Result<Piece, Memory>
        ensures value { IfOk result (λ piece.
            piece ≡ frames_in (room_of self.now.shape) self.now.requests) }
        ensures short { IfOk result (λ piece. length piece < 2 ^ 32) }
    {
        let mut bytes = Vec::with_capacity(self.alloc, self.length_of_frames())?;
        for place in 0..self.requested() {
            if let Some(frame) = self.good_frame(place) {
                bytes.extend_from_slice(frame)?;
            }
        }
        Piece::new(self.alloc, bytes)
    }

    /// How many bytes the frames of all good requests have.
    fn length_of_frames(&self) -> usize
        ensures value { result
            ≡ length (frames_in (room_of self.now.shape) self.now.requests) }
        ensures short { result < 2 ^ 32 }
    {
        a_shape_is_sound(&self.shape);
        let mut length = 0;
        for place in 0..self.requested() {
            if let Some(frame) = self.good_frame(place) {
                length += frame.len();
            }
        }
        length
    }

    /// Takes the first requested slot: sends it, skips it, or stops the ring there. It reports
    /// whether it was sent.
    fn take_front(&mut self, frames: &mut Outgoing, out: &mut Packets) -> Result<bool, SendError>
        requires some { 0 < length self.old.requests }
        requires frames { Holds frames.old (frames_in (room_of self.old.shape) self.old.requests) }
        ensures taken { FrontTaken self.old self.new out.old out.new result }
        ensures frames { IfOk result (λ _.
            Holds frames.new (frames_in (room_of self.new.shape) self.new.requests)) }
    {
        if let Some(frame) = self.good_frame(0) {
            let packet = frames.next_packet(self.alloc, frame)?;
            out.push(packet)?;
            self.free_front();
            return Ok(true);
        }
        if self.skip_bad {
            self.free_front();
            return Ok(false);
        }
        Err(SendError::BadSlot(self.stop_front()))
    }

    /// The frame of the request at a place among those that weren't taken yet, if it is good.
    fn good_frame(&self, place: u32) -> Option<&[u8]>
        requires { place < length self.now.requests }
        ensures good { is_some result
            ≡ is_good (room_of self.now.shape) (request_at place self.now.requests) }
        ensures value { IfSome result (λ frame.
            frame.now ≡ frame_of (request_at place self.now.requests)) }
        ensures short { IfSome result (λ frame. length frame.now < 2 ^ 32) }
        ensures whole { IfSome result (λ frame. 14 ≤ length frame.now) }
    {
        // The requests that weren't taken are the last ones that were placed.
        let at = self.slot_of(self.placed - u64::from(self.requested() - place));
        let asked = self.slots.asked(at) as usize;
        if self.slots.next_offset(at) == 0 && LINK_HEADER <= asked && asked <= self.room() {
            Some(self.slots.frame(at))
        } else {
            None
        }
    }

    /// Makes the first requested slot available, whose request was taken.
    fn free_front(&mut self)
        requires some { 0 < length self.old.requests }
        requires going { self.old.stopped ≡ None }
        ensures { self.new ≡ after_taking 1 self.old }
    {
        let at = self.slot_of(self.taken);
        self.slots.set_status(at, AVAILABLE);
        self.taken += 1;
    }

    /// Stops the ring at the first requested slot, which is bad, and reports its number.
    fn stop_front(&mut self) -> u32
        requires some { 0 < length self.old.requests }
        requires bad { is_good (room_of self.old.shape) (front_of self.old.requests) ≡ false }
        requires stays { self.old.skip_bad ≡ false }
        ensures slot { result ≡ front_slot self.old }
        ensures stopped { self.new ≡ record self.old { stopped = Some result } }
    {
        let at = self.slot_of(self.taken);
        self.slots.set_status(at, WRONG_FORMAT);
        let slot = at as u32;
        self.stopped = Some(slot);
        slot
    }
}

/// The counts with one more slot that was sent or skipped.
fn count_one(counts: Sent, is_sent: bool) -> Sent
    requires { counts.sent + counts.skipped + 1 < 2 ^ 32 }
    ensures { result ≡ counted counts is_sent }
{
    if is_sent {
        Sent {
            sent: counts.sent + 1,
            ..counts
        }
    } else {
        Sent {
            skipped: counts.skipped + 1,
            ..counts
        }
    }
}

/// Makes room for more packets, so that the list grows once. If there is no memory for all of them
/// there may still be enough for those that are sent.
fn reserve(alloc: Global, packets: &mut Packets, more: usize)
    ensures { packets.new ≡ packets.old }
{
    let mut list = mem::replace(packets, Packets::new(alloc)).into_vec();
    let _ = list.reserve(more);
    *packets = Packets::from_vec(list);
}
