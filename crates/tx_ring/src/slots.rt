//! The slots of a transmit ring.
ghost use Rattle.std.specs.Prelude.{◌≡◌, ◌+◌, ◌*◌, ◌^◌, ◌<◌, ◌≤◌, IfOk, MatchOption, drop, length};
ghost use Rattle.std.specs.Prelude.{replicate, set, take};
ghost use Rattle.std.specs.Vec.{vec_capacity};
ghost use Rattle.tx_ring.specs.Sends.{frame_of};
ghost use Rattle.tp_layout.specs.Rows.{number_at};
ghost use Rattle.tx_ring.specs.Slots.{IsSlot, IsSound, SlotState, empty_slot, put_slot};
ghost use Rattle.tx_ring.specs.Slots.{slot_at, slot_in, slot_text};
ghost use Rattle.tx_ring.specs.SlotsInside.{IsKept, slots_by};

use crate::slot_fields::{
    HEADER, LENGTH, NEXT_OFFSET, SNAPLEN, STATUS, write_data, write_header, write_u32,
};
use frame_view::Memory;
use std::alloc::Global;
use std::marker::Model;
use tp_layout::Shape;
use tp_layout::fields::u32_at;

/// The slots of a ring. Contracts see a list of slots, each by its size, its status and what it
/// asks for. A slot holds nothing else: after the bytes that were given there are zeros.
#[derive(Debug, Drop)]
pub(crate) struct Slots {
    /// The shape of the ring.
    shape: Shape,
    /// How many slots were written so far, from the first one on. The others are available, and
    /// have no bytes yet.
    written: usize,
    /// The bytes of those that were written, header and data. There is memory for those of the
    /// others.
    bytes: Vec<u8>,
}

impl Model for Slots {
    ghost use Rattle.std.specs.Prelude.{List};
    ghost use Rattle.tx_ring.specs.Slots.{SlotState};

    ghost Value = { List SlotState };

    ghost use Rattle.tx_ring.specs.SlotsInside.{AreKept, all_slots};

    ghost view = { all_slots };

    ghost invariant = { AreKept };
}

impl Slots {
    /// The slots of a ring of this shape, all of them available. Their bytes have memory, and cost
    /// nothing more until they are written.
    pub(crate) fn new(alloc: Global, shape: Shape) -> Result<Slots, Memory>
        ensures empty { IfOk result (λ slots.
            slots ≡ replicate shape.frame_nr (empty_slot shape.frame_size)) }
        ensures least { 68 ≤ shape.frame_size }
    {
        let room = shape.frame_nr() as usize * shape.frame_size() as usize;
        Ok(Slots {
            shape,
            written: 0,
            bytes: Vec::with_capacity(alloc, room)?,
        })
    }

    /// Writes what is asked for into a slot, and requests it. The slots before it that were never
    /// written become zeros.
    pub(crate) fn request(&mut self, at: usize, next_offset: u32, asked: u32, bytes: &[u8])
        requires within { at < length self.old }
        requires fits { 48 + length bytes.now ≤ (slot_at self.old at).size }
        ensures { self.new ≡ set self.old at (record {
          size = (slot_at self.old at).size;
          status = 1;
          request = record { next_offset = next_offset; length = asked; bytes = bytes.now };
        }) }
    {
        let size = self.shape.frame_size() as usize;
        self.written = write_zeros(&mut self.bytes, &self.shape, self.written, at);
        write_slot(
            self.bytes.as_mut_slice(),
            at * size,
            size,
            next_offset,
            asked,
            bytes,
        );
    }

    /// Sets the status of a slot. The slots before it that were never written become zeros.
    pub(crate) fn set_status(&mut self, at: usize, status: u32)
        requires { at < length self.old }
        ensures { self.new ≡ set self.old at (record (slot_at self.old at) { status = status }) }
    {
        let size = self.shape.frame_size() as usize;
        self.written = write_zeros(&mut self.bytes, &self.shape, self.written, at);
        write_status(self.bytes.as_mut_slice(), at * size, size, status);
    }

    /// The status of a slot.
    pub(crate) fn status(&self, at: usize) -> u32
        requires { at < length self.now }
        ensures { result ≡ (slot_at self.now at).status }
    {
        self.field(at, STATUS)
    }

    /// The offset to a next frame that a slot asks for.
    pub(crate) fn next_offset(&self, at: usize) -> u32
        requires { at < length self.now }
        ensures { result ≡ (slot_at self.now at).request.next_offset }
    {
        self.field(at, NEXT_OFFSET)
    }

    /// The length of the frame that a slot asks for.
    pub(crate) fn asked(&self, at: usize) -> u32
        requires { at < length self.now }
        ensures { result ≡ (slot_at self.now at).request.length }
    {
        self.field(at, LENGTH)
    }

    /// The frame that a slot asks for, which isn't empty and fits: the bytes that were given, and
    /// zeros after them.
    pub(crate) fn frame(&self, at: usize) -> &[u8]
        requires within { at < length self.now }
        requires some { 0 < (slot_at self.now at).request.length }
        requires fits { 48 + (slot_at self.now at).request.length ≤ (slot_at self.now at).size }
        ensures value { result.now ≡ frame_of (slot_at self.now at).request }
        ensures short { length result.now < 2 ^ 32 }
    {
        let count = self.asked(at) as usize;
        match self.slot(at) {
            Some(slot) => piece_of(slot, HEADER, count),
            None => &[],
        }
    }

    /// The number in a field of a slot's header, which is 0 in a slot that was never written.
    fn field(&self, at: usize, place: usize) -> u32
        requires within { at < length self.now }
        requires header { place + 4 ≤ 48 }
        ensures value { result ≡ number_at 4 place (slot_text (slot_at self.now at)) }
        ensures told { slot_in (slot_text (slot_at self.now at)) ≡ slot_at self.now at }
    {
        match self.slot(at) {
            Some(slot) => u32_at(slot, place),
            None => 0,
        }
    }

    /// The bytes of a slot, if it was written.
    fn slot(&self, at: usize) -> Option<&[u8]>
        requires { at < length self.now }
        ensures value { MatchOption result
            (slot_at self.now at ≡ empty_slot (slot_at self.now at).size)
            (λ slot. slot.now ≡ slot_text (slot_at self.now at)) }
        ensures sound { IsSound (slot_at self.now at) }
    {
        let size = self.shape.frame_size() as usize;
        if at < self.written {
            Some(piece_of(self.bytes.as_slice(), at * size, size))
        } else {
            None
        }
    }
}

/// Fills the slots up to a place with zeros, if fewer were written, and returns how many are
/// written then. There is memory for them.
fn write_zeros(bytes: &mut Vec<u8>, shape: &Shape, written: usize, at: usize) -> usize
    requires kept { IsKept shape.now.frame_size shape.now.frame_nr written
        (vec_capacity bytes.old) bytes.old.items }
    requires place { at < shape.now.frame_nr }
    ensures past { at < result }
    ensures kept { IsKept shape.now.frame_size shape.now.frame_nr result
        (vec_capacity bytes.new) bytes.new.items }
    ensures same { slots_by shape.now.frame_size shape.now.frame_nr result bytes.new.items
        ≡ slots_by shape.now.frame_size shape.now.frame_nr written bytes.old.items }
    ensures within { at * shape.now.frame_size + shape.now.frame_size ≤ length bytes.new.items }
{
    if at < written {
        return written;
    }
    let size = shape.frame_size() as usize;
    match bytes.resize((at + 1) * size, 0) {
        Ok(()) => at + 1,
        Err(_) => unreachable!(),
    }
}

/// `count` bytes from a place on.
fn piece_of(bytes: &[u8], from: usize, count: usize) -> &[u8]
    requires { from + count ≤ length bytes.now }
    ensures { result.now ≡ take count (drop from bytes.now) }
{
    let (_, rest) = bytes.split_at(from);
    let (piece, _) = rest.split_at(count);
    piece
}

/// Writes the slot of this size at a place, and requests it. After the bytes that were given
/// before, it has zeros.
fn write_slot(
    bytes: &mut [u8],
    from: usize,
    size: usize,
    next_offset: u32,
    asked: u32,
    given: &[u8],
)
    requires within { from + size ≤ length bytes.old }
    requires fits { 48 + length given.now ≤ size }
    requires small { size < 2 ^ 32 }
    requires slot { IsSlot (take size (drop from bytes.old)) }
    ensures { bytes.new ≡ put_slot from size bytes.old (slot_text (record {
      size = size;
      status = 1;
      request = record { next_offset = next_offset; length = asked; bytes = given.now };
    })) }
{
    let (_, rest) = bytes.split_at_mut(from);
    let (slot, _) = rest.split_at_mut(size);
    let earlier = u32_at(slot, SNAPLEN) as usize;
    let (header, data) = slot.split_at_mut(HEADER);
    write_header(header, next_offset, asked, given.len() as u32);
    write_data(data, given, earlier);
}

/// Writes the status of the slot of this size at a place.
fn write_status(bytes: &mut [u8], from: usize, size: usize, status: u32)
    requires within { from + size ≤ length bytes.old }
    requires slot { IsSlot (take size (drop from bytes.old)) }
    ensures { bytes.new ≡ put_slot from size bytes.old
        (slot_text (record (slot_in (take size (drop from bytes.old))) { status = status })) }
{
    let (_, rest) = bytes.split_at_mut(from);
    let (slot, _) = rest.split_at_mut(size);
    write_u32(slot, STATUS, status);
}
