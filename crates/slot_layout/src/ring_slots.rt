//! The slots of a ring.
ghost use Rattle.std.specs.Prelude.{◌≡◌, ◌+◌, ◌≤◌, IfOk, length, replicate};
ghost use Rattle.std.specs.Arc.{arc_value};
ghost use Rattle.std.specs.Vec.{vec_capacity};
ghost use Rattle.slot_layout.specs.SlotDump.{slot_packet_of};
ghost use Rattle.slot_layout.specs.SlotShapes.{IsSlotShape, zero_slot};
ghost use Rattle.slot_layout.specs.SlotTexts.{slot_text};
ghost use Rattle.tp_layout.specs.Packets.{IsTyped};
ghost use Rattle.tp_layout.specs.BlockWrites.{IsWritable, put};

use crate::packet_fields::put_packet;
use frame_view::Memory;
use ring_model::Offer;
use std::alloc::Global;
use std::marker::Model;
use std::sync::Arc;
use tp_layout::{LazyBytes, Shape, zeros};

/// One slot of a ring. Contracts see it as its shape and its bytes.
#[derive(Debug, Drop)]
pub struct Slot {
    /// The shape of the ring's slots.
    shape: Shape,
    /// Its bytes, as many as a frame of the shape has. Until the first write it has no memory for
    /// them.
    bytes: LazyBytes,
}

impl Model for Slot {
    ghost use Rattle.tp_layout.specs.BlockWrites.{ShapedBytes};

    ghost Value = { ShapedBytes };

    ghost use Rattle.slot_layout.specs.SlotsInside.{IsSlot, shaped_bytes};

    ghost view = { shaped_bytes };

    ghost invariant = { IsSlot };
}

impl Slot {
    /// Its bytes, as many as a frame of its shape has.
    pub fn bytes(&self) -> &[u8]
        ensures value { result.now ≡ self.now.bytes }
        ensures size { length result.now ≡ self.now.shape.frame_size }
    {
        self.bytes.as_slice()
    }

    /// Writes the text of a packet with this status over the first bytes. The first write takes the
    /// memory.
    pub(crate) fn put_packet(&mut self, room: &mut Vec<u8>, status: u32, offer: &Offer)
        requires room { self.old.shape.frame_size ≤ vec_capacity room.old }
        requires fits { 66 + offer.now.snap ≤ self.old.shape.frame_size }
        requires sound { IsWritable offer.now }
        ensures written { self.new ≡ record self.old {
          bytes = put 0 (slot_text status (slot_packet_of offer.now)) self.old.bytes;
        } }
        ensures size { length self.old.bytes ≡ self.old.shape.frame_size }
        ensures typed { IsTyped (slot_packet_of offer.now) }
    {
        self.bytes.begin_in(room, self.shape.frame_size());
        put_packet(self.bytes.written.as_mut_slice(), status, offer);
    }
}

/// The slots of a ring of this shape, which came from `check_v2`: one of zeros for each of its
/// frames, 2 to 65,536 in all. Their bytes cost nothing until they are written, and have no memory:
/// the first write is given it.
pub fn slots(alloc: Global, shape: &Shape) -> Result<Vec<Slot>, Memory>
    requires { IsSlotShape shape.now }
    ensures { IfOk result (λ slots.
        slots.items ≡ replicate shape.now.frame_nr (zero_slot shape.now)) }
{
    let zeros = zeros(alloc, shape.frame_size())?;
    let mut slots = Vec::new(alloc);
    for _ in 0..shape.frame_nr() {
        slots.push(unwritten_slot(alloc, shape, &zeros)?)?;
    }
    Ok(slots)
}

/// A slot of zeros that was never written.
fn unwritten_slot(
    alloc: Global,
    shape: &Shape,
    zeros: &Arc<Vec<u8>, Global>,
) -> Result<Slot, Memory>
    requires { (arc_value zeros.now).items ≡ replicate shape.now.frame_size 0 }
    ensures { IfOk result (λ slot. slot ≡ zero_slot shape.now) }
{
    Ok(Slot {
        shape: *shape,
        bytes: LazyBytes::new(alloc, zeros)?,
    })
}
