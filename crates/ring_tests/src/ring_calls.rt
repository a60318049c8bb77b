//! The calls of a ring with both its ends, each with what the next one needs.
ghost use Rattle.std.specs.Prelude.{◌≡◌, ◌+◌, ◌<◌, ◌≤◌, false, IfOk, [], length};
ghost use Rattle.ring_words.specs.PlainRings.{has_block};
ghost use Rattle.slot_layout.specs.SlotShapes.{IsSlotShape};
ghost use Rattle.tp_layout.specs.Requests.{numbers_of};
ghost use Rattle.tp_layout.specs.BlockWrites.{IsWritable};

use frame_view::{ByteList, Frame, Memory};
use ring_model::{Offer, Put, Tried};
use ring_words::PlainRing;
use std::alloc::Global;
use tp_layout::Shape;
use v2_ring::{Slot, SlotProducer, slots};

pub(crate) type Ring = SlotProducer<PlainRing<Slot>>;

/// A ring with both its ends.
pub(crate) fn new_ring(alloc: Global, shape: &Shape) -> Result<Ring, Memory>
    requires { IsSlotShape shape.now }
    ensures shape { IfOk result (λ ring. ring.shape ≡ shape.now) }
    ensures kind { IfOk result (λ ring. ring.end.kind ≡ numbers_of shape.now) }
    ensures hand { IfOk result (λ ring. has_block ring.end ≡ false) }
    ensures notes { IfOk result (λ ring. ring.notes ≡ []) }
{
    let end = PlainRing::new(alloc, slots(alloc, shape)?)?;
    SlotProducer::new(alloc, *shape, end)
}

/// The offer of a frame of 60 zeros.
pub(crate) fn offer(alloc: Global, index: u32) -> Result<Offer, Memory>
    ensures { IfOk result (λ offer. IsWritable offer × (offer.snap ≡ 60)) }
{
    let bytes = vec![in alloc; 0; 60]?;
    Ok(Offer {
        frame: Frame {
            cpu: 0,
            index,
            sec: index,
            nsec: 0,
            wire: 60,
            bytes: ByteList::from_vec(bytes),
            tag: None,
        },
        snap: 60,
        hash: 0,
        pkttype: 0,
    })
}

/// Puts a frame of 60 bytes.
pub(crate) fn put(alloc: Global, ring: &mut Ring, index: u32) -> Result<Put, Memory>
    requires fits { 126 ≤ ring.old.shape.frame_size }
    requires few { length ring.old.notes < 1000 }
    ensures shape { ring.new.shape ≡ ring.old.shape }
    ensures kind { ring.new.end.kind ≡ ring.old.end.kind }
    ensures hand { has_block ring.new.end ≡ has_block ring.old.end }
    ensures few { length ring.new.notes ≤ length ring.old.notes + 1 }
{
    match ring.put(offer(alloc, index)?) {
        Ok(put) => Ok(put),
        Err(_) => Err(Memory),
    }
}

/// Tries a frame of 60 bytes, and reports whether it was kept.
pub(crate) fn try_put(alloc: Global, ring: &mut Ring, index: u32) -> Result<bool, Memory>
    requires fits { 126 ≤ ring.old.shape.frame_size }
    requires few { length ring.old.notes < 1000 }
    ensures shape { ring.new.shape ≡ ring.old.shape }
    ensures kind { ring.new.end.kind ≡ ring.old.end.kind }
    ensures hand { has_block ring.new.end ≡ has_block ring.old.end }
    ensures few { length ring.new.notes ≤ length ring.old.notes + 1 }
{
    match ring.try_put(offer(alloc, index)?) {
        Ok(Tried::Kept) => Ok(true),
        Ok(Tried::Refused(_)) => Ok(false),
        Err(_) => Err(Memory),
    }
}
