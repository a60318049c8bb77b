//! The calls of a ring with both its ends, each with what the next one needs.
ghost use Rattle.std.specs.Prelude.{◌≡◌, ◌+◌, ◌-◌, ◌<◌, ◌≤◌, false, IfOk, [], length};
ghost use Rattle.ring_words.specs.PlainRings.{has_block};
ghost use Rattle.tp_layout.specs.Requests.{room_of};
ghost use Rattle.tp_layout.specs.BlockWrites.{IsWritable};

use crate::seen_blocks::{Seen, read};
use block_ring::Producer;
use frame_view::{ByteList, Frame, Memory};
use ring_model::Offer;
use ring_words::PlainRing;
use std::alloc::Global;
use tp_layout::{Block, Shape, a_shape_is_sound, blocks};

pub(crate) type Ring = Producer<PlainRing<Block>>;

/// The offer of a whole frame of zeros.
pub(crate) fn offer(alloc: Global, index: u32, length: u32) -> Result<Offer, Memory>
    requires { 14 ≤ length }
    ensures { IfOk result (λ offer. IsWritable offer × (offer.snap ≡ length)) }
{
    let bytes = vec![in alloc; 0; length as usize]?;
    Ok(Offer {
        frame: Frame {
            cpu: 0,
            index,
            sec: index,
            nsec: 0,
            wire: length,
            bytes: ByteList::from_vec(bytes),
            tag: None,
        },
        snap: length,
        hash: 0,
        pkttype: 0,
    })
}

/// A length of a frame that fits into a block.
pub(crate) fn fitting(shape: &Shape, length: u32) -> u32
    ensures least { 14 ≤ result }
    ensures room { 82 + result ≤ room_of shape.now }
{
    a_shape_is_sound(shape);
    length.min(shape.room() - 82).max(14)
}

/// Puts a frame.
pub(crate) fn put(ring: &mut Ring, offer: Offer) -> Result<(), Memory>
    requires room { 82 + offer.snap ≤ room_of ring.old.shape }
    requires sound { IsWritable offer }
    requires few { length ring.old.notes < 1000 }
    ensures shape { ring.new.shape ≡ ring.old.shape }
    ensures hand { has_block ring.new.end ≡ has_block ring.old.end }
    ensures few { length ring.new.notes ≤ length ring.old.notes + 1 }
{
    match ring.put(offer) {
        Ok(_) => Ok(()),
        Err(_) => Err(Memory),
    }
}

/// Tries a frame.
pub(crate) fn try_put(ring: &mut Ring, offer: Offer) -> Result<(), Memory>
    requires room { 82 + offer.snap ≤ room_of ring.old.shape }
    requires sound { IsWritable offer }
    requires few { length ring.old.notes < 1000 }
    ensures shape { ring.new.shape ≡ ring.old.shape }
    ensures hand { has_block ring.new.end ≡ has_block ring.old.end }
    ensures few { length ring.new.notes ≤ length ring.old.notes + 1 }
{
    match ring.try_put(offer) {
        Ok(_) => Ok(()),
        Err(_) => Err(Memory),
    }
}

/// Ticks.
pub(crate) fn tick(ring: &mut Ring, ms: u64) -> Result<(), Memory>
    requires few { length ring.old.notes < 1000 }
    ensures shape { ring.new.shape ≡ ring.old.shape }
    ensures hand { has_block ring.new.end ≡ has_block ring.old.end }
    ensures few { length ring.new.notes ≤ length ring.old.notes + 1 }
{
    match ring.tick(ms.min(1000)) {
        Ok(()) => Ok(()),
        Err(_) => Err(Memory),
    }
}

/// Takes the statistics.
pub(crate) fn take_stats(ring: &mut Ring) -> Result<(u64, u64, u64), Memory>
    ensures shape { ring.new.shape ≡ ring.old.shape }
    ensures hand { has_block ring.new.end ≡ has_block ring.old.end }
    ensures few { length ring.new.notes ≤ length ring.old.notes + 1 }
{
    let stats = ring.take_stats()?;
    Ok((stats.packets, stats.drops, stats.freezes))
}

/// Takes a block of the ring, if one waits, and releases it.
pub(crate) fn read_ring(ring: &mut Ring, seen: &mut Vec<Seen>) -> Result<(), Memory>
    requires { has_block ring.old.end ≡ false }
    ensures shape { ring.new.shape ≡ ring.old.shape }
    ensures hand { has_block ring.new.end ≡ false }
    ensures few { ring.new.notes ≡ ring.old.notes }
{
    read(ring, seen)
}

/// A ring with both its ends.
pub(crate) fn new_ring(alloc: Global, shape: &Shape) -> Result<Ring, Memory>
    ensures shape { IfOk result (λ ring. ring.shape ≡ shape.now) }
    ensures hand { IfOk result (λ ring. has_block ring.end ≡ false) }
    ensures notes { IfOk result (λ ring. ring.notes ≡ []) }
{
    a_shape_is_sound(shape);
    let end = PlainRing::new(alloc, blocks(alloc, shape)?)?;
    Producer::new(alloc, *shape, end)
}
