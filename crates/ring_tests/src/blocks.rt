//! Puts into a ring of blocks that need no memory after room was reserved.
ghost use Rattle.std.specs.Prelude.{◌≡◌, ◌+◌, ◌<◌, ◌≤◌, IfOk, [], length};
ghost use Rattle.tp_layout.specs.Requests.{room_of};
ghost use Rattle.tp_layout.specs.BlockWrites.{IsWritable};

use crate::producer_calls::{Ring, new_ring, offer};
use frame_view::Memory;
use ring_model::{Offer, Put};
use std::alloc::Global;
use std::test::Fail;
use tp_layout::{RingRequest, Shape};

/// Two blocks of a page.
pub(crate) const PAGES: RingRequest = RingRequest {
    block_size: 4096,
    block_nr: 2,
    frame_size: 2048,
    frame_nr: 4,
    tov: 0,
    sizeof_priv: 0,
    features: 0,
};

/// Their shape. A block has room for a frame of 60 bytes.
pub(crate) fn page_shape() -> Result<Shape, Fail>
    ensures { IfOk result (λ shape. 144 ≤ room_of shape) }
{
    let shape = PAGES.check()?;
    if shape.room() < 144 {
        return Err("a block has room for a frame".into());
    }
    Ok(shape)
}

/// Puts a frame into a ring that has reserved room for a note: it allocates nothing.
fn put_reserved(ring: &mut Ring, offer: Offer) -> Put
    requires room { 82 + offer.snap ≤ room_of ring.old.shape }
    requires sound { IsWritable offer }
    requires few { length ring.old.notes < 1000 }
    requires reserved { 0 < ring.old.spare }
    ensures shape { ring.new.shape ≡ ring.old.shape }
    ensures few { length ring.new.notes ≤ length ring.old.notes + 1 }
    ensures spare { ring.old.spare ≤ ring.new.spare + 1 }
{
    match ring.put(offer) {
        Ok(put) => put,
        Err(_) => unreachable!(),
    }
}

/// What a ring that reserves room for three notes answers to three frames.
fn put_three(alloc: Global, ring: &mut Ring) -> Result<[Put; 3], Memory>
    requires room { 142 ≤ room_of ring.old.shape }
    requires notes { ring.old.notes ≡ [] }
{
    ring.reserve(3)?;
    Ok([
        put_reserved(ring, offer(alloc, 0, 60)?),
        put_reserved(ring, offer(alloc, 1, 60)?),
        put_reserved(ring, offer(alloc, 2, 60)?),
    ])
}

/// The same for a new ring.
fn three_puts(alloc: Global) -> Result<[Put; 3], Fail> {
    let shape = page_shape()?;
    let mut ring = new_ring(alloc, &shape)?;
    Ok(put_three(alloc, &mut ring)?)
}

#[test]
fn reserved_room_is_there(rt: HostRuntime) -> Result<(), Fail> {
    let puts = three_puts(rt.alloc())?;
    assert_eq!(rt; puts, [Put::Kept, Put::Kept, Put::Kept]);
    Ok(())
}
