//! Frames, and their slots, byte for byte by the fields of `struct tpacket2_hdr` and `struct
//! sockaddr_ll`.
ghost use Rattle.std.specs.Prelude.{◌≡◌, ◌≤◌, IfOk, IfSome};
ghost use Rattle.slot_layout.specs.SlotShapes.{IsSlotShape};
ghost use Rattle.tp_layout.specs.BlockWrites.{IsWritable};

use frame_view::{ByteList, Frame, Memory, Tag};
use ring_model::Offer;
use std::alloc::Global;
use std::test::Fail;
use tp_layout::{RingRequest, Shape};

/// Four slots of 2,048 bytes.
pub(crate) const SLOTS: RingRequest = RingRequest {
    block_size: 4096,
    block_nr: 2,
    frame_size: 2048,
    frame_nr: 4,
    tov: 0,
    sizeof_priv: 0,
    features: 0,
};

/// Their shape.
fn slot_shape() -> Option<Shape>
    ensures { IfSome result IsSlotShape }
{
    match SLOTS.check_v2() {
        Ok(shape) => Some(shape),
        Err(_) => None,
    }
}

/// The same. A slot has room for a frame of 60 bytes.
pub(crate) fn sample_shape() -> Result<Shape, Fail>
    ensures checked { IfOk result IsSlotShape }
    ensures room { IfOk result (λ shape. 126 ≤ shape.frame_size) }
{
    let shape = slot_shape().ok_or("a shape")?;
    if shape.frame_size() < 126 {
        return Err("a slot has room for a frame".into());
    }
    Ok(shape)
}

/// A broadcast frame of 14 bytes.
pub(crate) static FRAME: [u8; 14] = [0xff, 0xff, 0xff, 0xff, 0xff, 0xff, 2, 0, 0, 0, 0, 1, 8, 6];

/// The tag of a frame: VLAN 100.
pub(crate) const TAG: Tag = Tag {
    tpid: 0x8100,
    tci: 100,
};

/// The bytes of its slot before the data: status 1, lengths 14 and 14, places 66 and 80, 1 second
/// and 2,000 nanoseconds, no tag; AF_PACKET, 0x0806, interface 1, ARPHRD_ETHER, broadcast, the
/// sender's address.
pub(crate) static HEADER: [u8; 66] = [
    1, 0, 0, 0, 14, 0, 0, 0, 14, 0, 0, 0, 66, 0, 80, 0, 1, 0, 0, 0, 0xd0, 7, 0, 0, 0, 0, 0, 0, 0,
    0, 0, 0, 17, 0, 8, 6, 1, 0, 0, 0, 1, 0, 1, 6, 2, 0, 0, 0, 0, 1, 0, 0, 0, 0, 0, 0, 0, 0, 0, 0,
    0, 0, 0, 0, 0, 0,
];

/// The offer of that frame with that tag or without, at 1 second and 2,000 nanoseconds.
pub(crate) fn frame_offered(alloc: Global, tagged: bool) -> Result<Offer, Memory>
    ensures sound { IfOk result IsWritable }
    ensures snap { IfOk result (λ offer. offer.snap ≡ 14) }
{
    let tag = if tagged { Some(TAG) } else { None };
    Ok(Offer {
        frame: Frame {
            cpu: 0,
            index: 0,
            sec: 1,
            nsec: 2_000,
            wire: 14,
            bytes: ByteList::from_vec(FRAME.to_vec(alloc)?),
            tag,
        },
        snap: 14,
        hash: 7,
        pkttype: 1,
    })
}
