//! Tags of IEEE 802.1Q and 802.1ad, taken out and put back.
ghost use Rattle.std.specs.Prelude.{◌≡◌, ◌≤◌, length, IfOk, None};

use frame_view::{ByteList, Frame, Memory, Packet, Tag, retag, untag};
use std::alloc::Global;
use std::process::Abort;
use std::test::Fail;

/// A frame with a tag of 802.1ad, an inner tag of 802.1Q, and the type of IPv4.
const DOUBLE: [u8; 22] = [
    1, 2, 3, 4, 5, 6, 7, 8, 9, 10, 11, 12, 0x88, 0xa8, 0x20, 0x05, 0x81, 0x00, 0x00, 0x07, 0x08,
    0x00,
];

/// The same without the first tag.
const SINGLE: [u8; 18] = [
    1, 2, 3, 4, 5, 6, 7, 8, 9, 10, 11, 12, 0x81, 0x00, 0x00, 0x07, 0x08, 0x00,
];

const SERVICE: Option<Tag> = Some(Tag {
    tpid: 0x88a8,
    tci: 0x2005,
});

fn frame(alloc: Global) -> Result<Frame, Memory>
    ensures bare { IfOk result (λ frame. frame.tag ≡ None) }
    ensures whole { IfOk result (λ frame. length frame.bytes ≤ frame.wire) }
{
    Ok(Frame {
        cpu: 1,
        index: 2,
        sec: 3,
        nsec: 4,
        wire: 100,
        bytes: ByteList::from_vec(DOUBLE.to_vec(alloc)?),
        tag: None,
    })
}

/// A packet with the first tag, and its bytes.
fn packet(alloc: Global, bytes: &[u8]) -> Result<Packet, Memory> {
    Ok(Packet {
        sec: 0,
        nsec: 0,
        wire: 0,
        rxhash: 0,
        protocol: 0,
        pkttype: 0,
        addr: [0; 6],
        bytes: ByteList::from_vec(bytes.to_vec(alloc)?),
        tag: SERVICE,
    })
}

#[test]
fn takes_the_first_tag_out(rt: HostRuntime) -> Result<(), Fail> {
    let mut frame = frame(rt.alloc())?;
    untag(&mut frame);
    assert_eq!(rt; (frame.wire, frame.tag), (96, SERVICE));
    assert_eq!(rt; frame.bytes.as_slice(), SINGLE.as_slice());
    Ok(())
}

/// The frame of a packet of these bytes with its tag put back.
fn check_retag(rt: &impl Abort, alloc: Global, bytes: &[u8], want: &[u8]) -> Result<(), Fail> {
    let tagged = retag(alloc, &packet(alloc, bytes)?)?;
    assert_eq!(rt; tagged.as_slice(), want);
    Ok(())
}

#[test]
fn puts_a_tag_back_after_whole_addresses(rt: HostRuntime) -> Result<(), Fail> {
    check_retag(&rt, rt.alloc(), &SINGLE, &DOUBLE)?;
    check_retag(&rt, rt.alloc(), &SINGLE[..11], &SINGLE[..11])
}
