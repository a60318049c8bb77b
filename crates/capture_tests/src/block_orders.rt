//! One packet in either byte order, whose frame is known, and what two sections of different byte
//! order give.
use crate::decoded_blocks::{bytes_of, decode, seen};
use crate::written_blocks::{push_enhanced, push_interface, push_section, push_simple};
use frame_view::{Frames, Memory};
use pcapng_blocks::{BlockError, Order};
use std::alloc::Global;
use std::process::Abort;
use std::test::Fail;

/// A section, an Ethernet interface and an ARP frame of 14 bytes at 1 second and 2 microseconds,
/// little-endian.
pub(crate) static LITTLE: [u8; 96] = [
    0x0a, 0x0d, 0x0d, 0x0a, 0x1c, 0, 0, 0, 0x4d, 0x3c, 0x2b, 0x1a, 1, 0, 0, 0, 0xff, 0xff, 0xff,
    0xff, 0xff, 0xff, 0xff, 0xff, 0x1c, 0, 0, 0, 1, 0, 0, 0, 0x14, 0, 0, 0, 1, 0, 0, 0, 0, 0, 4, 0,
    0x14, 0, 0, 0, 6, 0, 0, 0, 0x30, 0, 0, 0, 0, 0, 0, 0, 0, 0, 0, 0, 0x42, 0x42, 0x0f, 0, 14, 0,
    0, 0, 14, 0, 0, 0, 0xff, 0xff, 0xff, 0xff, 0xff, 0xff, 2, 0, 0, 0, 0, 1, 8, 6, 0, 0, 0x30, 0,
    0, 0,
];

/// The same, big-endian.
static BIG: [u8; 96] = [
    0x0a, 0x0d, 0x0d, 0x0a, 0, 0, 0, 0x1c, 0x1a, 0x2b, 0x3c, 0x4d, 0, 1, 0, 0, 0xff, 0xff, 0xff,
    0xff, 0xff, 0xff, 0xff, 0xff, 0, 0, 0, 0x1c, 0, 0, 0, 1, 0, 0, 0, 0x14, 0, 1, 0, 0, 0, 4, 0, 0,
    0, 0, 0, 0x14, 0, 0, 0, 6, 0, 0, 0, 0x30, 0, 0, 0, 0, 0, 0, 0, 0, 0, 0x0f, 0x42, 0x42, 0, 0, 0,
    14, 0, 0, 0, 14, 0xff, 0xff, 0xff, 0xff, 0xff, 0xff, 2, 0, 0, 0, 0, 1, 8, 6, 0, 0, 0, 0, 0,
    0x30,
];

/// The frame's bytes.
static FRAME: [u8; 14] = [0xff, 0xff, 0xff, 0xff, 0xff, 0xff, 2, 0, 0, 0, 0, 1, 8, 6];

/// A capture that is fed in pieces of this size gives only that frame.
fn check_order(rt: &impl Abort, alloc: Global, capture: &[u8], size: usize) {
    let mut frames = Frames::new(alloc);
    let answer = decode(alloc, capture, size, &mut frames);
    let frame = frames.get(0);
    assert_eq!(rt;
        (size, answer, frames.len(), seen(frame), bytes_of(frame)),
        (
            size,
            (None, (Ok(()), 0)),
            1,
            Some(((3, 0), (1, 2000), 14)),
            FRAME.as_slice()
        )
    );
}

#[test]
fn reads_little_endian(rt: HostRuntime) {
    for size in [1, 7, 96] {
        check_order(&rt, rt.alloc(), &LITTLE, size);
    }
}

#[test]
fn reads_big_endian(rt: HostRuntime) {
    for size in [1, 7, 96] {
        check_order(&rt, rt.alloc(), &BIG, size);
    }
}

#[test]
fn names_the_missing_interface(rt: HostRuntime) {
    let mut bytes = LITTLE;
    bytes[56] = 1;
    let mut frames = Frames::new(rt.alloc());
    let missing = BlockError::BadInterface(48);
    let answer = decode(rt.alloc(), &bytes, 96, &mut frames);
    assert_eq!(rt;
        (answer, frames.len()),
        ((Some(missing), (Err(missing), 0)), 0)
    );
}

/// A big-endian section with two interfaces, and a little-endian one with one.
fn two_sections(alloc: Global) -> Result<Vec<u8>, Memory> {
    let mut bytes = Vec::new(alloc);
    push_section(&mut bytes, Order::Big)?;
    push_interface(&mut bytes, Order::Big, 0)?;
    push_interface(&mut bytes, Order::Big, 0)?;
    push_enhanced(&mut bytes, Order::Big, 1, 0, 1_000_000, 60)?;
    push_section(&mut bytes, Order::Little)?;
    push_interface(&mut bytes, Order::Little, 6)?;
    push_simple(&mut bytes, Order::Little, 8)?;
    push_enhanced(&mut bytes, Order::Little, 1, 0, 0, 4)?;
    Ok(bytes)
}

#[test]
fn reads_two_sections(rt: HostRuntime) -> Result<(), Fail> {
    let bytes = two_sections(rt.alloc())?;
    let mut frames = Frames::new(rt.alloc());
    // The second section has one interface, so its second packet, at 104 + 28 + 20 + 24, names one
    // that doesn't exist.
    let missing = BlockError::BadInterface(176);
    let answer = decode(rt.alloc(), bytes.as_slice(), 50, &mut frames);
    assert_eq!(rt;
        (answer, frames.len()),
        ((Some(missing), (Err(missing), 0)), 2)
    );
    let (first, second) = (frames.get(0), frames.get(1));
    assert_eq!(rt;
        (seen(first), bytes_of(first)),
        (Some(((3, 0), (1, 0), 60)), b"\x01\x02\x03\x04".as_slice())
    );
    assert_eq!(rt;
        (seen(second), bytes_of(second)),
        (
            Some(((3, 1), (0, 0), 8)),
            b"\x01\x02\x03\x04\x05\x06".as_slice()
        )
    );
    Ok(())
}
