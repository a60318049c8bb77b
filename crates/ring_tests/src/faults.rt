//! The text of a block with one byte changed, and texts that end at another place.
ghost use Rattle.std.specs.Prelude.{◌≡◌, length};

use crate::sample_blocks::{PAGES, TEXT, fault, part};
use frame_view::Memory;
use std::alloc::Global;
use std::process::Abort;
use std::test::Fail;
use tp_layout::{LayoutKind, Shape, walk, walk_text};

/// The place of a byte that is changed by xor with 1, and the fault with its place.
type Change = (usize, Option<(LayoutKind, u32)>);

static CHANGES: [Change; 12] = [
    (0, Some((LayoutKind::Version, 0))),
    (8, Some((LayoutKind::Field, 8))),
    (12, Some((LayoutKind::Count, 12))),
    (20, Some((LayoutKind::Length, 20))),
    (32, Some((LayoutKind::Field, 32))),
    (48, Some((LayoutKind::Offset, 48))),
    (52, Some((LayoutKind::Field, 32))),
    (60, Some((LayoutKind::Snap, 60))),
    (64, None),
    (68, Some((LayoutKind::Field, 68))),
    (116, Some((LayoutKind::Field, 116))),
    (130, None),
];

/// A block of a page that begins with the text, with one byte changed.
fn changed(alloc: Global, place: usize) -> Result<Vec<u8>, Memory> {
    let mut bytes = TEXT.to_vec(alloc)?;
    bytes.resize(4096, 0)?;
    if let Some(byte) = bytes.get_mut(place) {
        *byte ^= 1;
    }
    Ok(bytes)
}

/// The fault of a block with one byte changed.
fn changed_fault(
    alloc: Global,
    shape: &Shape,
    place: usize,
) -> Result<Option<(LayoutKind, u32)>, Fail> {
    let bytes = changed(alloc, place)?;
    if bytes.len() != shape.block_size() as usize {
        return Err("a page".into());
    }
    Ok(fault(bytes.as_slice(), shape))
}

/// Compares the fault of each change with its row.
fn check_changes(
    rt: &impl Abort,
    alloc: Global,
    shape: &Shape,
    rows: &[Change],
) -> Result<(), Fail> {
    for (place, told) in rows {
        let found = changed_fault(alloc, shape, *place)?;
        assert_eq!(rt; (*place, found), (*place, *told));
    }
    Ok(())
}

#[test]
fn one_byte_changed(rt: HostRuntime) -> Result<(), Fail> {
    let shape = PAGES.check().ok().ok_or("a valid request")?;
    check_changes(&rt, rt.alloc(), &shape, &CHANGES)
}

/// A place that is changed, and what is then read from the packet: its length on the wire, and the
/// first byte of its data.
type Read = (usize, u32, u8);

static READS: [Read; 2] = [(64, 15, 0xff), (130, 14, 0xfe)];

/// What is read from the first packet of a block.
fn first_packet(bytes: &[u8], shape: &Shape) -> Option<(u32, u8)>
    requires { length bytes.now ≡ shape.now.block_size }
{
    let mut packets = walk(bytes, shape).ok()?;
    let packet = packets.next()?;
    Some((packet.wire, *packet.bytes.first()?))
}

/// What is read from a block's packet with one byte changed.
fn changed_packet(alloc: Global, shape: &Shape, place: usize) -> Result<Option<(u32, u8)>, Fail> {
    let bytes = changed(alloc, place)?;
    if bytes.len() != shape.block_size() as usize {
        return Err("a page".into());
    }
    Ok(first_packet(bytes.as_slice(), shape))
}

#[test]
fn one_byte_changed_that_is_read(rt: HostRuntime) -> Result<(), Fail> {
    let shape = PAGES.check().ok().ok_or("a valid request")?;
    for (place, wire, first) in &READS {
        let found = changed_packet(rt.alloc(), &shape, *place)?;
        assert_eq!(rt; (*place, found), (*place, Some((*wire, *first))));
    }
    Ok(())
}

/// The fault of the text's first bytes, which are at least a descriptor and at most a block.
fn cut_fault(shape: &Shape, size: usize) -> Result<Option<(LayoutKind, u32)>, Fail> {
    let text = part(TEXT, 0, size);
    if text.len() < 48 || text.len() > shape.block_size() as usize {
        return Err("a descriptor at least and a block at most".into());
    }
    match walk_text(text, shape) {
        Ok(_) => Ok(None),
        Err(fault) => Ok(Some((fault.kind, fault.at))),
    }
}

#[test]
fn a_text_that_ends_elsewhere(rt: HostRuntime) -> Result<(), Fail> {
    let shape = PAGES.check().ok().ok_or("a valid request")?;
    for size in [48, 136, 143] {
        let found = cut_fault(&shape, size)?;
        let want = Some((LayoutKind::Length, 20));
        assert_eq!(rt; (size, found), (size, want));
    }
    Ok(())
}
