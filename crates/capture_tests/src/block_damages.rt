//! A capture with one field overwritten: the damage, its place, and the frames before it.
use crate::block_orders::LITTLE;
use crate::decoded_blocks::{Ended, decode};
use frame_view::{Frames, Memory};
use pcapng_blocks::BlockError;
use std::alloc::Global;
use std::process::Abort;
use std::test::Fail;

/// A name, a place, the bytes there, and the damage.
type Row = (&'static str, usize, [u8; 4], Option<BlockError>);

static ROWS: [Row; 18] = [
    (
        "another byte-order magic",
        8,
        [0x4d, 0x3c, 0x2b, 0x1b],
        Some(BlockError::BadMagic),
    ),
    (
        "a section of version 2",
        12,
        [2, 0, 0, 0],
        Some(BlockError::BadVersion),
    ),
    ("a section of version 1.7", 12, [1, 0, 7, 0], None),
    (
        "a section of 24 bytes",
        4,
        [24, 0, 0, 0],
        Some(BlockError::BadLength(0)),
    ),
    (
        "a section of 30 bytes",
        4,
        [30, 0, 0, 0],
        Some(BlockError::BadLength(0)),
    ),
    (
        "a section of 524,292 bytes",
        4,
        [4, 0, 8, 0],
        Some(BlockError::BadLength(0)),
    ),
    (
        "another tail of the section",
        24,
        [0x20, 0, 0, 0],
        Some(BlockError::BadLength(0)),
    ),
    (
        "link type 101",
        36,
        [101, 0, 0, 0],
        Some(BlockError::BadLink(101)),
    ),
    ("reserved bytes of the interface", 38, [1, 1, 0, 0], None),
    (
        "an interface of 16 bytes",
        32,
        [16, 0, 0, 0],
        Some(BlockError::BadLength(28)),
    ),
    (
        "another tail of the interface",
        44,
        [0x18, 0, 0, 0],
        Some(BlockError::BadLength(28)),
    ),
    (
        "an interface that is skipped",
        28,
        [4, 0, 0, 0],
        Some(BlockError::BadInterface(48)),
    ),
    (
        "a packet of 28 bytes",
        52,
        [28, 0, 0, 0],
        Some(BlockError::BadLength(48)),
    ),
    (
        "another tail of the packet",
        92,
        [0x34, 0, 0, 0],
        Some(BlockError::BadLength(48)),
    ),
    (
        "interface 1",
        56,
        [1, 0, 0, 0],
        Some(BlockError::BadInterface(48)),
    ),
    (
        "17 captured bytes",
        68,
        [17, 0, 0, 0],
        Some(BlockError::BadLength(48)),
    ),
    ("an obsolete packet block", 48, [2, 0, 0, 0], None),
    ("a custom block", 48, [0xad, 0x0b, 0, 0], None),
];

/// The capture with a field overwritten.
fn overwritten(alloc: Global, place: usize, field: [u8; 4]) -> Result<Vec<u8>, Memory> {
    let mut bytes = LITTLE.to_vec(alloc)?;
    for (at, byte) in field.iter().enumerate() {
        if let Some(to) = bytes.get_mut(place.saturating_add(at)) {
            *to = *byte;
        }
    }
    Ok(bytes)
}

/// What feeding the capture with a field overwritten, in pieces of a size, returns.
fn answer_of(
    alloc: Global,
    place: usize,
    field: [u8; 4],
    size: usize,
) -> Result<(Option<BlockError>, Ended), Memory> {
    let bytes = overwritten(alloc, place, field)?;
    let mut frames = Frames::new(alloc);
    Ok(decode(alloc, &bytes, size, &mut frames))
}

/// Compares the damage of each row, fed in pieces of a size, with the row.
fn check_damage(rt: &impl Abort, alloc: Global, rows: &[Row], size: usize) -> Result<(), Memory> {
    for (name, place, field, damage) in rows {
        let answer = answer_of(alloc, *place, *field, size)?;
        let end = damage.map_or(Ok(()), Err);
        assert_eq!(rt; (*name, answer), (*name, (*damage, (end, 0))));
    }
    Ok(())
}

#[test]
fn names_damage(rt: HostRuntime) -> Result<(), Fail> {
    let rows = ROWS.as_slice();
    check_damage(&rt, rt.alloc(), rows, 1)?;
    check_damage(&rt, rt.alloc(), rows, 96)?;
    Ok(())
}
