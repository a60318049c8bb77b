//! Captures with one field overwritten or cut: the damage, its place, and the frames before it.
use crate::decoded_captures::{Answer, decode};
use crate::spellings::LITTLE_NANO;
use capture_file::CaptureError;
use frame_view::{Frames, Memory};
use std::alloc::Global;
use std::process::Abort;
use std::test::Fail;

/// A name, a place, the bytes there, the number of frames, and the answer.
type Row = (&'static str, usize, [u8; 4], usize, Answer);

static ROWS: [Row; 11] = [
    (
        "another magic",
        0,
        [0x4d, 0x3c, 0xb2, 0xa0],
        0,
        Err(CaptureError::BadMagic),
    ),
    (
        "pcapng",
        0,
        [0x0a, 0x0d, 0x0d, 0x0a],
        0,
        Err(CaptureError::BadMagic),
    ),
    (
        "version 2.3",
        4,
        [2, 0, 3, 0],
        0,
        Err(CaptureError::BadVersion),
    ),
    (
        "version in the other order",
        4,
        [0, 2, 0, 4],
        0,
        Err(CaptureError::BadVersion),
    ),
    (
        "link type 101",
        20,
        [0x65, 0, 1, 0],
        0,
        Err(CaptureError::BadLink(0x0001_0065)),
    ),
    (
        "a first record of 262,145 bytes",
        32,
        [1, 0, 4, 0],
        0,
        Err(CaptureError::BadLength(24)),
    ),
    (
        "a second record too long",
        62,
        [0xff; 4],
        1,
        Err(CaptureError::BadLength(54)),
    ),
    (
        "a third record too long",
        81,
        [0xff; 4],
        2,
        Err(CaptureError::BadLength(73)),
    ),
    ("a time zone", 8, [1, 2, 3, 4], 3, Ok(())),
    ("a snap length", 16, [1, 0, 0, 0], 3, Ok(())),
    ("flags in the link field", 20, [1, 0, 0, 0xf0], 3, Ok(())),
];

/// The capture with a field overwritten.
fn overwritten(alloc: Global, place: usize, field: [u8; 4]) -> Result<Vec<u8>, Memory> {
    let mut bytes = LITTLE_NANO.to_vec(alloc)?;
    for (at, byte) in field.iter().enumerate() {
        if let Some(to) = bytes.get_mut(place.saturating_add(at)) {
            *to = *byte;
        }
    }
    Ok(bytes)
}

/// What the capture with a field overwritten returns, and how many frames it gives.
fn read_of(
    alloc: Global,
    place: usize,
    field: [u8; 4],
) -> Result<((Answer, Answer, u32), usize), Memory> {
    let bytes = overwritten(alloc, place, field)?;
    let mut frames = Frames::new(alloc);
    let answers = decode(alloc, &bytes, 7, &mut frames);
    Ok((answers, frames.len()))
}

/// Compares the answers and the frames of each row with the row.
fn check_damage(rt: &impl Abort, alloc: Global, rows: &[Row]) -> Result<(), Memory> {
    for (name, place, field, count, answer) in rows {
        let read = read_of(alloc, *place, *field)?;
        let wanted = ((*answer, *answer, 0), *count);
        assert_eq!(rt; (*name, read), (*name, wanted));
    }
    Ok(())
}

#[test]
fn names_damage(rt: HostRuntime) -> Result<(), Fail> {
    check_damage(&rt, rt.alloc(), &ROWS)?;
    Ok(())
}

/// A length, the end, and the bytes that are kept.
type Cut = (usize, Answer, u32);

static CUTS: [Cut; 6] = [
    (0, Err(CaptureError::Truncated(0)), 0),
    (23, Err(CaptureError::Truncated(0)), 23),
    (24, Ok(()), 0),
    (53, Err(CaptureError::Truncated(24)), 29),
    (54, Ok(()), 0),
    (104, Err(CaptureError::Truncated(73)), 31),
];

/// Compares the end of the capture at each cut with its row.
fn check_cuts(rt: &impl Abort, alloc: Global, capture: &[u8], rows: &[Cut]) {
    for (length, end, rest) in rows {
        let mut frames = Frames::new(alloc);
        let cut = capture.get(..*length).unwrap_or(&[]);
        let answers = decode(alloc, cut, 65_536, &mut frames);
        assert_eq!(rt; (*length, answers), (*length, (Ok(()), *end, *rest)));
    }
}

#[test]
fn names_a_cut(rt: HostRuntime) {
    check_cuts(&rt, rt.alloc(), &LITTLE_NANO, &CUTS);
}
