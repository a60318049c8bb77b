//! A pcapng capture that is fed in pieces.
use crate::decoded_blocks::{bytes_of, seen};
use crate::decoded_captures::{Answer, decode};
use capture_file::{CaptureError, Decoder};
use frame_view::Frames;
use std::alloc::Global;
use std::process::Abort;
use std::test::Fail;

/// A section, an Ethernet interface and a frame of 14 bytes at 1 second and 2 microseconds,
/// little-endian.
const CAPTURE: &[u8] = b"\x0a\x0d\x0d\x0a\x1c\x00\x00\x00\x4d\x3c\x2b\x1a\x01\x00\x00\x00\
    \xff\xff\xff\xff\xff\xff\xff\xff\x1c\x00\x00\x00\
    \x01\x00\x00\x00\x14\x00\x00\x00\x01\x00\x00\x00\x00\x00\x04\x00\x14\x00\x00\x00\
    \x06\x00\x00\x00\x30\x00\x00\x00\x00\x00\x00\x00\x00\x00\x00\x00\
    \x42\x42\x0f\x00\x0e\x00\x00\x00\x0e\x00\x00\x00\xff\xff\xff\xff\
    \xff\xff\x02\x00\x00\x00\x00\x01\x08\x06\x00\x00\x30\x00\x00\x00";

/// The capture that is fed in pieces of this size gives its frame.
fn check_pieces(rt: &impl Abort, alloc: Global, size: usize) {
    let frame = CAPTURE.get(76..90).unwrap_or(&[]);
    let mut frames = Frames::new(alloc);
    let answer = decode(alloc, CAPTURE, size, &mut frames);
    let found = frames.get(0);
    assert_eq!(rt;
        (size, answer, frames.len(), seen(found), bytes_of(found)),
        (
            size,
            (Ok(()), Ok(()), 0),
            1,
            Some(((3, 0), (1, 2_000), 14)),
            frame
        )
    );
}

#[test]
fn reads_pcapng_in_pieces(rt: HostRuntime) {
    for size in [1, 3, 4, 5, 96] {
        check_pieces(&rt, rt.alloc(), size);
    }
}

#[test]
fn names_where_pcapng_is_cut(rt: HostRuntime) {
    for (length, place) in [(1, 0), (3, 0), (4, 0), (27, 0), (29, 28), (95, 48)] {
        let (start, _) = CAPTURE.split_at(length);
        let mut frames = Frames::new(rt.alloc());
        let (fed, end, rest) = decode(rt.alloc(), start, 7, &mut frames);
        let kept = u64::from(rest);
        let wanted = length as u64 - place;
        assert_eq!(rt;
            (length, fed, end, kept),
            (length, Ok(()), Err(CaptureError::Truncated(place)), wanted)
        );
    }
}

/// Feeds a block of 999,912 bytes, which are 8, 100 times the 9,999 of its body, and 4 of its tail.
/// At most 16 of its bytes are kept.
fn feed_skipped(
    rt: &impl Abort,
    decoder: &mut Decoder,
    body: &[u8],
    frames: &mut Frames,
) -> Answer {
    decoder.feed(b"\x00\x0b\x00\x00\xe8\x41\x0f\x00", frames)?;
    for fed in 0..100 {
        decoder.feed(body, frames)?;
        assert!(rt; decoder.rest() <= 16, "{fed}");
    }
    decoder.feed(b"\xe8\x41\x0f\x00", frames)
}

#[test]
fn keeps_little_of_a_block_that_is_skipped(rt: HostRuntime) -> Result<(), Fail> {
    let (start, packet) = CAPTURE.split_at(48);
    let body = vec![in rt.alloc(); 0; 9_999]?;
    let mut frames = Frames::new(rt.alloc());
    let mut decoder = Decoder::new(rt.alloc(), 3);
    let before = decoder.feed(start, &mut frames);
    let skipped = feed_skipped(&rt, &mut decoder, body.as_slice(), &mut frames);
    let after = decoder.feed(packet, &mut frames);
    assert_eq!(rt; (before, skipped, after), (Ok(()), Ok(()), Ok(())));
    assert_eq!(rt;
        (decoder.end(), decoder.rest(), frames.len()),
        (Ok(()), 0, 1)
    );
    Ok(())
}
