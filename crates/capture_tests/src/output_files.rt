//! One capture in four encodings, and one frame, with the output file that another program writes
//! for them.
use crate::decoded_captures::{decode, text_of};
use crate::spellings::{BIG_MICRO, BIG_NANO, LITTLE_MICRO, LITTLE_NANO, ONE_FRAME, THREE_FRAMES};
use frame_view::Frames;
use std::alloc::Global;
use std::process::Abort;
use std::test::Fail;

/// The sizes of pieces in which captures are fed.
static SIZES: [usize; 3] = [1, 7, 65_536];

/// A capture that is fed in pieces of this size gives the three frames.
fn check_spelling(
    rt: &impl Abort,
    alloc: Global,
    name: &str,
    bytes: &[u8],
    size: usize,
) -> Result<(), Fail> {
    let mut frames = Frames::new(alloc);
    let answers = decode(alloc, bytes, size, &mut frames);
    assert_eq!(rt; (name, answers), (name, (Ok(()), Ok(()), 0)));
    let text = text_of(alloc, &frames)?;
    assert_eq!(rt; text.as_slice(), THREE_FRAMES.as_slice(), "{name}");
    Ok(())
}

/// The same for pieces of each size.
fn check_sizes(rt: &impl Abort, alloc: Global, name: &str, bytes: &[u8]) -> Result<(), Fail> {
    for size in &SIZES {
        check_spelling(rt, alloc, name, bytes, *size)?;
    }
    Ok(())
}

#[test]
fn reads_one_capture_in_four_spellings(rt: HostRuntime) -> Result<(), Fail> {
    check_sizes(&rt, rt.alloc(), "little, microseconds", &LITTLE_MICRO)?;
    check_sizes(&rt, rt.alloc(), "big, microseconds", &BIG_MICRO)?;
    check_sizes(&rt, rt.alloc(), "little, nanoseconds", &LITTLE_NANO)?;
    check_sizes(&rt, rt.alloc(), "big, nanoseconds", &BIG_NANO)
}

#[test]
fn counts_frames_of_a_cpu(rt: HostRuntime) {
    let mut frames = Frames::new(rt.alloc());
    let _answers = decode(rt.alloc(), &LITTLE_NANO, 50, &mut frames);
    let last = frames
        .get(2)
        .map(|frame| (frame.cpu, frame.index, frame.tag));
    assert_eq!(rt; last, Some((3, 2, None)));
}

#[test]
fn writes_one_frame_as_it_was_read(rt: HostRuntime) -> Result<(), Fail> {
    let mut frames = Frames::new(rt.alloc());
    let answers = decode(rt.alloc(), &ONE_FRAME, 5, &mut frames);
    let text = text_of(rt.alloc(), &frames)?;
    assert_eq!(rt;
        (answers, text.as_slice()),
        ((Ok(()), Ok(()), 0), ONE_FRAME.as_slice())
    );
    Ok(())
}

#[test]
fn writes_a_header_where_there_is_no_packet(rt: HostRuntime) -> Result<(), Fail> {
    let text = text_of(rt.alloc(), &Frames::new(rt.alloc()))?;
    assert_eq!(rt; text.as_slice(), &ONE_FRAME[..24]);
    Ok(())
}
