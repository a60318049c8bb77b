//! A capture cut at every place: fed in two pieces, or ended there.
use crate::block_orders::LITTLE;
use crate::decoded_blocks::{Ended, decode};
use frame_view::{Frames, Memory};
use pcapng_blocks::{BlockDecoder, BlockError};
use std::alloc::Global;
use std::process::Abort;
use std::test::Fail;

/// What each of two feeds returns, what the end returns, and how many frames there are.
type Fed = (Option<BlockError>, Option<BlockError>, Ended, usize);

/// Feeds a capture in two pieces.
fn feed_two(alloc: Global, first: &[u8], second: &[u8]) -> Result<Fed, Memory> {
    let mut frames = Frames::new(alloc);
    let mut decoder = BlockDecoder::new(alloc, 3);
    let early = decoder.feed(first, &mut frames)?;
    let late = decoder.feed(second, &mut frames)?;
    Ok((early, late, (decoder.end(), decoder.rest()), frames.len()))
}

#[test]
fn a_cut_between_pieces_changes_nothing(rt: HostRuntime) -> Result<(), Fail> {
    for cut in 0..97 {
        let (first, second) = LITTLE.as_slice().split_at(cut);
        let fed = feed_two(rt.alloc(), first, second)?;
        assert_eq!(rt; (cut, fed), (cut, (None, None, (Ok(()), 0), 1)));
    }
    Ok(())
}

/// What the end of the capture returns if it is cut to a length: its blocks begin at 0, 28 and 48,
/// and end at 96. The part of the block that is cut is kept.
fn end_at(length: u32) -> Ended {
    let place: u32 = match length {
        0..28 => 0,
        28..48 => 28,
        _ => 48,
    };
    match length {
        28 | 48 | 96 => (Ok(()), 0),
        _ => (
            Err(BlockError::Truncated(u64::from(place))),
            length.saturating_sub(place),
        ),
    }
}

/// The capture that is cut to a length ends there, with its frame if that is whole.
fn check_cut(rt: &impl Abort, alloc: Global, start: &[u8], length: u32) {
    let mut frames = Frames::new(alloc);
    let answer = decode(alloc, start, 5, &mut frames);
    let count = (length == 96) as usize;
    assert_eq!(rt;
        (length, answer, frames.len()),
        (length, (None, end_at(length)), count)
    );
}

#[test]
fn names_the_block_that_is_cut(rt: HostRuntime) {
    for length in 4..97 {
        let (start, _) = LITTLE.as_slice().split_at(length as usize);
        check_cut(&rt, rt.alloc(), start, length);
    }
}
