//! Blocks of other types, however long they are.
use crate::decoded_blocks::decode;
use crate::written_blocks::{push_enhanced, push_interface, push_section, push_u32};
use frame_view::{Frames, Memory};
use pcapng_blocks::{BlockDecoder, BlockError, Order};
use std::alloc::Global;
use std::process::Abort;
use std::test::Fail;

/// A section with an interface, a block of type 5 of 1,000,000 bytes whose tail says `tail`, and a
/// packet.
fn long_capture(alloc: Global, tail: u32) -> Result<Vec<u8>, Memory> {
    let mut bytes = Vec::new(alloc);
    push_section(&mut bytes, Order::Little)?;
    push_interface(&mut bytes, Order::Little, 0)?;
    push_u32(&mut bytes, Order::Little, 5)?;
    push_u32(&mut bytes, Order::Little, 1_000_000)?;
    for _ in 0..249_997 {
        bytes.extend_from_slice(&[6, 0, 0, 0])?;
    }
    push_u32(&mut bytes, Order::Little, tail)?;
    push_enhanced(&mut bytes, Order::Little, 0, 0, 0, 4)?;
    Ok(bytes)
}

/// Feeds a capture in pieces of 999 bytes, none of which may find damage. While the long block is
/// fed, at most three bytes are kept.
fn feed_long(
    rt: &impl Abort,
    decoder: &mut BlockDecoder,
    bytes: &[u8],
    frames: &mut Frames,
) -> Result<(), Memory> {
    let mut fed = 0usize;
    for piece in bytes.chunks(999) {
        assert_eq!(rt; decoder.feed(piece, frames)?, None);
        fed = fed.saturating_add(piece.len());
        let is_long = fed >= 56 && fed < 1_000_048;
        assert!(rt; !is_long || decoder.rest() <= 3, "{fed}");
    }
    Ok(())
}

#[test]
fn a_long_block_is_not_kept(rt: HostRuntime) -> Result<(), Fail> {
    let bytes = long_capture(rt.alloc(), 1_000_000)?;
    let mut frames = Frames::new(rt.alloc());
    let mut decoder = BlockDecoder::new(rt.alloc(), 0);
    feed_long(&rt, &mut decoder, bytes.as_slice(), &mut frames)?;
    assert_eq!(rt;
        (decoder.end(), decoder.rest(), frames.len()),
        (Ok(()), 0, 1)
    );
    Ok(())
}

#[test]
fn the_tail_of_a_long_block_is_compared(rt: HostRuntime) -> Result<(), Fail> {
    let bytes = long_capture(rt.alloc(), 1_000_004)?;
    let mut frames = Frames::new(rt.alloc());
    let wrong = BlockError::BadLength(48);
    let answer = decode(rt.alloc(), bytes.as_slice(), 65_536, &mut frames);
    assert_eq!(rt; (answer, frames.len()), ((Some(wrong), (Err(wrong), 0)), 0));
    Ok(())
}

#[test]
fn nothing_of_a_long_block_is_kept(rt: HostRuntime) -> Result<(), Fail> {
    let bytes = long_capture(rt.alloc(), 1_000_000)?;
    // bytes that were fed, and bytes that are kept: the block's tail is at 1,000,044
    for (fed, kept) in [
        (56, 0),
        (500_000, 0),
        (1_000_044, 0),
        (1_000_045, 1),
        (1_000_047, 3),
        (1_000_048, 0),
    ] {
        let start = bytes.as_slice().get(..fed).unwrap_or(&[]);
        let mut frames = Frames::new(rt.alloc());
        let (damage, (_, rest)) = decode(rt.alloc(), start, 4096, &mut frames);
        assert_eq!(rt; (fed, damage, rest), (fed, None, kept));
    }
    Ok(())
}
