//! A decoder that is fed a capture in pieces.
use frame_view::{Frame, Frames};
use pcapng_blocks::{BlockDecoder, BlockError};
use std::alloc::Global;

/// What the end returns, and the number of bytes that are kept there.
pub(crate) type Ended = (Result<(), BlockError>, u32);

/// Feeds a capture in pieces of a size. It returns the damage that the last feed reported, and what
/// the end returns.
pub(crate) fn decode(
    alloc: Global,
    bytes: &[u8],
    size: usize,
    into: &mut Frames,
) -> (Option<BlockError>, Ended) {
    let mut decoder = BlockDecoder::new(alloc, 3);
    let mut damage = None;
    for piece in bytes.chunks(size.max(1)) {
        if let Ok(named) = decoder.feed(piece, into) {
            damage = named;
        }
    }
    (damage, (decoder.end(), decoder.rest()))
}

/// What is read of a frame besides its bytes: its CPU and index, its time in seconds and
/// nanoseconds, and how many bytes it had on the wire.
pub(crate) type Seen = ((u32, u32), (u32, u32), u32);

/// What is read of a frame, if there is one.
pub(crate) fn seen(frame: Option<&Frame>) -> Option<Seen> {
    match frame {
        Some(frame) => Some((
            (frame.cpu, frame.index),
            (frame.sec, frame.nsec),
            frame.wire,
        )),
        None => None,
    }
}

/// The bytes of a frame; none if there is no frame.
pub(crate) fn bytes_of(frame: Option<&Frame>) -> &[u8] {
    match frame {
        Some(frame) => frame.bytes.as_slice(),
        None => &[],
    }
}
