//! A piece of a capture, decoded.
ghost use Rattle.std.specs.Prelude.{◌≡◌, ℕ, List, IfOk, OnErr};
ghost use Rattle.capture_file.specs.Capture.{end_of};
ghost use Rattle.capture_file.specs.Decoders.{Represents};
ghost use Rattle.capture_reading.specs.Pieces.{Appends, Decodes, ended_by, is_want};
ghost use Rattle.capture_reading.specs.Sources.{end_by};

use capture_file::{CaptureError, CpuEnd, Decoder};
use frame_view::{Frames, Memory};
use std::alloc::{AllocError, Global};

/// What is decoded from a piece.
#[derive(Debug, Drop)]
pub struct Decoded {
    /// The frames that are whole now and weren't before, in order.
    pub frames: Frames,
    /// The damage that the capture shows by now; it is never `Memory`.
    pub damage: Option<CaptureError>,
}

/// How the source of a capture with this damage ended: not yet, if there is none.
pub fn ended_by(damage: Option<CaptureError>) -> Option<CpuEnd>
    ensures { result ≡ ended_by damage }
{
    match damage {
        Some(damage) => Some(CpuEnd::Damaged(damage)),
        None => None,
    }
}

/// Feeds a piece to a decoder, appends the frames that are whole now, and returns the damage that
/// the capture shows by now. The error is out of memory: the decoder and the frames are then as
/// before.
pub(crate) fn feed(
    decoder: &mut Decoder,
    piece: &[u8],
    into: &mut Frames,
) -> Result<Option<CaptureError>, Memory>
    ensures appends { IfOk result (λ damage. (cpu : ℕ) (fed : List ℕ)
        → Represents cpu decoder.old fed
        → Appends cpu fed piece.now decoder.new into.old into.new damage) }
    ensures decoder { OnErr result (decoder.new ≡ decoder.old) }
    ensures into { OnErr result (into.new ≡ into.old) }
{
    match decoder.feed(piece, into) {
        Ok(()) => Ok(None),
        Err(error) => {
            if is_want(&error) {
                return Err(Memory);
            }
            Ok(Some(error))
        }
    }
}

/// Feeds a piece to a decoder: the frames that are whole now, and the damage that the capture shows
/// by now. The list of frames takes the memory of one that isn't wanted any more. The error is out
/// of memory: the decoder is then as before, so the piece may be fed again.
pub fn decode(
    alloc: Global,
    room: Frames,
    decoder: &mut Decoder,
    piece: &[u8],
) -> Result<Decoded, Memory>
    ensures decodes { IfOk result (λ decoded. (cpu : ℕ) (fed : List ℕ)
        → Represents cpu decoder.old fed
        → Decodes cpu fed piece.now decoder.new decoded.frames decoded.damage) }
    ensures same { OnErr result (decoder.new ≡ decoder.old) }
{
    grow_heap(alloc, piece.len());
    let mut room = room.into_vec();
    room.clear();
    let mut frames = Frames::from_vec(room);
    let damage = feed(decoder, piece, &mut frames)?;
    Ok(Decoded { frames, damage })
}

/// Asks for this many bytes and gives them back at once. The heap of a thread grows by what is asked
/// for, each time by a call of the system that all threads wait for; so it grows by what the frames
/// of a piece take, and not by a page for every few of them.
fn grow_heap(alloc: Global, bytes: usize) {
    let room: Result<Vec<u8>, AllocError> = Vec::with_capacity(alloc, bytes);
    drop(room);
}

/// Whether an answer says nothing about the capture.
fn is_want(error: &CaptureError) -> bool
    ensures { result ≡ is_want error.now }
{
    matches!(error, CaptureError::Memory)
}

/// How a capture whose source was read to its end ends: whole or damaged (a cut is damage). It
/// takes no memory.
pub fn end_at(decoder: &Decoder) -> CpuEnd
    ensures { (cpu : ℕ) (fed : List ℕ)
        → Represents cpu decoder.now fed → result ≡ end_by (end_of fed) }
{
    match decoder.end() {
        Ok(()) => CpuEnd::Whole,
        Err(damage) => CpuEnd::Damaged(damage),
    }
}
