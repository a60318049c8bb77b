//! What was read of a capture so far.
ghost use Rattle.std.specs.Prelude.{◌≡◌, ◌<◌, ◌≤◌, ℕ, None, OnErr, OnOk};
ghost use Rattle.tap_outside.specs.Seen.{SourceSeen};
ghost use Rattle.capture_reading.specs.Wholes.{IsSoFar, unread};

use crate::buffer::Buffer;
use crate::pieces::{end_at, ended_by, feed};
use capture_file::{CpuEnd, Decoder, an_empty_capture_has_no_frames, damage_is_the_end};
use frame_view::{Frames, Memory};
use std::alloc::Global;
use tap_outside::Source;

/// A capture that is being read.
#[derive(Drop)]
pub(crate) struct PartialCapture {
    /// Decodes what the source gives.
    decoder: Decoder,
    /// The frames that are whole so far, in order.
    pub(crate) frames: Frames,
    /// The number of bytes that the source gave.
    pub(crate) given: u64,
    /// How the source ended, once it did.
    pub(crate) ended: Option<CpuEnd>,
}

impl PartialCapture {
    /// A capture of which nothing was read.
    pub(crate) fn new(alloc: Global, cpu: u32) -> PartialCapture
        ensures none { (source : SourceSeen) → IsSoFar cpu source source result }
        ensures unended { result.ended ≡ None }
    {
        an_empty_capture_has_no_frames();
        PartialCapture {
            decoder: Decoder::new(alloc, cpu),
            frames: Frames::new(alloc),
            given: 0,
            ended: None,
        }
    }

    /// Reads the next piece of the source, which ends if it gives no byte or fails, or the bytes
    /// show damage.
    pub(crate) fn read_piece<S: Source>(
        &mut self,
        source: &mut S,
        buffer: &mut Buffer,
    ) -> Result<(), Memory>
        requires unended { self.old.ended ≡ None }
        requires few { self.old.given ≤ 33554432 }
        ensures read { OnOk result ((cpu : ℕ) (first : SourceSeen)
            → IsSoFar cpu first (S.seen source.old) self.old
            → IsSoFar cpu first (S.seen source.new) self.new) }
        ensures less { OnOk result (unread self.new < unread self.old) }
        ensures kept { OnErr result ((S.seen source.new).faults ≡ (S.seen source.old).faults) }
    {
        damage_is_the_end();
        let Ok(()) = buffer.read(source) else {
            self.ended = Some(CpuEnd::Fault);
            return Ok(());
        };
        let piece = buffer.piece();
        if piece.is_empty() {
            self.ended = Some(end_at(&self.decoder));
            return Ok(());
        }
        let damage = feed(&mut self.decoder, piece, &mut self.frames)?;
        self.given += piece.len() as u64;
        self.ended = ended_by(damage);
        Ok(())
    }
}
