//! A pcap capture that comes in pieces.
//!
//! The header is collected first. Then each piece completes the record of which bytes are kept, its
//! other whole records are read in place, and what is after them is kept for the next piece. After
//! damage nothing more is read.
ghost use Rattle.std.specs.Prelude.{◌≡◌, ◌≢◌, ◌≤◌, [], IfOk, OnErr, Err, Some};

use crate::CaptureError;
use crate::record_reader::{Place, cut_front, read_on};
use crate::stage::Stage;
use frame_view::{Frames, Memory};
use pcapng_blocks::LARGEST_CAPTURE;
use std::alloc::Global;
use std::marker::Model;

/// Reads a pcap capture of version 2.4 that is fed piece by piece, however it is cut. The limits
/// are this project's own choice: the first 33,554,432 bytes count, and a record may have 262,144.
#[derive(Debug, Drop)]
pub(crate) struct PcapDecoder {
    /// Allocates the frames.
    alloc: Global,
    /// The CPU number that its frames carry.
    cpu: u32,
    /// What comes next.
    stage: Stage,
    /// Where the kept bytes begin, and the number of the next frame.
    next: Place,
    /// The bytes after the last whole record; none after damage.
    kept: Vec<u8>,
}

impl Model for PcapDecoder {
    ghost use Rattle.capture_file.specs.PcapDecoders.{PcapValue, pcap_value, IsSound};

    ghost Value = { PcapValue };

    ghost view = { pcap_value };

    ghost invariant = { IsSound };
}

impl PcapDecoder {
    ghost use Rattle.capture_file.specs.PcapDecoders.{Represents, RepresentsMore, AppendsNew};
    ghost use Rattle.capture_file.specs.PcapDecoders.{IsDamage};
    ghost use Rattle.capture_file.specs.PcapDecoders.{AnswersEnd, CountsKept};

    /// A decoder that nothing was fed to. It takes no memory.
    pub fn new(alloc: Global, cpu: u32) -> PcapDecoder
        ensures { Represents cpu result [] }
    {
        PcapDecoder {
            alloc,
            cpu,
            stage: Stage::Header,
            next: Place { stop: 0, index: 0 },
            kept: Vec::new(alloc),
        }
    }

    /// Takes the next bytes of the capture, appends the frames that are whole now, and returns the
    /// capture's damage, if there is any. After damage every call returns the same and appends
    /// nothing. After `Memory` the decoder and `into` are as before the call.
    pub fn feed(&mut self, piece: &[u8], into: &mut Frames) -> Result<Option<CaptureError>, Memory>
        // The decoder represents all bytes that it was fed.
        ensures represents { IfOk result (λ damage. RepresentsMore self.old self.new piece.now) }

        // Exactly the new frames are appended.
        ensures frames { IfOk result (λ damage.
            AppendsNew self.old piece.now into.old into.new) }

        // The answer is the damage of all bytes that were fed; it is never `Memory`.
        ensures damage { IfOk result (λ damage. IsDamage self.old piece.now damage) }
        ensures told { IfOk result (λ damage. damage ≢ Some CaptureError.Memory) }

        // After `Memory` all is as before.
        ensures decoder { OnErr result (self.new ≡ self.old) }
        ensures into { OnErr result (into.new ≡ into.old) }
    {
        let frames = into.len();
        let kept = self.kept.len();
        let room = LARGEST_CAPTURE - (self.next.stop + kept);
        let (counted, _) = piece.split_at(room.min(piece.len()));
        let progress = read_on(
            self.alloc,
            self.cpu,
            self.stage,
            self.next,
            &mut self.kept,
            counted,
            into,
        );
        let Ok(progress) = progress else {
            self.kept.truncate(kept);
            into.truncate(frames);
            return Err(Memory);
        };
        self.next = progress.next;
        self.stage = progress.stage.with(piece.len() > room);
        if let Stage::Damaged(damage) = self.stage {
            self.kept.clear();
            return Ok(Some(damage));
        }
        cut_front(&mut self.kept, progress.cut);
        Ok(None)
    }

    /// How the capture ends if nothing more comes: its damage, or `Truncated` with the place of the
    /// header or record that isn't whole. It takes no memory and is never `Memory`.
    pub fn end(&self) -> Result<(), CaptureError>
        ensures end { AnswersEnd self.now result }
        ensures memory { result ≢ Err CaptureError.Memory }
    {
        self.stage.end(self.next.stop, self.kept.is_empty())
    }

    /// The number of bytes that are kept: those after the last whole record, none after damage. It
    /// takes no memory.
    pub fn rest(&self) -> u32
        ensures kept { CountsKept self.now result }
        ensures few { result ≤ 262159 }
    {
        self.kept.len() as u32
    }
}
