//! A file of a CPU, read to its end a piece at a time.
ghost use Rattle.std.specs.Prelude.{◌≡◌, ◌<◌, ◌≤◌, None, Some, option_map, IfOk, OnErr, OnOk};
ghost use Rattle.capture_reading.specs.Wholes.{IsStillThere};
ghost use Rattle.fanout_group.specs.declared.judgements.ArrivalRules.{ArrivalRules};
ghost use Rattle.frame_deals.specs.Dealings.{Dealing, IsRoom};
ghost use Rattle.frame_deals.specs.FileReadings.{HasReadFile, IsDecoding, IsFileSoFar, unread};
ghost use Rattle.tap_outside.specs.Seen.{SourceSeen};

use crate::CpuDeal;
use capture_file::{
    CpuEnd, Decoder, an_empty_capture_has_no_frames, damage_is_the_end, frames_are_captured,
    frames_are_few, frames_are_numbered, too_many_bytes_are_damage,
};
use capture_reading::{Buffer, decode, end_at, ended_by};
use fanout_group::ArrivalRules;
use frame_view::{Frames, Memory};
use std::alloc::Global;
use tap_outside::Source;

/// What was read of a file.
#[derive(Debug, Drop)]
pub struct FileReading {
    /// The number of its frames.
    pub frames: u32,
    /// With how many of them a frame arrived.
    pub arrivals: u32,
    /// The number of bytes that its source gave.
    pub given: u64,
    /// How it ended: whole, damaged, or by a read that failed.
    pub end: CpuEnd,
}

/// A file that is being read.
#[derive(Drop)]
pub(crate) struct FileSoFar {
    /// Decodes what its source gives.
    decoder: Decoder,
    /// The number of its frames so far.
    pub(crate) frames: u32,
    /// The number of bytes that its source gave.
    pub(crate) given: u64,
    /// How it ended, once it did.
    pub(crate) ended: Option<CpuEnd>,
}

impl CpuDeal {
    /// Reads a file of the CPU to its end, a piece of at most 65,536 bytes at a time: until its
    /// source ends or fails, or the bytes show damage, as more than 33,554,432 bytes do. Each frame
    /// is taken after those of the files before, and only its time and its mark are kept. Nothing
    /// is read after damage. Without a source, such as when a file can't be opened, nothing is read
    /// and the end is a fault.
    ///
    /// The only error is that an allocation fails, or that the CPU has 4,294,967,295 frames already
    /// and gets another one. Then the CPU has to be dropped, but a source that was handed in is
    /// still there, and no read of it failed.
    pub fn read_file<S: Source>(
        &mut self,
        alloc: Global,
        buffer: &mut Buffer,
        rules: &ArrivalRules,
        source: &mut Option<S>,
    ) -> Result<FileReading, Memory>
        requires room { IsRoom rules.now.room }
        ensures read { IfOk result (HasReadFile rules.now
            (option_map S.seen source.old) (option_map S.seen source.new) self.old self.new) }
        ensures kept { OnErr result
            (IsStillThere (option_map S.seen source.old) (option_map S.seen source.new)) }
    {
        an_empty_capture_has_no_frames();
        let Some(source) = source else {
            return Ok(FileReading {
                frames: 0,
                arrivals: 0,
                given: 0,
                end: CpuEnd::Fault,
            });
        };
        self.read_source(alloc, buffer, rules, source)
    }

    /// Reads a file of the CPU from a source that was handed in.
    fn read_source<S: Source>(
        &mut self,
        alloc: Global,
        buffer: &mut Buffer,
        rules: &ArrivalRules,
        source: &mut S,
    ) -> Result<FileReading, Memory>
        requires room { IsRoom rules.now.room }
        ensures read { IfOk result (HasReadFile rules.now
            (Some (S.seen source.old)) (Some (S.seen source.new)) self.old self.new) }
        ensures kept { OnErr result ((S.seen source.new).faults ≡ (S.seen source.old).faults) }
    {
        too_many_bytes_are_damage();
        let before = self.arrivals();
        let mut so_far = FileSoFar::new(alloc, self.number());
        'reading: while so_far.ended.is_none() {
            so_far.read_piece(alloc, buffer, rules, source, self)?;
        }
        let Some(end) = so_far.ended else {
            unreachable!();
        };
        Ok(FileReading {
            frames: so_far.frames,
            arrivals: self.arrivals() - before,
            given: so_far.given,
            end,
        })
    }
}

impl FileSoFar {
    /// A file of which nothing was read.
    fn new(alloc: Global, cpu: u32) -> FileSoFar
        ensures none { (rules : ArrivalRules) (source : SourceSeen) (deal : Dealing)
            → deal.cpu ≡ cpu → IsFileSoFar rules source source deal deal result }
        ensures unended { result.ended ≡ None }
    {
        an_empty_capture_has_no_frames();
        FileSoFar {
            decoder: Decoder::new(alloc, cpu),
            frames: 0,
            given: 0,
            ended: None,
        }
    }

    /// Reads the next piece of the source, which ends if it gives no byte or fails, or the bytes
    /// show damage, and has the CPU take the frames that are whole now.
    fn read_piece<S: Source>(
        &mut self,
        alloc: Global,
        buffer: &mut Buffer,
        rules: &ArrivalRules,
        source: &mut S,
        deal: &mut CpuDeal,
    ) -> Result<(), Memory>
        requires room { IsRoom rules.now.room }
        requires unended { self.old.ended ≡ None }
        requires few { self.old.given ≤ 33554432 }
        requires known { IsDecoding deal.old.cpu self.old }
        ensures read { OnOk result ((first : SourceSeen) (start : Dealing)
            → IsFileSoFar rules.now first (S.seen source.old) start deal.old self.old
            → IsFileSoFar rules.now first (S.seen source.new) start deal.new self.new) }
        ensures less { OnOk result (unread self.new < unread self.old) }
        ensures kept { OnErr result ((S.seen source.new).faults ≡ (S.seen source.old).faults) }
    {
        damage_is_the_end();
        frames_are_few();
        frames_are_numbered();
        frames_are_captured();
        let Ok(()) = buffer.read(source) else {
            self.ended = Some(CpuEnd::Fault);
            return Ok(());
        };
        let piece = buffer.piece();
        if piece.is_empty() {
            self.ended = Some(end_at(&self.decoder));
            return Ok(());
        }
        let decoded = decode(alloc, Frames::new(alloc), &mut self.decoder, piece)?;
        self.given += piece.len() as u64;
        self.ended = ended_by(decoded.damage);
        self.frames += decoded.frames.len() as u32;
        deal.take_all(alloc, rules, decoded.frames)
    }
}
