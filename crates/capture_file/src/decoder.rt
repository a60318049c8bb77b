//! A capture that comes in pieces.
//!
//! The first four bytes are collected: they say the format, whose decoder is fed them and
//! everything after them.
ghost use Rattle.std.specs.Prelude.{◌≡◌, ◌≢◌, ◌≤◌, [], length, take, None, Some, IfOk, OnErr};
ghost use Rattle.std.specs.Prelude.{IsErrOf, Err};
ghost use Rattle.capture_file.specs.Decoders.{IsBegun};

use crate::CaptureError;
use crate::format_decoder::FormatDecoder;
use crate::record_reader::top_up;
use frame_view::{Frames, Memory};
use std::alloc::Global;
use std::marker::Model;

/// The number of bytes that say the format.
const MAGIC_SIZE: usize = 4;

/// Reads a capture, pcap of version 2.4 or pcapng, that is fed piece by piece, however it is cut.
/// The limits are this project's own choice: the first 33,554,432 bytes count, and a packet may
/// have 262,144.
#[derive(Debug, Drop)]
pub struct Decoder {
    /// Allocates the frames.
    alloc: Global,
    /// The CPU number that its frames carry.
    cpu: u32,
    /// The first bytes, while there are fewer than four.
    start: Vec<u8>,
    /// The decoder of the format that the first four bytes said.
    format: Option<FormatDecoder>,
}

impl Model for Decoder {
    ghost use Rattle.capture_file.specs.Decoders.{DecoderValue, decoder_value, IsSound};

    ghost Value = { DecoderValue };

    ghost view = { decoder_value };

    ghost invariant = { IsSound };
}

impl Decoder {
    ghost use Rattle.capture_file.specs.Decoders.{Represents, RepresentsMore, AppendsNew, IsDamage};
    ghost use Rattle.capture_file.specs.Decoders.{AnswersDamage, AnswersEnd, CountsKept};
    ghost use Rattle.capture_file.specs.Decoders.{KeepsAfterStop, KeepsNoBody, KeepsNoDamage};
    ghost use Rattle.capture_file.specs.Decoders.{UnlessMemory};

    /// A decoder that nothing was fed to. It takes no memory.
    pub fn new(alloc: Global, cpu: u32) -> Decoder
        ensures { Represents cpu result [] }
    {
        Decoder {
            alloc,
            cpu,
            start: Vec::new(alloc),
            format: None,
        }
    }

    /// Takes the next bytes of the capture, and appends the frames that are whole now. The error is
    /// the capture's damage, with the frames before it in `into`; after it every call gives the
    /// same error and appends nothing. After `Memory` the decoder and `into` are as before the
    /// call.
    pub fn feed(&mut self, piece: &[u8], into: &mut Frames) -> Result<(), CaptureError>
        // The decoder represents all bytes that it was fed.
        ensures represents { UnlessMemory result (RepresentsMore self.old self.new piece.now) }

        // Exactly the new frames are appended.
        ensures frames { UnlessMemory result (AppendsNew self.old piece.now into.old into.new) }

        // The error is the damage of all bytes that were fed, and comes exactly where there is one.
        ensures damage { UnlessMemory result (AnswersDamage self.old piece.now result) }

        // After `Memory` all is as before.
        ensures decoder { IsErrOf result CaptureError.Memory → self.new ≡ self.old }
        ensures into { IsErrOf result CaptureError.Memory → into.new ≡ into.old }
    {
        match self.read_on(piece, into)? {
            None => Ok(()),
            Some(damage) => Err(damage),
        }
    }

    /// Takes the next bytes, and returns the damage, if there is any.
    fn read_on(&mut self, piece: &[u8], into: &mut Frames) -> Result<Option<CaptureError>, Memory>
        ensures represents { IfOk result (λ damage. RepresentsMore self.old self.new piece.now) }
        ensures frames { IfOk result (λ damage.
            AppendsNew self.old piece.now into.old into.new) }
        ensures damage { IfOk result (λ damage. IsDamage self.old piece.now damage) }
        ensures told { IfOk result (λ damage. damage ≢ Some CaptureError.Memory) }
        ensures decoder { OnErr result (self.new ≡ self.old) }
        ensures into { OnErr result (into.new ≡ into.old) }
    {
        match &mut self.format {
            Some(decoder) => decoder.feed(piece, into),
            None => self.begin(piece, into),
        }
    }

    /// Collects the first four bytes, and reads on in the format that they say.
    fn begin(&mut self, piece: &[u8], into: &mut Frames) -> Result<Option<CaptureError>, Memory>
        requires { self.old.format ≡ None }
        ensures represents { IfOk result (λ damage. RepresentsMore self.old self.new piece.now) }
        ensures frames { IfOk result (λ damage.
            AppendsNew self.old piece.now into.old into.new) }
        ensures damage { IfOk result (λ damage. IsDamage self.old piece.now damage) }
        ensures told { IfOk result (λ damage. damage ≢ Some CaptureError.Memory) }
        ensures decoder { OnErr result (self.new ≡ self.old) }
        ensures into { OnErr result (into.new ≡ into.old) }
    {
        let gathered = self.start.len();
        let after = top_up(&mut self.start, MAGIC_SIZE, piece)?;
        if self.start.len() < MAGIC_SIZE {
            return Ok(None);
        }
        let frames = into.len();
        let begun = read_first(self.alloc, self.cpu, self.start.as_slice(), after, into);
        let Ok((decoder, damage)) = begun else {
            self.start.truncate(gathered);
            into.truncate(frames);
            return Err(Memory);
        };
        self.start.clear();
        self.format = Some(decoder);
        Ok(damage)
    }

    /// How the capture ends if nothing more comes: its damage, or `Truncated` with the place of the
    /// header, record or block that isn't whole. It takes no memory and is never `Memory`.
    pub fn end(&self) -> Result<(), CaptureError>
        ensures end { AnswersEnd self.now result }
        ensures memory { result ≢ Err CaptureError.Memory }
    {
        match &self.format {
            Some(decoder) => decoder.end(),
            None => Err(CaptureError::Truncated(0)),
        }
    }

    /// The number of bytes that are kept: those after the last whole record or block, at most 3 of
    /// a block that is skipped, none after damage. It takes no memory.
    pub fn rest(&self) -> u32
        ensures kept { CountsKept self.now result }
        ensures few { result ≤ 524287 }
        ensures after { KeepsAfterStop self.now result }
        ensures skipped { KeepsNoBody self.now result }
        ensures damaged { KeepsNoDamage self.now result }
    {
        match &self.format {
            Some(decoder) => decoder.rest(),
            None => self.start.len() as u32,
        }
    }
}

/// Reads the first four bytes of a capture and those after them, in the format that they say.
fn read_first(
    alloc: Global,
    cpu: u32,
    first: &[u8],
    after: &[u8],
    into: &mut Frames,
) -> Result<(FormatDecoder, Option<CaptureError>), Memory>
    requires { length first.now ≡ 4 }
    ensures ok { IfOk result (λ begun.
        IsBegun cpu first.now after.now begun.0 begun.1 into.old into.new) }
    ensures told { IfOk result (λ begun. begun.1 ≢ Some CaptureError.Memory) }
    ensures front { take (length into.old) into.new ≡ into.old }
{
    let mut decoder = FormatDecoder::new(alloc, cpu, first);
    decoder.feed(first, into)?;
    let damage = decoder.feed(after, into)?;
    Ok((decoder, damage))
}
