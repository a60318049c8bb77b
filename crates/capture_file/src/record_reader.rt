//! Records read from bytes, in one pass: each whole record's data is copied once, that of a large
//! one into its frame, that of small ones that follow one another into a piece that their frames
//! share, without their headers.
ghost use Rattle.std.specs.Prelude.{◌≡◌, ◌+◌, ◌*◌, ◌-◌, ◌≤◌, ◌<◌, ◌⊎◌, [], ◌++◌, false, true};
ghost use Rattle.std.specs.Prelude.{length, take, drop, IfOk, OnOk, OnErr, IfSome, MatchOption};
ghost use Rattle.capture_file.specs.Pcap.{begins_whole, begins_oversized, record_size};
ghost use Rattle.capture_file.specs.Pcap.{frame_of_record};
ghost use Rattle.capture_file.specs.Feeds.{BeginsWith, place_behind, read_from, IsPart};
ghost use Rattle.capture_file.specs.Feeds.{Completes, IsRead, Comes, Begins, Feeds, IsSoundAt};
ghost use Rattle.capture_file.specs.Feeds.{kept_at};
ghost use Rattle.capture_file.specs.Batches.{IsFrontOf};

use crate::CaptureError;
use crate::batches::Batch;
use crate::format::{Format, HEADER_SIZE, read_header};
use crate::stage::Stage;
use frame_view::{ByteList, Frame, Frames, Memory};
use pcapng_blocks::Order;
use std::alloc::Global;

/// The number of bytes of a record's header.
pub(crate) const RECORD_HEADER_SIZE: usize = 16;

/// The largest number of captured bytes of a record.
const LARGEST_RECORD: u32 = 262_144;

/// The largest number of bytes of a record that shares a piece, with its header: this project's own
/// choice.
const LARGEST_SHARED: usize = 272;

/// The number of bytes from which on no further record's data is copied into a piece: this
/// project's own choice. A piece lives as long as any of its frames.
const PIECE: usize = 2048;

/// The greatest number of nanoseconds within a second.
const LAST_NANOSECOND: u64 = 999_999_999;

/// A place in a capture where a record may begin.
#[derive(Clone, Copy, Debug)]
pub(crate) struct Place {
    /// The number of bytes before it.
    pub stop: usize,
    /// The number of records before it.
    pub index: u32,
}

/// How far a feed has read.
#[derive(Clone, Copy)]
pub(crate) struct Progress {
    /// What comes next.
    pub stage: Stage,
    /// Where that is.
    pub next: Place,
    /// The number of kept bytes that have been read.
    pub cut: usize,
}

/// What the records of a capture are read with.
#[derive(Clone, Copy)]
pub(crate) struct RecordReader {
    /// Allocates a frame's bytes.
    pub alloc: Global,
    /// The CPU number that its frames carry.
    pub cpu: u32,
    /// The format that the header said.
    pub format: Format,
}

/// Reads on in a capture at a stage, with kept bytes and a piece after them. Frames and bytes are
/// only appended, so that the earlier state can be restored after `Memory`.
pub(crate) fn read_on(
    alloc: Global,
    cpu: u32,
    stage: Stage,
    next: Place,
    kept: &mut Vec<u8>,
    piece: &[u8],
    into: &mut Frames,
) -> Result<Progress, Memory>
    requires sound { IsSoundAt stage next kept.old.items }
    requires bound { next.stop + length kept.old.items + length piece.now ≤ 33554432 }
    ensures ok { IfOk result (λ progress.
        Feeds cpu stage next (kept.old.items ++ piece.now) progress
        kept.new.items into.old into.new) }
    ensures cut { IfOk result (λ progress. progress.cut ≤ length kept.new.items) }
    ensures sound { IfOk result (λ progress.
        IsSoundAt progress.stage progress.next
        (kept_at progress.stage (drop progress.cut kept.new.items))) }
    ensures kept { take (length kept.old.items) kept.new.items ≡ kept.old.items }
    ensures frames { take (length into.old) into.new ≡ into.old }
{
    match stage {
        Stage::Header => begin(alloc, cpu, kept, piece, into),
        Stage::Records(format) => {
            let reader = RecordReader { alloc, cpu, format };
            reader.go_on(next, kept, piece, into)
        }
        Stage::Damaged(_) => Ok(Progress {
            stage,
            next,
            cut: 0,
        }),
    }
}

/// Collects a capture's header, and reads on after it.
fn begin(
    alloc: Global,
    cpu: u32,
    kept: &mut Vec<u8>,
    piece: &[u8],
    into: &mut Frames,
) -> Result<Progress, Memory>
    requires short { length kept.old.items < 24 }
    requires bound { length kept.old.items + length piece.now ≤ 33554432 }
    ensures ok { IfOk result (λ progress.
        Begins cpu (kept.old.items ++ piece.now) progress kept.new.items into.old into.new) }
    ensures kept { take (length kept.old.items) kept.new.items ≡ kept.old.items }
    ensures frames { take (length into.old) into.new ≡ into.old }
{
    let behind = top_up(kept, HEADER_SIZE, piece)?;
    let start = Place { stop: 0, index: 0 };
    if kept.len() < HEADER_SIZE {
        return Ok(Progress {
            stage: Stage::Header,
            next: start,
            cut: 0,
        });
    }
    match read_header(kept.as_slice()) {
        Ok(format) => {
            let reader = RecordReader { alloc, cpu, format };
            let next = Place {
                stop: HEADER_SIZE,
                index: 0,
            };
            reader.read_fresh(next, HEADER_SIZE, kept, behind, into)
        }
        Err(damage) => Ok(Progress {
            stage: Stage::Damaged(damage),
            next: start,
            cut: 0,
        }),
    }
}

impl RecordReader {
    /// Reads on after the header: the record of which bytes are kept, and then those in the piece.
    fn go_on(
        self,
        next: Place,
        kept: &mut Vec<u8>,
        piece: &[u8],
        into: &mut Frames,
    ) -> Result<Progress, Memory>
        requires part { IsPart self.format.order kept.old.items }
        requires count { 16 * next.index ≤ next.stop }
        requires bound { next.stop + length kept.old.items + length piece.now ≤ 33554432 }
        ensures ok { IfOk result (λ progress.
            Comes self.format
            (read_from self.cpu self.format next into.old (kept.old.items ++ piece.now))
            progress kept.new.items into.new) }
        ensures kept { take (length kept.old.items) kept.new.items ≡ kept.old.items }
        ensures frames { take (length into.old) into.new ≡ into.old }
    {
        let fresh = complete(self.format.order, kept, piece)?;
        let (next, part) = self.read_records(next, kept.as_slice(), into)?;
        let cut = kept.len() - part.len();
        self.read_fresh(next, cut, kept, fresh, into)
    }

    /// Reads the whole records of fresh bytes, with no bytes kept, and keeps what is after them.
    #[tactic(auto, unfolding(crate::specs::Feeds::stage_at))]
    fn read_fresh(
        self,
        next: Place,
        cut: usize,
        kept: &mut Vec<u8>,
        fresh: &[u8],
        into: &mut Frames,
    ) -> Result<Progress, Memory>
        requires cut { cut ≤ length kept.old.items }
        requires count { 16 * next.index ≤ next.stop }
        requires bound { next.stop + length fresh.now ≤ 33554432 }
        ensures ok { IfOk result (λ progress.
            IsRead self.format (read_from self.cpu self.format next into.old fresh.now) cut
            kept.old.items progress kept.new.items into.new) }
        ensures kept { take (length kept.old.items) kept.new.items ≡ kept.old.items }
        ensures frames { take (length into.old) into.new ≡ into.old }
    {
        let (next, behind) = self.read_records(next, fresh, into)?;
        kept.extend_from_slice(behind)?;
        let (_, unread) = kept.as_slice().split_at(cut);
        let stage = if begins_oversized(self.format.order, unread) {
            Stage::Damaged(CaptureError::BadLength(next.stop as u64))
        } else {
            Stage::Records(self.format)
        };
        Ok(Progress { stage, next, cut })
    }

    /// Appends the frames of the whole records at the start of the bytes, the first of which is at
    /// `next`. It returns the place after them, and the bytes from there on.
    fn read_records<'a>(
        self,
        next: Place,
        bytes: &'a [u8],
        into: &mut Frames,
    ) -> Result<(Place, &'a [u8]), Memory>
        requires count { 16 * next.index ≤ next.stop }
        requires bound { next.stop + length bytes.now ≤ 33554432 }
        ensures ok { IfOk result (λ x. record { next = x.0; frames = into.new; left = x.1.now }
            ≡ read_from self.cpu self.format next into.old bytes.now) }
        ensures count { IfOk result (λ x. 16 * x.0.index ≤ x.0.stop) }
        ensures places { IfOk result (λ x.
            x.0.stop + length x.1.now ≡ next.stop + length bytes.now) }
        ensures fewer { IfOk result (λ x. length x.1.now ≤ length bytes.now) }
        ensures front { take (length into.old) into.new ≡ into.old }
    {
        let mut next = next;
        let mut rest = bytes;
        let mut batch = Batch::new();
        while let Some((record, behind)) = first_record(self.format.order, rest) {
            let captured = self.data_of(&mut batch, rest, record.len())?;
            into.push(self.frame(next.index, record, captured))?;
            next = next.behind(record);
            rest = behind;
        }
        Ok((next, rest))
    }

    /// The data of the whole record of this size that the bytes begin with, given the batch of the
    /// records at their start. A large record's is copied on its own, as is a small one's before a
    /// large one; another small one's with those of the records behind it.
    #[tactic(auto, using(crate::proofs::RecordCopies::has_next, crate::proofs::RecordCopies::next_is, crate::proofs::RecordCopies::front_behind))]
    fn data_of(self, batch: &mut Batch, bytes: &[u8], size: usize) -> Result<ByteList, Memory>
        requires header { 16 ≤ size }
        requires first { size ≡ record_size self.format.order bytes.now }
        requires whole { size ≤ length bytes.now }
        requires few { length bytes.now ≤ 33554432 }
        requires front { IsFrontOf self.format.order batch.old bytes.now }
        ensures value { IfOk result (λ list. list ≡ drop 16 (take size bytes.now)) }
        ensures front { OnOk result
            (IsFrontOf self.format.order batch.new (drop size bytes.now)) }
    {
        if batch.is_empty() {
            let (record, behind) = bytes.split_at(size);
            if size > LARGEST_SHARED || small_record(self.format.order, behind).is_none() {
                let (_, data) = record.split_at(RECORD_HEADER_SIZE);
                return Ok(ByteList::from_vec(data.to_vec(self.alloc)?));
            }
            *batch = self.batch_of(bytes, size)?;
        }
        batch.next_data(self.alloc, size - RECORD_HEADER_SIZE)
    }

    /// The batch of the record of this size that the bytes begin with and of the small records
    /// behind it, up to one that ends beyond what a piece has.
    fn batch_of(self, bytes: &[u8], size: usize) -> Result<Batch, Memory>
        requires header { 16 ≤ size }
        requires first { size ≡ record_size self.format.order bytes.now }
        requires whole { size ≤ length bytes.now }
        requires few { length bytes.now ≤ 33554432 }
        ensures some { IfOk result (λ batch. 0 < batch.records) }
        ensures front { IfOk result (λ batch. IsFrontOf self.format.order batch bytes.now) }
    {
        let (first, behind) = bytes.split_at(size);
        let (_, data) = first.split_at(RECORD_HEADER_SIZE);
        let room = small_data(self.format.order, bytes);
        let mut piece = Vec::with_capacity(self.alloc, room)?;
        piece.extend_from_slice(data)?;
        let mut records = 1;
        let mut rest = behind;
        while piece.len() < PIECE {
            let Some((record, behind)) = small_record(self.format.order, rest) else {
                break;
            };
            let (_, more) = record.split_at(RECORD_HEADER_SIZE);
            piece.extend_from_slice(more)?;
            records += 1;
            rest = behind;
        }
        Batch::of(self.alloc, piece, records)
    }

    /// The frame of a whole record with this data.
    #[tactic(auto, unfolding(crate::specs::Pcap::frame_of_record))]
    fn frame(self, index: u32, bytes: &[u8], captured: ByteList) -> Frame
        requires whole { 16 ≤ length bytes.now }
        requires behind { captured ≡ drop 16 bytes.now }
        ensures { result ≡ frame_of_record self.cpu self.format index bytes.now }
    {
        let order = self.format.order;
        let fraction = order.u32_at(bytes, 4) as u64 * self.format.unit as u64;
        Frame {
            cpu: self.cpu,
            index,
            sec: order.u32_at(bytes, 0),
            nsec: fraction.min(LAST_NANOSECOND) as u32,
            wire: order.u32_at(bytes, 8).max(order.u32_at(bytes, 12)),
            bytes: captured,
            tag: None,
        }
    }
}

impl Place {
    /// The place after a record that begins here.
    fn behind(self, bytes: &[u8]) -> Place
        requires size { 16 ≤ length bytes.now }
        requires count { 16 * self.index ≤ self.stop }
        requires bound { self.stop + length bytes.now ≤ 33554432 }
        ensures { result ≡ place_behind self bytes.now }
    {
        Place {
            stop: self.stop + bytes.len(),
            index: self.index + 1,
        }
    }
}

/// The whole record at the start, and what is after it. `None` if it isn't whole or is oversized.
#[tactic(auto, unfolding(crate::specs::Pcap::begins_whole))]
fn first_record(order: Order, bytes: &[u8]) -> Option<(&[u8], &[u8])>
    ensures size { IfSome result (λ x. 16 ≤ length x.0.now) }
    ensures parts { IfSome result (λ x. length x.0.now + length x.1.now ≡ length bytes.now) }
    ensures whole { MatchOption result (begins_whole order bytes.now ≡ false)
        (λ x. BeginsWith order bytes.now x.0.now x.1.now) }
{
    if bytes.len() < RECORD_HEADER_SIZE {
        return None;
    }
    let captured = order.u32_at(bytes, 8);
    if captured > LARGEST_RECORD {
        return None;
    }
    let size = RECORD_HEADER_SIZE + captured as usize;
    if bytes.len() < size {
        return None;
    }
    Some(bytes.split_at(size))
}

/// The whole small record at the start, and what is after it. `None` if there isn't one.
fn small_record(order: Order, bytes: &[u8]) -> Option<(&[u8], &[u8])>
    ensures size { IfSome result (λ x. 16 ≤ length x.0.now) }
    ensures parts { IfSome result (λ x. length x.0.now + length x.1.now ≡ length bytes.now) }
    ensures whole { IfSome result (λ x. BeginsWith order bytes.now x.0.now x.1.now) }
{
    match first_record(order, bytes) {
        Some((record, behind)) if record.len() <= LARGEST_SHARED => Some((record, behind)),
        _ => None,
    }
}

/// The number of bytes of the data of the whole small records that bytes begin with, up to a record
/// that ends beyond what a piece has: a piece takes no more memory than its frames.
fn small_data(order: Order, bytes: &[u8]) -> usize {
    let mut size = 0usize;
    let mut rest = bytes;
    while size < PIECE {
        let Some((record, behind)) = small_record(order, rest) else {
            break;
        };
        size += record.len() - RECORD_HEADER_SIZE;
        rest = behind;
    }
    size
}

/// Whether the bytes begin with the header of an oversized record.
#[tactic(auto, unfolding(crate::specs::Pcap::begins_oversized))]
fn begins_oversized(order: Order, bytes: &[u8]) -> bool
    ensures { result ≡ begins_oversized order bytes.now }
{
    bytes.len() >= RECORD_HEADER_SIZE && order.u32_at(bytes, 8) > LARGEST_RECORD
}

/// Appends to the kept bytes of a record, if there are any, what completes it, and returns the
/// bytes of the piece after that; none if the record is oversized.
fn complete<'a>(order: Order, kept: &mut Vec<u8>, piece: &'a [u8]) -> Result<&'a [u8], Memory>
    requires { IsPart order kept.old.items }
    ensures ok { IfOk result (λ fresh.
        Completes order kept.old.items kept.new.items piece.now fresh.now) }
    ensures fewer { IfOk result (λ fresh.
        length kept.new.items + length fresh.now ≤ length kept.old.items + length piece.now) }
    ensures front { take (length kept.old.items) kept.new.items ≡ kept.old.items }
{
    if kept.is_empty() {
        return Ok(piece);
    }
    let behind = top_up(kept, RECORD_HEADER_SIZE, piece)?;
    if kept.len() < RECORD_HEADER_SIZE {
        return Ok(behind);
    }
    let captured = order.u32_at(kept.as_slice(), 8);
    if captured > LARGEST_RECORD {
        return Ok(&[]);
    }
    top_up(kept, RECORD_HEADER_SIZE + captured as usize, behind)
}

/// Appends bytes of the piece to the kept ones until there are `size`, and returns the bytes after
/// those.
pub(crate) fn top_up<'a>(
    kept: &mut Vec<u8>,
    size: usize,
    piece: &'a [u8],
) -> Result<&'a [u8], Memory>
    ensures kept { OnOk result
        (kept.new.items ≡ kept.old.items ++ take (size - length kept.old.items) piece.now) }
    ensures behind { IfOk result (λ behind.
        behind.now ≡ drop (size - length kept.old.items) piece.now) }
    ensures err { OnErr result (kept.new.items ≡ kept.old.items) }
{
    let missing = size.saturating_sub(kept.len()).min(piece.len());
    let (front, behind) = piece.split_at(missing);
    kept.extend_from_slice(front)?;
    Ok(behind)
}

/// Takes bytes out from the start.
pub(crate) fn cut_front(kept: &mut Vec<u8>, cut: usize)
    requires { cut ≤ length kept.old.items }
    ensures { kept.new.items ≡ drop cut kept.old.items }
{
    // Most pieces of a long record take nothing out, and then nothing needs to be moved.
    if cut > 0 {
        let left = kept.len() - cut;
        kept.copy_within(cut.., 0);
        kept.truncate(left);
    }
}
