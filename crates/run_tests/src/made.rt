//! Twenty thousand made frames for four members: replayed by `make`, and captured on threads
//! without a pool and with one.
use crate::gate_log::GateLog;
use crate::runs::{no_files, put_file, run_command};
use crate::waiting_store::WaitingStore;
use frame_view::Memory;
use made_captures::made_sources;
use ring_model::{Note, Notes, Offer};
use run_reports::MemberReport;
use scenarios::push_fields;
use std::alloc::Global;
use std::process::Abort;
use std::sync::Wait;
use std::test::Fail;
use std::thread::Threads;
use tap_engine::Outcome;
use tap_outside::{MemStore, Source, SureSource};

/// Four members by hash, two CPUs, fragments put together.
const SETUP: &str = "block_size 65536\nblock_nr 64\nframe_size 2048\nframe_nr 2048\npriv 16\n\
    cpu a.pcap\ncpu b.pcap\nmembers 4\nmode hash\n\
    key 6d5a56da255b0ec24167253d43a38fb0d0ca2bcbae7b30b477cb2da38030f20c6a42b73bbeac01fa\n\
    flag defrag\n";

/// What is printed first, and how the last line begins.
const FIRST: &str =
    "cpu 0 frames 10000 arrivals 10000 end ok\ncpu 1 frames 10000 arrivals 10000 end ok\n";

const TOTAL: &str = "\ntotal arrivals 20000 filtered 0 kept ";

/// Where nothing is dropped: the last line, and how a member's line ends before its blocks.
const ALL: &str = "\ntotal arrivals 20000 filtered 0 kept 20000 drops 0\n";

const NONE_DROPPED: &str = " drops 0 freezes 0 blocks ";

/// Reads into a buffer: how many bytes the source gave.
fn read_some(source: &mut SureSource, into: &mut [u8]) -> usize {
    if into.is_empty() {
        return 0;
    }
    source.read(into).unwrap_or(0)
}

/// The bytes that a source gives, by reads of at most `most` bytes.
fn bytes_of(alloc: Global, mut source: SureSource, most: usize) -> Result<Vec<u8>, Memory> {
    let mut bytes = Vec::new(alloc);
    let mut piece = vec![in alloc; 0u8; most]?;
    for _ in 0..1_000 {
        let count = read_some(&mut source, piece.as_mut_slice());
        if count == 0 {
            return Ok(bytes);
        }
        bytes.extend_from_slice(piece.as_slice().get(..count).unwrap_or(&[]))?;
    }
    Ok(bytes)
}

/// Puts the captures of the made frames into a store.
fn put_captures(alloc: Global, files: &mut MemStore) -> Result<(), Memory> {
    let mut sources = made_sources(alloc, 1, 20_000, 2)?;
    for name in ["b.pcap", "a.pcap"] {
        if let Some(Some(source)) = sources.pop() {
            let bytes = bytes_of(alloc, source, 65_536)?;
            put_file(alloc, files, name, bytes.as_slice(), 65_536)?;
        }
    }
    Ok(())
}

/// A store with the captures, and a setup that ends with a line.
fn made_files(alloc: Global, more: &str) -> Result<MemStore, Memory> {
    let mut files = no_files(alloc);
    let setup = format!(in alloc; "{SETUP}{more}")?;
    put_file(alloc, &mut files, "conf", setup.as_bytes(), 65_536)?;
    put_captures(alloc, &mut files)?;
    Ok(files)
}

/// Appends the record of an untagged offer that was kept.
fn push_record(bytes: &mut Vec<u8>, offer: &Offer) -> Result<(), Memory> {
    let frame = &offer.frame;
    push_fields(bytes, &[frame.sec, frame.nsec, offer.snap, frame.wire])?;
    let front = frame.bytes.as_slice().get(..offer.snap as usize);
    bytes.extend_from_slice(front.unwrap_or(&[]))?;
    Ok(())
}

/// The output file of the packets that these notes say were kept, and how many there are.
fn output_of(alloc: Global, notes: &Notes) -> Result<(Vec<u8>, usize), Memory> {
    let mut bytes = Vec::new(alloc);
    let mut kept: usize = 0;
    push_fields(&mut bytes, &[0xa1b2_3c4d, 0x0004_0002, 0, 0, 262_144, 1])?;
    for note in notes.as_slice() {
        if let Note::Kept { offer, .. } = note {
            push_record(&mut bytes, offer)?;
            kept = kept.saturating_add(1);
        }
    }
    Ok((bytes, kept))
}

/// How many packets a member's notes keep; none where its file isn't that of its notes, or its
/// reader walked another number.
fn kept_of(
    alloc: Global,
    files: &MemStore,
    number: usize,
    member: &MemberReport,
) -> Result<Option<usize>, Memory> {
    let (output, kept) = output_of(alloc, &member.notes)?;
    let name = format!(in alloc; "out.{number}.pcap")?;
    let is_saved = files.file(name.as_bytes()) == Some(output.as_slice());
    Ok(if is_saved && member.walked.len() == kept {
        Some(kept)
    } else {
        None
    })
}

/// How many members there are whose files are those of their notes, and how many packets they keep.
fn kept_and_saved(
    alloc: Global,
    outcome: &Outcome,
    files: &MemStore,
) -> Result<(usize, usize), Memory> {
    let (mut members, mut sum): (usize, usize) = (0, 0);
    let Some(report) = &outcome.report else {
        return Ok((0, 0));
    };
    for (number, member) in report.members.as_slice().iter().enumerate() {
        if let Some(kept) = kept_of(alloc, files, number, member)? {
            members = members.saturating_add(1);
            sum = sum.saturating_add(kept);
        }
    }
    Ok((members, sum))
}

/// The number after a word of a line; 0 if the line doesn't have the word.
fn number_after(line: &str, word: &str) -> usize {
    let (_, rest) = line.split_once(word).unwrap_or(("", ""));
    let number = rest.split(' ').next().unwrap_or("");
    number.parse::<usize>().unwrap_or(0)
}

/// The sum of the numbers after a word, over the lines of the members.
fn sum_of(printed: &str, word: &str) -> usize {
    let mut sum: usize = 0;
    for line in printed.lines() {
        if line.starts_with("member ") {
            sum = sum.saturating_add(number_after(line, word));
        }
    }
    sum
}

/// Whether the lines begin and end as they must, and the members' packets are all frames and their
/// drops these; and of `make`, that nothing is dropped.
fn is_told(command: &str, printed: &str, drops: usize) -> bool {
    let is_whole = printed.starts_with(FIRST) && printed.contains(TOTAL);
    let all = sum_of(printed, " packets ") == 20_000 && sum_of(printed, " drops ") == drops;
    let lossless = printed.ends_with(ALL) && printed.matches(NONE_DROPPED).count() == 4;
    is_whole && all && (lossless || command != "make")
}

/// What is compared of a run: its status, whether its lines are as they must be, how many frames
/// were kept or dropped, of how many members the file is that of their notes, and whether these
/// keep what the last line says.
type Seen = (u8, bool, usize, usize, bool);

/// What is seen of a run.
fn seen_of(
    alloc: Global,
    command: &str,
    (outcome, printed): (&Outcome, &str),
    files: &MemStore,
) -> Result<Seen, Memory> {
    let last = printed.lines().last().unwrap_or("");
    let (kept, drops) = (number_after(last, " kept "), number_after(last, " drops "));
    let (members, sum) = kept_and_saved(alloc, outcome, files)?;
    Ok((
        outcome.status.number(),
        is_told(command, printed, drops),
        kept.saturating_add(drops),
        members,
        sum == kept,
    ))
}

/// Carries out a command over the made frames.
fn run_made<R: Threads + Wait + Sync>(
    rt: &R,
    alloc: Global,
    command: &str,
    more: &str,
) -> Result<Seen, Memory> {
    let mut store = WaitingStore {
        files: made_files(alloc, more)?,
        gate: None,
    };
    let (outcome, printed) = run_command(rt, alloc, command, &mut store, &GateLog::new(0))?;
    seen_of(alloc, command, (&outcome, printed.as_str()), &store.files)
}

/// A command over the made frames comes to what it must.
fn check_made<R: Threads + Wait + Abort + Sync>(
    rt: &R,
    alloc: Global,
    command: &str,
    more: &str,
) -> Result<(), Fail> {
    let seen = run_made(rt, alloc, command, more)?;
    assert_eq!(rt; seen, (0, true, 20_000, 4, true));
    Ok(())
}

#[test]
fn made_frames_are_spread_and_none_is_dropped(rt: HostRuntime) -> Result<(), Fail> {
    check_made(&rt, rt.alloc(), "make", "make 1 20000\n")
}

#[test]
fn readers_save_what_was_kept(rt: HostRuntime) -> Result<(), Fail> {
    check_made(&rt, rt.alloc(), "capture", "")
}

#[test]
fn a_pool_saves_what_was_kept(rt: HostRuntime) -> Result<(), Fail> {
    check_made(&rt, rt.alloc(), "capture", "workers 8\n")
}
