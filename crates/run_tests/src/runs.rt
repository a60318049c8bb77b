//! A command over files in memory: the one place of this crate where commands are carried out.
use crate::gate_log::GateLog;
use crate::waiting_store::WaitingStore;
use frame_view::{Memory, MomentList};
use scenarios::{Answer, answer_of, outcome_on_threads, push_fields};
use std::alloc::Global;
use std::str;
use std::sync::Wait;
use std::thread::Threads;
use tap_engine::Outcome;
use tap_outside::{MemSink, MemStore};

/// Carries out a command: its outcome, and what it prints.
pub(crate) fn run_command<R: Threads + Wait + Sync>(
    rt: &R,
    alloc: Global,
    command: &str,
    store: &mut WaitingStore<'_>,
    gate: &GateLog,
) -> Result<(Outcome, String), Memory> {
    let mut out = MemSink::new(alloc, MomentList::new(alloc));
    let outcome = outcome_on_threads(rt, alloc, &[command, "conf"], store, &mut out, gate)?;
    let printed = str::from_utf8(out.written()).unwrap_or("no text");
    Ok((outcome, String::from_str(alloc, printed)?))
}

/// A store without a file, in which nothing fails.
pub(crate) fn no_files(alloc: Global) -> MemStore {
    MemStore::new(alloc, MomentList::new(alloc), MomentList::new(alloc))
}

/// Puts a file into a store, of which one read gives at most `piece` bytes.
pub(crate) fn put_file(
    alloc: Global,
    files: &mut MemStore,
    name: &str,
    bytes: &[u8],
    piece: usize,
) -> Result<(), Memory> {
    let failing = MomentList::new(alloc);
    files.put(name.as_bytes(), bytes, piece.max(1), failing)
}

/// A `capture` of small captures.
pub(crate) struct Case {
    /// The first lines of the setup.
    pub(crate) setup: &'static str,
    /// How many frames `a.pcap` and `b.pcap` have.
    pub(crate) frames: [u8; 2],
    /// The length of each frame.
    pub(crate) length: u16,
    /// Whether the third read of each file waits until the first frame of CPU 0 is to be delivered.
    pub(crate) waits: bool,
}

/// A capture of `frames` frames of a length, each of which is its number, repeated.
fn capture(alloc: Global, frames: u8, length: u16) -> Result<Vec<u8>, Memory> {
    let mut bytes = Vec::new(alloc);
    push_fields(&mut bytes, &[0xa1b2_c3d4, 0x0004_0002, 0, 0, 0xffff, 1])?;
    for number in 0..frames {
        push_fields(&mut bytes, &[1, 2, u32::from(length), u32::from(length)])?;
        bytes.resize(bytes.len().saturating_add(usize::from(length)), number)?;
    }
    Ok(bytes)
}

/// Puts the files of a case into a store: the setup with further lines, three moments and two
/// captures. One read gives 100 bytes at most.
fn put_case(alloc: Global, files: &mut MemStore, case: &Case, more: &str) -> Result<(), Memory> {
    let [first, second] = case.frames;
    let setup = format!(in alloc; "{}{more}", case.setup)?;
    put_file(alloc, files, "conf", setup.as_bytes(), 100)?;
    put_file(alloc, files, "t.txt", b"1\n3\n6\n", 100)?;
    let bytes = capture(alloc, first, case.length)?;
    put_file(alloc, files, "a.pcap", bytes.as_slice(), 100)?;
    let bytes = capture(alloc, second, case.length)?;
    put_file(alloc, files, "b.pcap", bytes.as_slice(), 100)
}

/// Carries out a case with further lines in its setup: what it answers and prints.
pub(crate) fn run_case<R: Threads + Wait + Sync>(
    rt: &R,
    alloc: Global,
    case: &Case,
    more: &str,
    gate: &GateLog,
) -> Result<(Answer, String), Memory> {
    let mut files = no_files(alloc);
    put_case(alloc, &mut files, case, more)?;
    let mut store = WaitingStore {
        files,
        gate: if case.waits { Some(gate) } else { None },
    };
    let (outcome, printed) = run_command(rt, alloc, "capture", &mut store, gate)?;
    Ok((answer_of(alloc, &outcome)?, printed))
}
