//! Reports of runs, made from letters, and the lines that are printed for them.
use capture_file::CpuEnd;
use fanout_group::{ArrivalList, ArrivalLog, CpuLog, CpuLogList, TryList};
use frame_view::{ByteList, Frame, ItemList, Memory, Packet, Packets};
use reader_walk::Dump;
use ring_model::{Found, Note, Notes, Offer};
use run_reports::{Forwards, MemberList, MemberReport, RingKind, RunReport};
use std::alloc::Global;
use tap_printing::summary;

/// The log of a CPU: the number of frames, the verdicts of the arrivals, and the end.
pub(crate) type Cpu<'a> = (u32, &'a [u32], CpuEnd);

/// The report of a member: a letter for each event of its ring, the moments of those that are
/// ticks, and the number of blocks that were walked.
///
/// `k` keeps a packet in the open block and `n` in the next one; `r` refuses one and `d` drops one;
/// for a tick `t` says that the next block wasn't asked for, `T` that it was free and `H` that it
/// was held; `c` takes the statistics, and a point closes the ring.
pub(crate) type Member<'a> = (&'a str, &'a [u64], u64);

/// An arrival with a verdict.
fn arrival(alloc: Global, verdict: u32) -> ArrivalLog {
    ArrivalLog {
        index: 0,
        ticket: None,
        hash: 0,
        verdict,
        tries: TryList::new(alloc),
    }
}

fn log_of(alloc: Global, cpu: Cpu<'_>) -> Result<CpuLog, Memory> {
    let (frames, verdicts, end) = cpu;
    let mut arrivals = ArrivalList::new(alloc);
    for verdict in verdicts {
        arrivals.push(arrival(alloc, *verdict))?;
    }
    Ok(CpuLog {
        frames,
        given: 0,
        end,
        arrivals,
    })
}

/// A frame of 60 bytes, none of which was captured.
fn frame(alloc: Global) -> Frame {
    Frame {
        cpu: 0,
        index: 0,
        sec: 0,
        nsec: 0,
        wire: 60,
        bytes: ByteList::new(alloc),
        tag: None,
    }
}

fn kept(alloc: Global, found: Found) -> Note {
    Note::Kept {
        offer: Offer {
            frame: frame(alloc),
            snap: 60,
            hash: 0,
            pkttype: 0,
        },
        found,
    }
}

fn refused() -> Note {
    Note::Refused {
        cpu: 0,
        index: 0,
        need: 144,
        number: 1,
    }
}

fn dropped() -> Note {
    Note::Dropped {
        cpu: 0,
        index: 0,
        need: 144,
        number: 1,
    }
}

/// The note of a letter, with the moment of a tick.
fn note(alloc: Global, letter: u8, ms: u64) -> Note {
    match letter {
        b'k' => kept(alloc, Found::NotAsked),
        b'n' => kept(alloc, Found::Free),
        b'r' => refused(),
        b'd' => dropped(),
        b'c' => Note::Counted,
        b'.' => Note::Finished,
        b'T' => ticked(ms, Found::Free),
        b'H' => ticked(ms, Found::Held(1)),
        _ => ticked(ms, Found::NotAsked),
    }
}

fn ticked(ms: u64, found: Found) -> Note {
    Note::Ticked { ms, found }
}

/// The moment of a letter that is a tick, 0 for another one, and the moments that are left.
fn moment(letter: u8, moments: &[u64]) -> (u64, &[u64]) {
    match moments {
        [ms, rest @ ..] if matches!(letter, b't' | b'T' | b'H') => (*ms, rest),
        _ => (0, moments),
    }
}

fn notes_of(alloc: Global, letters: &str, moments: &[u64]) -> Result<Notes, Memory> {
    let mut notes = Notes::new(alloc);
    let mut left = moments;
    for letter in letters.as_bytes() {
        let (ms, rest) = moment(*letter, left);
        notes.push(note(alloc, *letter, ms))?;
        left = rest;
    }
    Ok(notes)
}

fn member_of(alloc: Global, member: Member<'_>) -> Result<MemberReport, Memory> {
    let (letters, moments, blocks) = member;
    Ok(MemberReport {
        notes: notes_of(alloc, letters, moments)?,
        walked: Packets::new(alloc),
        dump: Dump::new(alloc),
        blocks,
        ring: None,
    })
}

fn logs_of(alloc: Global, cpus: &[Cpu<'_>]) -> Result<CpuLogList, Memory> {
    let mut logs = CpuLogList::new(alloc);
    for cpu in cpus {
        logs.push(log_of(alloc, *cpu)?)?;
    }
    Ok(logs)
}

fn members_of(alloc: Global, members: &[Member<'_>]) -> Result<MemberList, Memory> {
    let mut reports = MemberList::new(alloc);
    for member in members {
        reports.push(member_of(alloc, *member)?)?;
    }
    Ok(reports)
}

fn report_of(alloc: Global, cpus: &[Cpu<'_>], members: &[Member<'_>]) -> Result<RunReport, Memory> {
    Ok(RunReport {
        cpus: logs_of(alloc, cpus)?,
        members: members_of(alloc, members)?,
    })
}

/// The lines of a run over rings of blocks with a time-out in milliseconds.
pub(crate) fn printed(
    alloc: Global,
    tov: u64,
    cpus: &[Cpu<'_>],
    members: &[Member<'_>],
) -> Result<ByteList, Memory> {
    let report = report_of(alloc, cpus, members)?;
    summary(alloc, RingKind::Blocks, tov, &report, None)
}

/// The lines of a run over rings of slots. A slot that is filled was free, so its letter is `n`.
pub(crate) fn printed_slots(
    alloc: Global,
    cpus: &[Cpu<'_>],
    members: &[Member<'_>],
) -> Result<ByteList, Memory> {
    let report = report_of(alloc, cpus, members)?;
    summary(alloc, RingKind::Slots, 8, &report, None)
}

/// `count` packets of 14 bytes.
fn packets(alloc: Global, count: usize) -> Result<Packets, Memory> {
    let mut packets = Packets::new(alloc);
    for _packet in 0..count {
        let bytes = vec![in alloc; 0; 14]?;
        packets.push(Packet::plain(ByteList::from_vec(bytes)))?;
    }
    Ok(packets)
}

/// What members sent, by the numbers of packets that each sent and skipped.
fn forwards_of(alloc: Global, numbers: &[(usize, u64)]) -> Result<Forwards, Memory> {
    let mut forwards = Forwards {
        sent: ItemList::new(alloc),
        skipped: ItemList::new(alloc),
    };
    for (sent, skipped) in numbers {
        forwards.sent.push(packets(alloc, *sent)?)?;
        forwards.skipped.push(*skipped)?;
    }
    Ok(forwards)
}

/// The lines of a run whose members send, with the numbers of packets that each sent and skipped.
pub(crate) fn printed_forward(
    alloc: Global,
    cpus: &[Cpu<'_>],
    members: &[Member<'_>],
    numbers: &[(usize, u64)],
) -> Result<ByteList, Memory> {
    let report = report_of(alloc, cpus, members)?;
    let forwards = forwards_of(alloc, numbers)?;
    summary(alloc, RingKind::Blocks, 0, &report, Some(&forwards))
}
