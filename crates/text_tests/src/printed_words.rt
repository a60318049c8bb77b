//! How captures end, what was sent, and why texts are refused, as they are printed.
use crate::reports::printed;
use bpf_filter::FilterError;
use capture_file::{CaptureError, CpuEnd};
use fanout_group::PlanError;
use frame_view::{Memory, Packets};
use setup_text::{Needed, SetupError, SetupKind, TextError, TextKind, Which};
use std::alloc::Global;
use tap_printing::{send_lines, setup_refusal, text_refusal};
use tp_layout::RequestError;
use tx_ring::Transmitted;

/// An end, and the lines of a CPU with this end whose two frames found no member.
static ENDS: [(CpuEnd, &str); 9] = [
    (CpuEnd::Whole, "ok"),
    (CpuEnd::Fault, "fault"),
    (CpuEnd::Damaged(CaptureError::BadMagic), "bad_magic 0"),
    (CpuEnd::Damaged(CaptureError::BadVersion), "bad_version 0"),
    (CpuEnd::Damaged(CaptureError::BadLink(101)), "bad_link 0"),
    (
        CpuEnd::Damaged(CaptureError::BadLength(24)),
        "bad_length 24",
    ),
    (
        CpuEnd::Damaged(CaptureError::Truncated(176)),
        "truncated 176",
    ),
    (
        CpuEnd::Damaged(CaptureError::TooLarge),
        "too_large 33554432",
    ),
    (
        CpuEnd::Damaged(CaptureError::BadInterface(48)),
        "bad_interface 48",
    ),
];

/// The lines of a run in which a CPU has two arrivals that no filter refuses, without a member.
fn lines_with(alloc: Global, end: &str) -> Result<String, Memory> {
    let mut lines = String::from_str(alloc, "cpu 0 frames 2 arrivals 2 end ")?;
    lines.push_str(end)?;
    lines.push_str("\ntotal arrivals 2 filtered 0 kept 0 drops 0\n")?;
    Ok(lines)
}

#[test]
fn prints_how_captures_end(rt: HostRuntime) -> Result<(), Memory> {
    for (end, word) in &ENDS {
        let text = printed(rt.alloc(), 0, &[(2, &[96, 96], *end)], &[])?;
        let lines = lines_with(rt.alloc(), word)?;
        assert_eq!(rt; text.as_slice(), lines.as_bytes(), "{word}");
    }
    Ok(())
}

/// The frames of a capture and its end, how many were sent and skipped, where the ring stopped, and
/// the lines.
type SentRow<'a> = (usize, CpuEnd, u64, u64, Option<u32>, &'a str);

static SENT_ROWS: [SentRow<'static>; 3] = [
    (
        3,
        CpuEnd::Whole,
        2,
        1,
        None,
        "cpu 0 frames 3 end ok\nsend sent 2 skipped 1 stop none\n",
    ),
    (
        2,
        CpuEnd::Damaged(CaptureError::Truncated(3040)),
        0,
        0,
        Some(1),
        "cpu 0 frames 2 end truncated 3040\nsend sent 0 skipped 0 stop 1\n",
    ),
    (
        0,
        CpuEnd::Fault,
        0,
        0,
        None,
        "cpu 0 frames 0 end fault\nsend sent 0 skipped 0 stop none\n",
    ),
];

fn sent_lines(alloc: Global, row: SentRow<'_>) -> Result<String, Memory> {
    let (frames, end, sent, skipped, stop, _) = row;
    let transmitted = Transmitted {
        packets: Packets::new(alloc),
        sent,
        skipped,
        stop,
    };
    send_lines(alloc, frames, end, &transmitted)
}

#[test]
fn what_was_sent_has_two_lines(rt: HostRuntime) -> Result<(), Memory> {
    for row in &SENT_ROWS {
        let text = sent_lines(rt.alloc(), *row)?;
        assert_eq!(rt; text.as_str(), row.5);
    }
    Ok(())
}

static SETUP_LINES: [(u32, SetupKind, &str); 5] = [
    (6, SetupKind::UnknownWord, "setup line 6: unknown_word\n"),
    (1, SetupKind::BadNumber, "setup line 1: bad_number\n"),
    (
        0,
        SetupKind::Missing(Needed::FrameNr),
        "setup line 0: missing frame_nr\n",
    ),
    (
        0,
        SetupKind::Request(RequestError::FrameCount),
        "setup line 0: request frame_count\n",
    ),
    (
        0,
        SetupKind::Group(PlanError::BackupOfRollover),
        "setup line 0: group backup_of_rollover\n",
    ),
];

fn setup_line(alloc: Global, line: u32, kind: SetupKind) -> Result<String, Memory> {
    setup_refusal(alloc, &SetupError { line, kind })
}

#[test]
fn prints_why_a_setup_is_refused(rt: HostRuntime) -> Result<(), Memory> {
    for (line, kind, want) in &SETUP_LINES {
        let text = setup_line(rt.alloc(), *line, *kind)?;
        assert_eq!(rt; text.as_str(), *want);
    }
    Ok(())
}

static TEXT_LINES: [(Which, u32, TextKind, &str); 3] = [
    (
        Which::Schedule,
        2,
        TextKind::NoSuchCpu,
        "schedule line 2: no_such_cpu\n",
    ),
    (
        Which::Ticks,
        3,
        TextKind::NotAscending,
        "ticks line 3: not_ascending\n",
    ),
    (
        Which::Filter,
        4,
        TextKind::Filter(FilterError::NoReturn),
        "filter line 4: no_return\n",
    ),
];

fn text_line(alloc: Global, which: Which, line: u32, kind: TextKind) -> Result<String, Memory> {
    text_refusal(alloc, &TextError { which, line, kind })
}

#[test]
fn prints_why_a_text_is_refused(rt: HostRuntime) -> Result<(), Memory> {
    for (which, line, kind, want) in &TEXT_LINES {
        let text = text_line(rt.alloc(), *which, *line, *kind)?;
        assert_eq!(rt; text.as_str(), *want);
    }
    Ok(())
}
