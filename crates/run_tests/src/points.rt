//! Every point that the threads of a run reach: which, how often, and with which numbers.
use crate::gate_log::{GateLog, Points};
use crate::runs::{Case, run_case};
use frame_view::Memory;
use scenarios::Answer;
use std::alloc::Global;
use std::process::Abort;
use std::sync::Wait;
use std::test::Fail;
use std::thread::Threads;

/// A run, and what comes of it.
struct Row {
    name: &'static str,
    case: Case,
    /// The last line of the setup.
    more: &'static str,
    /// The sum of the bits of the workers that are waited for.
    all: u64,
    /// The status, the report without the letters of moments, which may come anywhere, and the
    /// lines.
    told: &'static str,
    /// How many letters of moments the report has.
    moments: usize,
    points: Points,
}

/// Three frames: a capture of 252 bytes, of which the third read waits. Each frame is delivered
/// once, and no block but the last one is released.
static EARLY: [Row; 1] = [Row {
    name: "a source that waits",
    case: Case {
        setup: "block_size 4096\nblock_nr 2\nframe_size 2048\nframe_nr 4\ncpu a.pcap\n",
        frames: [3, 0],
        length: 60,
        waits: true,
    },
    more: "",
    all: 0,
    told: "0 Fine\nk0.k0.k0. 252\nkkk. 3 1\n\
        cpu 0 frames 3 arrivals 3 end ok\n\
        member 0 packets 3 drops 0 freezes 0 blocks 1\n\
        total arrivals 3 filtered 0 kept 3 drops 0\n",
    moments: 0,
    points: ([123, 0], 0, [0, 0], [0, 0], 0, 0, 0),
}];

/// Two CPUs with frames that fill a block, each with a member that has a block for each of them,
/// and three moments before the time-out of 8 milliseconds.
const TWO_CPUS: Case = Case {
    setup: "block_size 4096\nblock_nr 4\nframe_size 2048\nframe_nr 8\ncpu a.pcap\ncpu b.pcap\n\
        members 2\nticks t.txt\n",
    frames: [4, 3],
    length: 3_966,
    waits: false,
};

/// What comes of it.
const TOLD: &str = "0 Fine\nk0.k0.k0.k0. 15952\nk1.k1.k1. 11970\nknnn. 4 4\nknn. 3 3\n\
    cpu 0 frames 4 arrivals 4 end ok\n\
    cpu 1 frames 3 arrivals 3 end ok\n\
    member 0 packets 4 drops 0 freezes 0 blocks 4\n\
    member 1 packets 3 drops 0 freezes 0 blocks 3\n\
    total arrivals 7 filtered 0 kept 7 drops 0\n";

/// Four frames of CPU 0 and three of CPU 1, in order; the three moments, each of which is told to
/// two members; the blocks that were released while threads ran, which are all but a member's last;
/// each block that a pool decodes, once; each worker of the pool; no other point, and no thread
/// that gave up.
static POOLS: [Row; 3] = [
    Row {
        name: "no pool",
        case: TWO_CPUS,
        more: "",
        all: 0,
        told: TOLD,
        moments: 6,
        points: ([1_234, 123], 136, [123, 12], [0, 0], 0, 0, 0),
    },
    Row {
        name: "a pool of one worker",
        case: TWO_CPUS,
        more: "workers 1\n",
        all: 1,
        told: TOLD,
        moments: 6,
        points: ([1_234, 123], 136, [123, 12], [1_111, 111], 1, 0, 0),
    },
    Row {
        name: "a pool of two workers",
        case: TWO_CPUS,
        more: "workers 2\n",
        all: 3,
        told: TOLD,
        moments: 6,
        points: ([1_234, 123], 136, [123, 12], [1_111, 111], 3, 0, 0),
    },
];

/// The status, the report without the letters of moments, and the lines; and how many such letters
/// the report has.
fn told(alloc: Global, answer: &Answer, printed: &str) -> Result<(String, usize), Memory> {
    let report = answer.report.as_str();
    let plain = report.replace(alloc, "t", "")?;
    let status = answer.status.as_str();
    let told = format!(in alloc; "{status}\n{}{printed}", plain.as_str())?;
    Ok((told, report.matches("t").count()))
}

/// Carries out a row's run: what comes of it.
fn run_row<R: Threads + Wait + Sync>(
    rt: &R,
    alloc: Global,
    row: &Row,
) -> Result<(String, usize, Points), Memory> {
    let gate = GateLog::new(row.all);
    let (answer, printed) = run_case(rt, alloc, &row.case, row.more, &gate)?;
    let (told, moments) = told(alloc, &answer, printed.as_str())?;
    Ok((told, moments, gate.points()))
}

/// Holds each row's run to the row.
fn check_rows<R: Threads + Wait + Abort + Sync>(
    rt: &R,
    alloc: Global,
    rows: &[Row],
) -> Result<(), Fail> {
    for row in rows {
        let (told, moments, points) = run_row(rt, alloc, row)?;
        assert_eq!(rt;
            (row.name, told.as_str(), moments, points),
            (row.name, row.told, row.moments, row.points)
        );
    }
    Ok(())
}

#[test]
fn a_frame_is_delivered_before_the_end(rt: HostRuntime) -> Result<(), Fail> {
    check_rows(&rt, rt.alloc(), &EARLY)
}

#[test]
fn each_point_comes_once_with_its_numbers(rt: HostRuntime) -> Result<(), Fail> {
    check_rows(&rt, rt.alloc(), &POOLS)
}
