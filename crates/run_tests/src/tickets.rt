//! Eight CPUs, each with five frames that are dealt out to eight members by turns.
use crate::gate_log::GateLog;
use crate::runs::{Case, run_case};
use frame_view::Memory;
use std::alloc::Global;
use std::sync::Wait;
use std::test::Fail;
use std::thread::Threads;

/// Five frames of each CPU, dealt out by turns: 40 tickets, of which a member has every eighth.
const DEALT: Case = Case {
    setup: "block_size 4096\nblock_nr 2\nframe_size 2048\nframe_nr 4\nmembers 8\nmode lb\n\
        cpu a.pcap\ncpu a.pcap\ncpu a.pcap\ncpu a.pcap\n\
        cpu a.pcap\ncpu a.pcap\ncpu a.pcap\ncpu a.pcap\n",
    frames: [5, 0],
    length: 60,
    waits: false,
};

/// How often a report has an arrival of these words.
fn count_of(report: &str, arrival: &str) -> usize {
    let mut count: usize = 0;
    for part in report.split(['.', '\n']) {
        if part == arrival {
            count = count.saturating_add(1);
        }
    }
    count
}

/// How many of the tickets 0 to 39 a report has once, each for the member that it is for.
fn drawn_once(alloc: Global, report: &str) -> Result<usize, Memory> {
    let mut once: usize = 0;
    for ticket in 0..40u32 {
        let arrival = format!(in alloc; "{ticket}k{}", ticket % 8)?;
        if count_of(report, arrival.as_str()) == 1 {
            once = once.saturating_add(1);
        }
    }
    Ok(once)
}

/// What is compared of a run: how many tickets were drawn once, how many members have five packets,
/// and whether the last line has all frames.
type Seen = (usize, usize, bool);

/// Deals the frames out.
fn dealt<R: Threads + Wait + Sync>(rt: &R, alloc: Global) -> Result<Seen, Memory> {
    let (answer, printed) = run_case(rt, alloc, &DEALT, "", &GateLog::new(0))?;
    let five = " packets 5 drops 0 freezes 0 blocks 1\n";
    let last = "\ntotal arrivals 40 filtered 0 kept 40 drops 0\n";
    let once = drawn_once(alloc, answer.report.as_str())?;
    let lines = printed.as_str();
    Ok((once, lines.matches(five).count(), lines.ends_with(last)))
}

#[test]
fn every_ticket_is_drawn_once(rt: HostRuntime) -> Result<(), Fail> {
    let seen = dealt(&rt, rt.alloc())?;
    assert_eq!(rt; seen, (40, 8, true));
    Ok(())
}
