//! Whole deliveries: each arrival is judged, delivered and logged, and its tries are compared.
ghost use Rattle.std.specs.Prelude.{◌≡◌, ◌<◌, ◌≤◌, None, length, IfOk, OnOk};
ghost use Rattle.fanout_group.specs.Arrivals.{IsArrival};
ghost use Rattle.group_tests.specs.Rooms.{IsDeskOf};

use crate::list_desk::{ListDesk, shown};
use bpf_filter::{Program, read_ddd};
use fanout_group::{ArrivalList, ArrivalRules, Mode, Plan, ReceivePath};
use flow_hash::Key;
use frame_view::{ByteList, Frame, Memory};
use std::alloc::Global;
use std::process::Abort;
use std::test::Fail;

/// The default key of receive side scaling.
pub(crate) const DIGITS: &[u8] =
    b"6d5a56da255b0ec24167253d43a38fb0d0ca2bcbae7b30b477cb2da38030f20c6a42b73bbeac01fa";

/// Neither a key nor a filter, and large blocks.
pub(crate) const OPEN: ArrivalRules<'static> = ArrivalRules {
    key: None,
    filter: None,
    own: None,
    queue: 0,
    room: 4048,
};

/// An arrival of a CPU: these bytes, and zeros up to 60.
pub(crate) fn arrival(alloc: Global, cpu: u32, index: u32, bytes: &[u8]) -> Result<Frame, Memory>
    ensures { IfOk result IsArrival }
{
    let mut all = vec![in alloc; 0; 60]?;
    for (to, from) in all.iter_mut().zip(bytes) {
        *to = *from;
    }
    Ok(Frame {
        cpu,
        index,
        sec: 0,
        nsec: 0,
        wire: 60,
        bytes: ByteList::from_vec(all),
        tag: None,
    })
}

/// The path receives an arrival at a desk with all members of its group.
pub(crate) fn take(
    alloc: Global,
    path: &mut ReceivePath,
    rules: &ArrivalRules<'_>,
    desk: &mut ListDesk,
    arrival: Frame,
) -> Result<(), Memory>
    requires arrival { IsArrival arrival }
    requires room { 82 < rules.now.room }
    requires members { IsDeskOf path.old.shape.members desk.old.rooms.items }
    ensures shape { OnOk result (path.new.shape ≡ path.old.shape) }
    ensures members { IsDeskOf path.old.shape.members desk.new.rooms.items }
{
    path.receive(alloc, rules, desk, arrival)
}

/// The log of arrivals with these bytes each, at members that each have room for `room` packets.
fn log_of(
    alloc: Global,
    plan: Plan,
    rules: &ArrivalRules<'_>,
    room: u32,
    frames: &[&[u8]],
) -> Result<ArrivalList, Memory>
    requires room { 82 < rules.now.room }
    requires few { length frames.now ≤ 100 }
{
    let mut desk = ListDesk {
        rooms: vec![in alloc; room; plan.members() as usize]?,
        ticket: 0,
        memory: u32::MAX,
    };
    let mut path = ReceivePath::new(alloc, plan);
    for (index, &bytes) in frames.iter().enumerate() {
        let index = index as u32;
        let arrival = arrival(alloc, 0, index, bytes)?;
        take(alloc, &mut path, rules, &mut desk, arrival)?;
    }
    Ok(path.into_log())
}

const ROLLOVER: u32 = 0x1000;

/// An arrival of zeros.
const NO_BYTES: &[u8] = &[];

/// A name, the mode, the flags, and the tries of nine equal arrivals at two members with room for
/// four packets each.
type Row = (&'static str, Mode, u32, [&'static str; 9]);

static ROUNDS: [Row; 4] = [
    (
        "with rollover",
        Mode::Cpu,
        ROLLOVER,
        [
            "kept 0 ",
            "kept 0 ",
            "kept 0 ",
            "kept 0 ",
            "refused 0 kept 1 ",
            "refused 0 kept 1 ",
            "refused 0 kept 1 ",
            "refused 0 kept 1 ",
            "refused 0 refused 1 dropped 0 ",
        ],
    ),
    (
        "mode rollover",
        Mode::Rollover,
        0,
        [
            "kept 0 ",
            "kept 0 ",
            "kept 0 ",
            "kept 0 ",
            "refused 0 kept 1 ",
            "kept 1 ",
            "kept 1 ",
            "kept 1 ",
            "refused 1 refused 0 dropped 1 ",
        ],
    ),
    (
        "without rollover",
        Mode::Cpu,
        0,
        [
            "kept 0 ",
            "kept 0 ",
            "kept 0 ",
            "kept 0 ",
            "dropped 0 ",
            "dropped 0 ",
            "dropped 0 ",
            "dropped 0 ",
            "dropped 0 ",
        ],
    ),
    (
        "round robin",
        Mode::Lb,
        0,
        [
            "kept 0 ",
            "kept 1 ",
            "kept 0 ",
            "kept 1 ",
            "kept 0 ",
            "kept 1 ",
            "kept 0 ",
            "kept 1 ",
            "dropped 0 ",
        ],
    ),
];

/// Compares the tries of each arrival of a log with what is expected.
fn check_tries(
    rt: &impl Abort,
    alloc: Global,
    name: &str,
    log: &ArrivalList,
    wants: &[&str],
) -> Result<(), Fail> {
    assert_eq!(rt; (name, log.len()), (name, wants.len()));
    for (entry, want) in log.as_slice().iter().zip(wants) {
        let tries = shown(alloc, entry.tries.as_slice())?;
        let at = entry.index;
        assert_eq!(rt; (name, at, tries.as_str()), (name, at, *want));
    }
    Ok(())
}

/// Compares the tries of nine arrivals with a row.
fn check_rounds(rt: &impl Abort, alloc: Global, row: &Row) -> Result<(), Fail> {
    let (name, mode, flags, rounds) = row;
    assert!(rt; *flags == 0 || *flags == ROLLOVER);
    let plan = Plan::check(2, *mode, *flags, false)?;
    let log = log_of(alloc, plan, &OPEN, 4, &[NO_BYTES; 9])?;
    check_tries(rt, alloc, name, &log, rounds)
}

#[test]
fn tries_members_by_mode_and_flag(rt: HostRuntime) -> Result<(), Fail> {
    for row in &ROUNDS {
        check_rounds(&rt, rt.alloc(), row)?;
    }
    Ok(())
}

/// A TCP frame from 66.9.149.187 port 2794 to 161.142.100.80 port 1766, of the verification suite.
pub(crate) const THERE: &[u8] = &[
    2, 0, 0, 0, 0, 2, 2, 0, 0, 0, 0, 1, 0x08, 0x00, 0x45, 0, 0, 40, 0, 0, 0, 0, 64, 6, 0, 0, 66, 9,
    149, 187, 161, 142, 100, 80, 0x0a, 0xea, 0x06, 0xe6,
];

/// The same the other way round.
const BACK: &[u8] = &[
    2, 0, 0, 0, 0, 1, 2, 0, 0, 0, 0, 2, 0x08, 0x00, 0x45, 0, 0, 40, 0, 0, 0, 0, 64, 6, 0, 0, 161,
    142, 100, 80, 66, 9, 149, 187, 0x06, 0xe6, 0x0a, 0xea,
];

/// Each entry of a log has the hash of that flow.
fn check_hashes(rt: &impl Abort, log: &ArrivalList) {
    for entry in log.as_slice() {
        assert_eq!(rt; (entry.index, entry.hash), (entry.index, 0x51cc_c178));
    }
}

/// Compares the hash and the tries of both directions at this number of members with what is
/// expected.
fn check_flow(
    rt: &impl Abort,
    alloc: Global,
    key: &Key,
    members: u32,
    want: &str,
) -> Result<(), Fail> {
    let rules = ArrivalRules {
        key: Some(key),
        ..OPEN
    };
    let plan = Plan::check(members, Mode::Hash, 0, true)?;
    let log = log_of(alloc, plan, &rules, 4, &[THERE, BACK])?;
    check_hashes(rt, &log);
    check_tries(rt, alloc, want, &log, &[want; 2])
}

#[test]
fn the_flow_hash_chooses_the_member(rt: HostRuntime) -> Result<(), Fail> {
    let key = Key::from_hex(rt.alloc(), DIGITS)?;
    check_flow(&rt, rt.alloc(), &key, 4, "kept 0 ")?;
    check_flow(&rt, rt.alloc(), &key, 7, "kept 2 ")
}

#[test]
fn without_a_key_the_hash_is_zero(rt: HostRuntime) -> Result<(), Fail> {
    let judged = OPEN.judge(rt.alloc(), arrival(rt.alloc(), 0, 0, THERE)?, None);
    let offered = judged.offer.map(|offer| offer.hash);
    assert_eq!(rt; (judged.entry.hash, offered), (0, Some(0)));
    Ok(())
}

/// A filter, as `tcpdump -ddd ip` writes it, that keeps 96 bytes.
const IP_96: &[u8] = b"4\n40 0 0 12\n21 0 1 2048\n6 0 0 96\n6 0 0 0\n";

/// An ARP frame.
pub(crate) const ARP: &[u8] = &[2, 0, 0, 0, 0, 2, 2, 0, 0, 0, 0, 1, 0x08, 0x06];

/// Each entry of a log has its place for its ticket, and the expected verdict.
fn check_tickets(rt: &impl Abort, log: &ArrivalList, verdicts: &[u32]) {
    for (entry, verdict) in log.as_slice().iter().zip(verdicts) {
        let ticket = Some(u64::from(entry.index));
        assert_eq!(rt; (entry.ticket, entry.verdict), (ticket, *verdict));
    }
}

#[test]
fn a_filtered_arrival_draws_a_ticket(rt: HostRuntime) -> Result<(), Fail> {
    let filter = Program::check(rt.alloc(), read_ddd(rt.alloc(), IP_96)?)?;
    let rules = ArrivalRules {
        filter: Some(&filter),
        ..OPEN
    };
    let plan = Plan::check(2, Mode::Lb, 0, false)?;
    let log = log_of(rt.alloc(), plan, &rules, 4, &[THERE, ARP, BACK])?;
    check_tickets(&rt, &log, &[96, 0, 96]);
    let wants = ["kept 0 ", "", "kept 0 "];
    check_tries(&rt, rt.alloc(), "filtered", &log, &wants)
}
