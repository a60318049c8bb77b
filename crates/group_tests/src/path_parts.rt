//! The two parts of the receive path that may be called by themselves, `judge` and `deliver`: each
//! with each kind of answer.
ghost use Rattle.std.specs.Prelude.{◌≡◌, ◌<◌};
ghost use Rattle.fanout_group.specs.Rules.{HasTicket};

use crate::deliveries::{ARP, DIGITS, OPEN, THERE, arrival};
use crate::list_desk::{ListDesk, shown};
use bpf_filter::{Program, read_ddd};
use fanout_group::{ArrivalRules, Fate, Mode, Plan, Try, TryList, deliver};
use flow_hash::Key;
use frame_view::Memory;
use ring_model::Offer;
use std::alloc::Global;
use std::process::Abort;
use std::test::Fail;

const ROLLOVER: u32 = 0x1000;

/// A delivery to two members: the mode and the flags, for how many packets each member has room,
/// for how many tries there is memory, and which member is present; then whether it succeeds, all
/// tries that are listed after one that was, and which member is present.
type Delivery = (Mode, u32, [u32; 2], u32, u32, (bool, &'static str, u32));

/// Of an offer of CPU 1 with the hash 3 in queue 5, in mode `Lb` with ticket 7: home is member 1,
/// or in mode `Rollover` the present member.
static DELIVERIES: [Delivery; 14] = [
    (Mode::Hash, 0, [1, 1], 9, 0, (true, "kept 6 kept 1 ", 0)),
    (Mode::Lb, 0, [1, 1], 9, 0, (true, "kept 6 kept 1 ", 0)),
    (Mode::Cpu, 0, [1, 1], 9, 0, (true, "kept 6 kept 1 ", 0)),
    (Mode::Qm, 0, [1, 1], 9, 0, (true, "kept 6 kept 1 ", 0)),
    (Mode::Cpu, 0, [1, 0], 9, 0, (true, "kept 6 dropped 1 ", 0)),
    (
        Mode::Cpu,
        ROLLOVER,
        [1, 0],
        9,
        0,
        (true, "kept 6 refused 1 kept 0 ", 0),
    ),
    (
        Mode::Cpu,
        ROLLOVER,
        [0, 0],
        9,
        0,
        (true, "kept 6 refused 1 refused 0 dropped 1 ", 0),
    ),
    (
        Mode::Rollover,
        0,
        [0, 1],
        9,
        0,
        (true, "kept 6 refused 0 kept 1 ", 1),
    ),
    (
        Mode::Rollover,
        0,
        [0, 0],
        9,
        1,
        (true, "kept 6 refused 1 refused 0 dropped 1 ", 1),
    ),
    (Mode::Cpu, 0, [1, 1], 0, 0, (false, "kept 6 ", 0)),
    (Mode::Cpu, ROLLOVER, [1, 1], 0, 0, (false, "kept 6 ", 0)),
    (
        Mode::Cpu,
        ROLLOVER,
        [1, 0],
        1,
        0,
        (false, "kept 6 refused 1 ", 0),
    ),
    (
        Mode::Rollover,
        0,
        [1, 0],
        1,
        1,
        (false, "kept 6 refused 1 ", 1),
    ),
    (
        Mode::Rollover,
        0,
        [0, 0],
        2,
        0,
        (false, "kept 6 refused 0 refused 1 ", 0),
    ),
];

/// The ticket of an arrival, which has one only in mode `Lb`.
fn ticket_of(mode: Mode) -> Option<u64>
    ensures { HasTicket mode result }
{
    match mode {
        Mode::Lb => Some(7),
        _ => None,
    }
}

/// An offer of a whole arrival of CPU 1.
fn offer(alloc: Global) -> Result<Offer, Memory> {
    Ok(Offer {
        frame: arrival(alloc, 1, 0, &[])?,
        snap: 60,
        hash: 3,
        pkttype: 0,
    })
}

/// A list of one try that was made before, at a member of another number.
fn one_before(alloc: Global) -> Result<TryList, Memory> {
    let mut tries = TryList::new(alloc);
    tries.push(Try {
        member: 6,
        fate: Fate::Kept,
    })?;
    Ok(tries)
}

/// Whether a delivery succeeds, which tries are then listed, and which member is present.
fn delivered(
    alloc: Global,
    plan: &Plan,
    rooms: [u32; 2],
    memory: u32,
    present: u32,
) -> Result<(bool, String, u32), Memory>
    requires members { plan.now.members ≡ 2 }
    requires present { present < 2 }
{
    let mut desk = ListDesk {
        rooms: Vec::from_array(alloc, rooms)?,
        ticket: 0,
        memory,
    };
    let mut tries = one_before(alloc)?;
    let mut present = present;
    let ticket = ticket_of(plan.mode());
    let offer = offer(alloc)?;
    let answer = deliver(
        alloc,
        plan,
        &mut desk,
        &mut present,
        5,
        offer,
        ticket,
        &mut tries,
    );
    Ok((answer.is_ok(), shown(alloc, tries.as_slice())?, present))
}

/// Compares each delivery with its row.
fn check_deliveries(rt: &impl Abort, alloc: Global, rows: &[Delivery]) -> Result<(), Fail> {
    for (mode, flags, rooms, memory, present, want) in rows {
        assert!(rt; *flags == 0 || *flags == ROLLOVER);
        assert!(rt; *present < 2);
        let plan = Plan::check(2, *mode, *flags, true)?;
        let (whole, tries, then) = delivered(alloc, &plan, *rooms, *memory, *present)?;
        assert_eq!(rt;
            (
                *mode,
                *flags,
                *rooms,
                *memory,
                (whole, tries.as_str(), then)
            ),
            (*mode, *flags, *rooms, *memory, *want)
        );
    }
    Ok(())
}

#[test]
fn a_delivery_by_itself(rt: HostRuntime) -> Result<(), Fail> {
    check_deliveries(&rt, rt.alloc(), &DELIVERIES)
}

/// What a judgement says: hash, verdict and ticket of the entry, how many tries it has, and of the
/// offer how many bytes are to be kept, the hash and the packet type.
type Said = (u32, u32, Option<u64>, usize, Option<(u32, u32, u8)>);

/// What a group's rules say of an arrival of CPU 0 with these bytes.
fn said(
    alloc: Global,
    rules: &ArrivalRules<'_>,
    bytes: &[u8],
    ticket: Option<u64>,
) -> Result<Said, Memory>
    requires room { 82 < rules.now.room }
{
    let judged = rules.judge(alloc, arrival(alloc, 0, 0, bytes)?, ticket);
    let entry = judged.entry;
    let offer = judged.offer;
    Ok((
        entry.hash,
        entry.verdict,
        entry.ticket,
        entry.tries.len(),
        offer.map(|offer| (offer.snap, offer.hash, offer.pkttype)),
    ))
}

/// A filter, as `tcpdump -ddd ip` writes it, that keeps 40 bytes.
const IP_40: &[u8] = b"4\n40 0 0 12\n21 0 1 2048\n6 0 0 40\n6 0 0 0\n";

/// The flow hash of the frame `THERE`.
const HASH: u32 = 0x51cc_c178;

#[test]
fn a_judgement_by_itself(rt: HostRuntime) -> Result<(), Fail> {
    let alloc = rt.alloc();
    let key = Key::from_hex(alloc, DIGITS)?;
    let filter = Program::check(alloc, read_ddd(alloc, IP_40)?)?;
    let keyed = ArrivalRules {
        key: Some(&key),
        ..OPEN
    };
    let filtered = ArrivalRules {
        filter: Some(&filter),
        ..keyed
    };
    let short = ArrivalRules { room: 112, ..OPEN };
    let said = [
        said(alloc, &OPEN, THERE, None)?,
        said(alloc, &keyed, THERE, Some(9))?,
        said(alloc, &filtered, THERE, None)?,
        said(alloc, &filtered, ARP, Some(4))?,
        said(alloc, &short, ARP, None)?,
    ];
    assert_eq!(rt;
        said,
        [
            (0, u32::MAX, None, 0, Some((60, 0, 0))),
            (HASH, u32::MAX, Some(9), 0, Some((60, HASH, 0))),
            (HASH, 40, None, 0, Some((40, HASH, 0))),
            (0, 0, Some(4), 0, None),
            (0, u32::MAX, None, 0, Some((30, 0, 0))),
        ]
    );
    Ok(())
}
