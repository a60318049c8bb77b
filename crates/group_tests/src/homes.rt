//! Which groups are valid, and the member that an arrival is for if each member has room.
ghost use Rattle.std.specs.Prelude.{◌≡◌, ◌<◌, length, IfOk};
ghost use Rattle.fanout_group.specs.Arrivals.{IsArrival};

use crate::deliveries::{DIGITS, OPEN, arrival, take};
use crate::list_desk::ListDesk;
use fanout_group::{ArrivalRules, Fate, Mode, Plan, PlanError, ReceivePath, Try};
use flow_hash::Key;
use frame_view::{ByteList, Frame, Memory, Parts, build};
use std::alloc::Global;
use std::process::Abort;
use std::test::Fail;

const ROLLOVER: u32 = 0x1000;

const DEFRAG: u32 = 0x8000;

const BOTH: u32 = 0x9000;

/// The members, the mode, the flags, whether there is a key, and what is wrong with it.
type Group = (u32, Mode, u32, bool, Option<PlanError>);

static GROUPS: [Group; 8] = [
    (0, Mode::Hash, ROLLOVER, false, Some(PlanError::NoMember)),
    (9, Mode::Hash, 0, false, Some(PlanError::TooMany)),
    (9, Mode::Rollover, ROLLOVER, true, Some(PlanError::TooMany)),
    (
        8,
        Mode::Rollover,
        ROLLOVER,
        true,
        Some(PlanError::BackupOfRollover),
    ),
    (1, Mode::Hash, DEFRAG, false, Some(PlanError::NoKey)),
    (8, Mode::Hash, BOTH, true, None),
    (1, Mode::Rollover, DEFRAG, false, None),
    (8, Mode::Qm, ROLLOVER, false, None),
];

/// Compares the fault of each group with its row.
fn check_groups(rt: &impl Abort, groups: &[Group]) {
    for (members, mode, flags, has_key, want) in groups {
        let flags = *flags;
        assert!(rt; flags == 0 || flags == ROLLOVER || flags == DEFRAG || flags == BOTH);
        let checked = Plan::check(*members, *mode, flags, *has_key);
        assert_eq!(rt;
            (*members, *mode, flags, checked.err()),
            (*members, *mode, flags, *want)
        );
    }
}

#[test]
fn the_first_fault_of_a_group(rt: HostRuntime) -> Result<(), Fail> {
    check_groups(&rt, &GROUPS);
    let plan = Plan::check(8, Mode::Lb, BOTH, false)?;
    assert_eq!(rt;
        (plan.members(), plan.mode(), plan.flags()),
        (8, Mode::Lb, BOTH)
    );
    Ok(())
}

/// The member that keeps an arrival, if each member has room.
fn member_of(
    alloc: Global,
    plan: Plan,
    rules: &ArrivalRules<'_>,
    arrival: Frame,
) -> Result<Option<u32>, Memory>
    requires arrival { IsArrival arrival }
    requires room { 82 < rules.now.room }
{
    let mut desk = ListDesk {
        rooms: vec![in alloc; 1; plan.members() as usize]?,
        ticket: 0,
        memory: u32::MAX,
    };
    let mut path = ReceivePath::new(alloc, plan);
    take(alloc, &mut path, rules, &mut desk, arrival)?;
    match path.into_log().get(0) {
        Some(entry) => Ok(keeper(entry.tries.as_slice())),
        None => Ok(None),
    }
}

/// The member of a single try that kept a packet.
fn keeper(tries: &[Try]) -> Option<u32> {
    match tries {
        [
            Try {
                member,
                fate: Fate::Kept,
            },
        ] => Some(*member),
        _ => None,
    }
}

/// How many members there are, a CPU, its queue, and the members by CPU and by queue.
type Home = (u32, u32, u32, u32, u32);

static HOMES: [Home; 5] = [
    (3, 0, 5, 0, 2),
    (3, 1, 6, 1, 0),
    (3, 5, 1, 2, 1),
    (1, 7, 7, 0, 0),
    (8, 7, 4_294_967_295, 7, 7),
];

/// The members of an arrival by its CPU and by its queue.
fn homes_of(alloc: Global, home: &Home) -> Result<(Option<u32>, Option<u32>), Fail> {
    let (members, cpu, queue, _, _) = *home;
    let rules = ArrivalRules { queue, ..OPEN };
    let plan = Plan::check(members, Mode::Cpu, 0, false)?;
    let by_cpu = member_of(alloc, plan, &rules, arrival(alloc, cpu, 0, &[])?)?;
    let plan = Plan::check(members, Mode::Qm, 0, false)?;
    let by_queue = member_of(alloc, plan, &rules, arrival(alloc, cpu, 0, &[])?)?;
    Ok((by_cpu, by_queue))
}

/// Compares the members of each row's arrival with the row.
fn check_homes(rt: &impl Abort, alloc: Global, homes: &[Home]) -> Result<(), Fail> {
    for home in homes {
        let (members, cpu, queue, by_cpu, by_queue) = *home;
        let (at_cpu, at_queue) = homes_of(alloc, home)?;
        assert_eq!(rt;
            (members, cpu, queue, at_cpu, at_queue),
            (members, cpu, queue, Some(by_cpu), Some(by_queue))
        );
    }
    Ok(())
}

#[test]
fn homes_by_cpu_and_by_queue(rt: HostRuntime) -> Result<(), Fail> {
    check_homes(&rt, rt.alloc(), &HOMES)
}

/// A frame with a UDP datagram from one address and port to another.
fn datagram(alloc: Global, source: (u32, u16), dest: (u32, u16)) -> Result<Frame, Memory>
    ensures { IfOk result IsArrival }
{
    let parts = Parts {
        to: [2, 0, 0, 0, 0, 2],
        from: [2, 0, 0, 0, 0, 1],
        ident: 0,
        source: source.0,
        dest: dest.0,
        sport: source.1,
        dport: dest.1,
        payload: ByteList::new(alloc),
    };
    let bytes = build(alloc, &parts)?;
    arrival(alloc, 0, 0, bytes.as_slice())
}

/// The members of a flow's datagrams, there and back.
fn members_of(
    alloc: Global,
    plan: Plan,
    rules: &ArrivalRules<'_>,
    flow: u16,
) -> Result<(Option<u32>, Option<u32>), Memory>
    requires room { 82 < rules.now.room }
    requires few { flow < 100 }
{
    let host = (0x0a00_0001 + u32::from(flow), 1000 + flow);
    let port = (0x0a00_0032, 80);
    let out = member_of(alloc, plan, rules, datagram(alloc, host, port)?)?;
    let back = member_of(alloc, plan, rules, datagram(alloc, port, host)?)?;
    Ok((out, back))
}

#[test]
fn both_directions_of_a_flow_have_one_member(rt: HostRuntime) -> Result<(), Fail> {
    let alloc = rt.alloc();
    let key = Key::from_hex(alloc, DIGITS)?;
    let rules = ArrivalRules {
        key: Some(&key),
        ..OPEN
    };
    let plan = Plan::check(4, Mode::Hash, 0, true)?;
    for flow in 0..100_u16 {
        let (out, back) = members_of(alloc, plan, &rules, flow)?;
        assert!(rt; out.is_some() && out == back, "flow {flow}");
    }
    Ok(())
}
