//! The lines that runs print.
use crate::reports::{Cpu, Member, printed, printed_forward, printed_slots};
use capture_file::CpuEnd;
use frame_view::Memory;

/// Without a filter every frame passes whole.
const PASS: u32 = 4_294_967_295;

/// A name, the time-out, the CPUs, the members, and the lines.
type Row<'a> = (&'a str, u64, &'a [Cpu<'a>], &'a [Member<'a>], &'a str);

static ROWS: [Row<'static>; 7] = [
    (
        "no frame",
        0,
        &[(0, &[], CpuEnd::Whole)],
        &[(".", &[], 0)],
        "cpu 0 frames 0 arrivals 0 end ok
member 0 packets 0 drops 0 freezes 0 blocks 0
total arrivals 0 filtered 0 kept 0 drops 0
",
    ),
    (
        "three frames",
        0,
        &[(3, &[PASS; 3], CpuEnd::Whole)],
        &[("kkk.", &[], 1)],
        "cpu 0 frames 3 arrivals 3 end ok
member 0 packets 3 drops 0 freezes 0 blocks 1
total arrivals 3 filtered 0 kept 3 drops 0
",
    ),
    (
        "drops",
        0,
        &[(7, &[PASS; 7], CpuEnd::Whole)],
        &[("kknkddd.", &[], 2)],
        "cpu 0 frames 7 arrivals 7 end ok
member 0 packets 7 drops 3 freezes 1 blocks 2
total arrivals 7 filtered 0 kept 4 drops 3
",
    ),
    (
        "statistics",
        0,
        &[(7, &[PASS; 7], CpuEnd::Whole)],
        &[("kknkdnck.", &[], 3)],
        "cpu 0 frames 7 arrivals 7 end ok
member 0 packets 7 drops 1 freezes 1 blocks 3
count 0 packets 6 drops 1 freezes 1
total arrivals 7 filtered 0 kept 6 drops 1
",
    ),
    (
        "rollover",
        0,
        &[(9, &[PASS; 9], CpuEnd::Whole)],
        &[("kknkrrrrrd.", &[], 2), ("kknkr.", &[], 2)],
        "cpu 0 frames 9 arrivals 9 end ok
member 0 packets 5 drops 1 freezes 1 blocks 2
member 1 packets 4 drops 0 freezes 0 blocks 2
total arrivals 9 filtered 0 kept 8 drops 1
",
    ),
    (
        "filtered",
        0,
        &[(3, &[96, 0, 96], CpuEnd::Whole), (2, &[0], CpuEnd::Fault)],
        &[("kk.", &[], 1)],
        "cpu 0 frames 3 arrivals 3 end ok
cpu 1 frames 2 arrivals 1 end fault
member 0 packets 2 drops 0 freezes 0 blocks 1
total arrivals 4 filtered 2 kept 2 drops 0
",
    ),
    (
        "ticks",
        5,
        &[],
        &[("tktcHccdTkd.", &[5, 9, 10, 15], 2)],
        "member 0 packets 4 drops 2 freezes 2 blocks 2
count 0 packets 1 drops 0 freezes 0
count 0 packets 0 drops 0 freezes 1
count 0 packets 0 drops 0 freezes 0
total arrivals 0 filtered 0 kept 2 drops 2
",
    ),
];

#[test]
fn prints_the_lines_of_runs(rt: HostRuntime) -> Result<(), Memory> {
    for (name, tov, cpus, members, lines) in &ROWS {
        let text = printed(rt.alloc(), *tov, cpus, members)?;
        assert_eq!(rt; text.as_slice(), lines.as_bytes(), "{name}");
    }
    Ok(())
}

#[test]
fn prints_no_freeze_of_slots(rt: HostRuntime) -> Result<(), Memory> {
    let text = printed_slots(
        rt.alloc(),
        &[(8, &[PASS; 8], CpuEnd::Whole)],
        &[("nnnndcnd.", &[], 5), ("r.", &[], 0)],
    )?;
    let lines = "cpu 0 frames 8 arrivals 8 end ok
member 0 packets 7 drops 2 freezes 0 blocks 5
count 0 packets 5 drops 1 freezes 0
member 1 packets 0 drops 0 freezes 0 blocks 0
total arrivals 8 filtered 0 kept 5 drops 2
";
    assert_eq!(rt; text.as_slice(), lines.as_bytes());
    Ok(())
}

#[test]
fn prints_what_members_sent(rt: HostRuntime) -> Result<(), Memory> {
    let text = printed_forward(
        rt.alloc(),
        &[(12, &[PASS; 12], CpuEnd::Whole)],
        &[("kk.", &[], 1), ("kkkkkkkkkk.", &[], 1)],
        &[(2, 0), (3, 7)],
    )?;
    let lines = "cpu 0 frames 12 arrivals 12 end ok
member 0 packets 2 drops 0 freezes 0 blocks 1
forward 0 sent 2 skipped 0
member 1 packets 10 drops 0 freezes 0 blocks 1
forward 1 sent 3 skipped 7
total arrivals 12 filtered 0 kept 12 drops 0
";
    assert_eq!(rt; text.as_slice(), lines.as_bytes());
    Ok(())
}
