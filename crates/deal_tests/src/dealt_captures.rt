//! What two members are given of three files of two CPUs. The sums are worked out by hand.
use capture_file::CpuEnd;
use capture_reading::Buffer;
use fanout_group::{ArrivalRules, Mode, Plan};
use frame_deals::{CpuDeal, Dealt, DealtList, FileReading, deal};
use frame_view::{ByteList, Memory, MomentList};
use std::alloc::Global;
use std::process::Abort;
use std::test::Fail;
use tap_outside::MemSource;

/// The first file of CPU 0: a header of 24 bytes, for times in nanoseconds with the lowest byte
/// first, and three records, each of 16 bytes and its frame. Times and bytes: 5.000000003, 14;
/// 5.000000001, 13, which is a runt and older; 6, 14.
static FIRST: [u8; 113] = [
    0x4d, 0x3c, 0xb2, 0xa1, 2, 0, 4, 0, 0, 0, 0, 0, 0, 0, 0, 0, 0, 0, 4, 0, 1, 0, 0, 0, // header
    5, 0, 0, 0, 3, 0, 0, 0, 14, 0, 0, 0, 14, 0, 0, 0, // first record
    2, 0, 0, 0, 0, 1, 2, 0, 0, 0, 0, 2, 8, 0, // its frame
    5, 0, 0, 0, 1, 0, 0, 0, 13, 0, 0, 0, 13, 0, 0, 0, // second record
    2, 0, 0, 0, 0, 1, 2, 0, 0, 0, 0, 2, 8, // its frame
    6, 0, 0, 0, 0, 0, 0, 0, 14, 0, 0, 0, 14, 0, 0, 0, // third record
    2, 0, 0, 0, 0, 1, 2, 0, 0, 0, 0, 2, 8, 0, // its frame
];

/// The further file of CPU 0, with a frame that is older than the last one before it: 5.000000009,
/// 22.
static FURTHER: [u8; 62] = [
    0x4d, 0x3c, 0xb2, 0xa1, 2, 0, 4, 0, 0, 0, 0, 0, 0, 0, 0, 0, 0, 0, 4, 0, 1, 0, 0, 0, // header
    5, 0, 0, 0, 9, 0, 0, 0, 22, 0, 0, 0, 22, 0, 0, 0, // first record
    2, 0, 0, 0, 0, 1, 2, 0, 0, 0, 0, 2, 8, 0, 1, 2, 3, 4, 5, 6, 7, 8, // its frame
];

/// The file of CPU 1: 5.000000003, 22; 5.000000004, 14.
static OTHER: [u8; 92] = [
    0x4d, 0x3c, 0xb2, 0xa1, 2, 0, 4, 0, 0, 0, 0, 0, 0, 0, 0, 0, 0, 0, 4, 0, 1, 0, 0, 0, // header
    5, 0, 0, 0, 3, 0, 0, 0, 22, 0, 0, 0, 22, 0, 0, 0, // first record
    2, 0, 0, 0, 0, 1, 2, 0, 0, 0, 0, 2, 8, 0, 1, 2, 3, 4, 5, 6, 7, 8, // its frame
    5, 0, 0, 0, 4, 0, 0, 0, 14, 0, 0, 0, 14, 0, 0, 0, // second record
    2, 0, 0, 0, 0, 1, 2, 0, 0, 0, 0, 2, 8, 0, // its frame
];

/// A moment in nanoseconds after 5.000000003, and the bytes of a block that a frame takes: 82 and
/// its own, rounded up to 8 together.
type Given = (u64, u32);

/// A mode, and what members 0 and 1 are given. In mode lb the tickets are, in order: the first
/// frame of CPU 0, that of CPU 1 at the same moment, the second of CPU 1, the third of CPU 0 and
/// that of its further file, which comes right after it.
static ROWS: [(Mode, &[Given], &[Given]); 2] = [
    (
        Mode::Cpu,
        &[(0, 96), (999_999_997, 96), (999_999_997, 104)],
        &[(0, 104), (1, 96)],
    ),
    (
        Mode::Lb,
        &[(0, 96), (1, 96), (999_999_997, 104)],
        &[(0, 104), (999_999_997, 96)],
    ),
];

/// Reads a file of a CPU, if it can be opened, 50 bytes at a time.
fn read(alloc: Global, cpu: &mut CpuDeal, file: Option<&[u8]>) -> Result<FileReading, Memory> {
    let rules = ArrivalRules {
        key: None,
        filter: None,
        own: None,
        queue: 0,
        room: 4048,
    };
    let mut buffer = Buffer::new(alloc)?;
    let mut source = match file {
        Some(bytes) => {
            let bytes = ByteList::from_vec(bytes.to_vec(alloc)?);
            Some(MemSource::new(bytes, 50, MomentList::new(alloc)))
        }
        None => None,
    };
    cpu.read_file(alloc, &mut buffer, &rules, &mut source)
}

/// What the members are given of the three files.
fn dealt(alloc: Global, plan: Plan) -> Result<Dealt, Memory> {
    let mut one = CpuDeal::new(alloc, 0, plan);
    read(alloc, &mut one, Some(&FIRST))?;
    read(alloc, &mut one, Some(&FURTHER))?;
    let mut other = CpuDeal::new(alloc, 1, plan);
    read(alloc, &mut other, Some(&OTHER))?;
    let cpus = vec![in alloc; one, other]?;
    deal(alloc, &plan, cpus)
}

/// What a member is given, as a row has it.
fn given(alloc: Global, dealt: &Dealt, member: usize) -> Result<Vec<Given>, Memory> {
    let mut given = Vec::new(alloc);
    let Some(arrivals) = dealt.members.get(member) else {
        return Ok(given);
    };
    for arrival in arrivals.as_slice() {
        given.push((arrival.at, arrival.need))?;
    }
    Ok(given)
}

/// Compares what the members are given with each row.
fn check_rows(
    rt: &impl Abort,
    alloc: Global,
    rows: &[(Mode, &[Given], &[Given])],
) -> Result<(), Fail> {
    for (mode, first, second) in rows {
        let plan = Plan::check(2, *mode, 0, false)?;
        let dealt = dealt(alloc, plan)?;
        let (one, other) = (given(alloc, &dealt, 0)?, given(alloc, &dealt, 1)?);
        assert_eq!(rt;
            (
                *mode,
                one.as_slice(),
                other.as_slice(),
                dealt.end,
                dealt.members.len()
            ),
            (*mode, *first, *second, 999_999_997, 2)
        );
    }
    Ok(())
}

#[test]
fn members_are_given_frames_in_the_order_of_their_moments(rt: HostRuntime) -> Result<(), Fail> {
    check_rows(&rt, rt.alloc(), &ROWS)
}

#[test]
fn a_file_has_its_numbers(rt: HostRuntime) -> Result<(), Fail> {
    let plan = Plan::check(1, Mode::Cpu, 0, false)?;
    let mut cpu = CpuDeal::new(rt.alloc(), 0, plan);
    let first = read(rt.alloc(), &mut cpu, Some(&FIRST))?;
    let missing = read(rt.alloc(), &mut cpu, None)?;
    let further = read(rt.alloc(), &mut cpu, Some(&FURTHER))?;
    assert_eq!(rt;
        (first.frames, first.arrivals, first.given, first.end),
        (3, 2, 113, CpuEnd::Whole)
    );
    assert_eq!(rt;
        (missing.frames, missing.arrivals, missing.given, missing.end),
        (0, 0, 0, CpuEnd::Fault)
    );
    assert_eq!(rt;
        (further.frames, further.arrivals, further.given, further.end),
        (1, 1, 62, CpuEnd::Whole)
    );
    assert_eq!(rt; (cpu.frames(), cpu.arrivals()), (4, 3));
    Ok(())
}

#[test]
fn frames_last_too_long(rt: HostRuntime) -> Result<(), Fail> {
    let dealt = |end| Dealt {
        members: Vec::<DealtList>::new(rt.alloc()),
        end,
    };
    assert!(rt; !dealt(4_294_967_295_000_000).lasts_too_long());
    assert!(rt; dealt(4_294_967_295_000_001).lasts_too_long());
    Ok(())
}
