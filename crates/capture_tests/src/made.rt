//! Captures and a schedule that another program worked out.
use made_captures::{made_schedule, made_sources};
use setup_text::Line;
use std::alloc::Global;
use std::process::Abort;
use std::test::Fail;
use tap_outside::{Failed, Source, SureSource};

/// The number of bytes that a source gives, and their FNV-1a of 32 bits.
fn told(source: &mut SureSource) -> Result<(usize, u32), Failed> {
    let mut len = 0usize;
    let mut hash = 0x811c_9dc5u32;
    for _ in 0..256 {
        let mut piece = [0; 4096];
        let given = source.read(&mut piece)?;
        for byte in &piece[..given] {
            hash = (hash ^ u32::from(*byte)).wrapping_mul(0x0100_0193);
        }
        len = len.wrapping_add(given);
    }
    Ok((len, hash))
}

/// The same of a source that is there, and can be read.
fn told_of(source: Option<SureSource>) -> Option<(usize, u32)> {
    told(&mut source?).ok()
}

/// The captures of `count` frames of a seed have, for each CPU, this length and this hash of its
/// bytes.
fn check_seed(
    rt: &impl Abort,
    alloc: Global,
    (seed, count): (u64, u32),
    texts: &[(usize, u32)],
) -> Result<(), Fail> {
    let cpus = u32::try_from(texts.len()).unwrap_or(0);
    assert!(rt; count <= 20000 && cpus > 0);
    let sources = made_sources(alloc, seed, count, cpus)?;
    assert_eq!(rt; sources.len(), texts.len());
    for (cpu, source) in sources.into_iter().enumerate() {
        let want = texts.get(cpu).copied();
        assert_eq!(rt; (seed, cpu, told_of(source)), (seed, cpu, want));
    }
    Ok(())
}

#[test]
fn makes_the_captures_of_a_seed(rt: HostRuntime) -> Result<(), Fail> {
    let two = [(2484, 0x9b31_e355), (1025, 0xa2c2_4622)];
    check_seed(&rt, rt.alloc(), (1, 5), &two)?;
    let three = [
        (641_228, 0x7c5d_9f2e),
        (636_966, 0xeb81_cd29),
        (641_009, 0x5da0_f941),
    ];
    check_seed(&rt, rt.alloc(), (u64::MAX, 2500), &three)?;
    let four = [
        (1085, 0x6b36_f6e3),
        (493, 0x735f_143c),
        (24, 0x7540_f3a2),
        (24, 0x7540_f3a2),
    ];
    check_seed(&rt, rt.alloc(), (7, 2), &four)
}

#[test]
fn reads_twice_after_64_feeds(rt: HostRuntime) -> Result<(), Fail> {
    let lines = made_schedule(rt.alloc(), 65, 2, 2)?;
    assert_eq!(rt; lines.len(), 69);
    for (at, line) in lines.as_slice().iter().enumerate() {
        let expected = match at {
            64 | 65 => Line::Read(0),
            66 | 67 => Line::Read(1),
            _ if at % 2 == 0 => Line::Feed(0),
            _ => Line::Feed(1),
        };
        assert_eq!(rt; *line, expected, "line {at}");
    }
    Ok(())
}
