//! Frames of a seed, made by another program.
ghost use Rattle.std.specs.Prelude.{◌≤◌};

use crate::built_frames::digits;
use frame_maker::make;
use frame_view::{Frame, Memory};
use std::alloc::Global;
use std::process::Abort;
use std::test::Fail;

/// FNV-1a of 32 bits, over bytes that follow others.
fn fnv(bytes: &[u8], before: u32) -> u32 {
    let mut hash = before;
    for byte in bytes {
        hash = (hash ^ u32::from(*byte)).wrapping_mul(0x0100_0193);
    }
    hash
}

/// FNV-1a of no bytes.
const START: u32 = 0x811c_9dc5;

/// FNV-1a of the bytes of all frames.
fn fnv_of_all(frames: &[Frame]) -> u32 {
    let mut hash = START;
    for frame in frames {
        hash = fnv(frame.bytes.as_slice(), hash);
    }
    hash
}

/// The hash of all bytes of the first n frames of a seed.
fn check_seed(rt: &impl Abort, alloc: Global, seed: u64, count: u32, want: u32) -> Result<(), Fail>
    requires { count ≤ 20000 }
{
    let frames = make(alloc, seed, count)?;
    assert_eq!(rt; fnv_of_all(frames.as_slice()), want, "seed {seed}");
    Ok(())
}

#[test]
fn makes_all_bytes_of_a_seed(rt: HostRuntime) -> Result<(), Fail> {
    check_seed(&rt, rt.alloc(), 1, 20000, 0x565d_58e7)?;
    check_seed(&rt, rt.alloc(), u64::MAX, 3, 0xca08_9b75)
}

/// The headers of a frame, in hexadecimal digits.
fn headers(alloc: Global, frame: &Frame) -> Result<String, Memory> {
    digits(alloc, frame.bytes.as_slice().get(..42).unwrap_or(&[]))
}

#[test]
fn makes_headers_and_times(rt: HostRuntime) -> Result<(), Fail> {
    let frames = make(rt.alloc(), 1, 20000)?;
    let last = frames.get(19999).ok_or("the last frame")?;
    assert_eq!(rt; (last.sec, last.nsec), (19, 999_000_000));
    assert_eq!(rt;
        headers(rt.alloc(), last)?.as_str(),
        "0200000000020200000000010800450004a54e1f40004011c7df0a000bed0a01005c0f29003504910000"
    );
    Ok(())
}
