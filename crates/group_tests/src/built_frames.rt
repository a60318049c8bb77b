//! Frames that were built, compared with those that another program built from the same parts.
ghost use Rattle.std.specs.Prelude.{◌≡◌, ◌≤◌, length, IfOk};

use frame_view::{ByteList, Memory, Parts, build};
use std::alloc::Global;
use std::test::Fail;

/// The bytes in hexadecimal digits.
pub(crate) fn digits(alloc: Global, bytes: &[u8]) -> Result<String, Memory> {
    let mut text = String::new(alloc);
    for byte in bytes {
        text.push_str(&format!(in alloc; "{byte:02x}")?)?;
    }
    Ok(text)
}

/// The parts of a datagram of five bytes.
fn hello(alloc: Global) -> Result<Parts, Memory>
    ensures { IfOk result (λ parts. length parts.payload ≤ 1472) }
{
    Ok(Parts {
        to: [0x02, 0, 0, 0, 0, 0x02],
        from: [0x02, 0, 0, 0, 0, 0x01],
        ident: 0x1234,
        source: 0x0a00_0001,
        dest: 0x0a01_0002,
        sport: 1024,
        dport: 53,
        payload: ByteList::from_vec(b"hello".to_vec(alloc)?),
    })
}

/// The parts of a datagram of 1,472 zeros, whose other fields are large.
fn large(alloc: Global) -> Result<Parts, Memory>
    ensures { IfOk result (λ parts. length parts.payload ≤ 1472) }
{
    Ok(Parts {
        to: [0x02, 0, 0, 0, 0, 0x02],
        from: [0x02, 0, 0, 0, 0, 0x01],
        ident: 0xffff,
        source: 0x0a00_ffff,
        dest: 0x0a01_00ff,
        sport: 5119,
        dport: 53,
        payload: ByteList::from_vec(vec![in alloc; 0; 1472]?),
    })
}

#[test]
fn builds_a_short_frame(rt: HostRuntime) -> Result<(), Fail> {
    let frame = build(rt.alloc(), &hello(rt.alloc())?)?;
    assert_eq!(rt;
        digits(rt.alloc(), frame.as_slice())?.as_str(),
        "02000000000202000000000108004500002112344000401114950a0000010a01000204000035000d000068656c6c6f"
    );
    Ok(())
}

#[test]
fn builds_a_long_frame(rt: HostRuntime) -> Result<(), Fail> {
    let frame = build(rt.alloc(), &large(rt.alloc())?)?;
    assert_eq!(rt; frame.len(), 1514);
    assert_eq!(rt;
        digits(rt.alloc(), frame.as_slice().get(14..42).unwrap_or(&[]))?.as_str(),
        "450005dcffff4000401120120a00ffff0a0100ff13ff003505c80000"
    );
    Ok(())
}
