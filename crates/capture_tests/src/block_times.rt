//! Time stamps in the units that an interface can state, and times that don't fit.
use crate::decoded_blocks::{decode, seen};
use crate::written_blocks::{push_enhanced, push_section, push_timed};
use frame_view::{Frames, Memory};
use pcapng_blocks::Order;
use std::alloc::Global;
use std::process::Abort;
use std::test::Fail;

/// A name, a time resolution, the upper and lower half of a stamp, and its seconds and nanoseconds.
type Row = (&'static str, u8, u32, u32, u32, u32);

static ROWS: [Row; 16] = [
    ("seconds", 0, 0, 1_700_000_000, 1_700_000_000, 0),
    ("milliseconds", 3, 0, 1_234, 1, 234_000_000),
    ("microseconds", 6, 0, 1_000_002, 1, 2_000),
    ("nanoseconds", 9, 0, 1_999_999_999, 1, 999_999_999),
    (
        "a date",
        9,
        395_812_094,
        1_032_178_965,
        1_700_000_000,
        123_456_789,
    ),
    ("a tenth of a nanosecond", 10, 2, 1_410_065_417, 1, 0),
    ("10 to the -12", 12, 0, 1_999, 0, 1),
    ("10 to the -28", 28, 0xffff_ffff, 0xffff_ffff, 0, 1),
    ("10 to the -29", 29, 0xffff_ffff, 0xffff_ffff, 0, 0),
    ("10 to the -127", 127, 0xffff_ffff, 0xffff_ffff, 0, 0),
    ("2 to the -10", 0x8a, 0, 1_025, 1, 976_562),
    ("2 to the 0", 0x80, 0, 7, 7, 0),
    (
        "2 to the -63",
        0xbf,
        0xffff_ffff,
        0xffff_ffff,
        1,
        999_999_999,
    ),
    ("2 to the -127", 0xff, 0xffff_ffff, 0xffff_ffff, 0, 0),
    ("seconds beyond 32 bits", 0, 1, 5, 4_294_967_295, 0),
    (
        "microseconds beyond",
        6,
        0xffff_ffff,
        0xffff_ffff,
        4_294_967_295,
        551_615_000,
    ),
];

/// A capture of one packet with the stamp of a row.
fn timed(alloc: Global, order: Order, row: &Row) -> Result<Vec<u8>, Memory> {
    let (_, resolution, upper, lower, _, _) = row;
    let mut bytes = Vec::new(alloc);
    push_section(&mut bytes, order)?;
    push_timed(&mut bytes, order, *resolution)?;
    push_enhanced(&mut bytes, order, 0, *upper, *lower, 4)?;
    Ok(bytes)
}

/// Compares the time of each row's packet, written in a byte order, with the row.
fn check_times(rt: &impl Abort, alloc: Global, order: Order, rows: &[Row]) -> Result<(), Fail> {
    for row in rows {
        let bytes = timed(alloc, order, row)?;
        let mut frames = Frames::new(alloc);
        let answer = decode(alloc, bytes.as_slice(), 4096, &mut frames);
        let time = Some(((3, 0), (row.4, row.5), 4));
        assert_eq!(rt;
            (row.0, answer, frames.len(), seen(frames.get(0))),
            (row.0, (None, (Ok(()), 0)), 1, time)
        );
    }
    Ok(())
}

#[test]
fn reads_each_unit(rt: HostRuntime) -> Result<(), Fail> {
    let rows = ROWS.as_slice();
    check_times(&rt, rt.alloc(), Order::Little, rows)?;
    check_times(&rt, rt.alloc(), Order::Big, rows)
}
