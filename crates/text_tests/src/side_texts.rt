//! Moments, schedules and filters: the first fault of each that is refused, and what the others are
//! read as.
use crate::answers::{Reading, Row, check_rows};
use frame_view::Memory;
use setup_text::{Line, TextError, Which, read_filter, read_schedule, read_ticks};

/// Texts of moments, and the first fault.
static MOMENTS: [Row; 7] = [
    ("1\n2 3\n", "ticks line 2: bad_line\n"),
    ("1\n\u{e9}\n", "ticks line 2: bad_line\n"),
    ("x\n", "ticks line 1: bad_number\n"),
    ("# x\n\n4294967296\n", "ticks line 3: bad_number\n"),
    ("00000000001\n", "ticks line 1: bad_number\n"),
    ("5\n5\n4\n", "ticks line 3: not_ascending\n"),
    ("5\n4 x\n", "ticks line 2: bad_line\n"),
];

#[test]
fn refuses_moments(rt: HostRuntime) -> Result<(), Memory> {
    check_rows(&rt, rt.alloc(), Reading::Side(Which::Ticks), &MOMENTS)
}

#[test]
fn reads_moments(rt: HostRuntime) -> Result<(), TextError> {
    let moments = read_ticks(rt.alloc(), b"# at first\n0\n8\r\n\n 8 \n4294967295")?;
    assert_eq!(rt; moments.as_slice(), [0, 8, 8, 4_294_967_295].as_slice());
    Ok(())
}

/// Schedules for two CPUs and three members, and the first fault.
static SCHEDULES: [Row; 14] = [
    ("feed 0\nfeed 2\n", "schedule line 2: no_such_cpu\n"),
    ("read 3\n", "schedule line 1: no_such_member\n"),
    ("stats 3\n", "schedule line 1: no_such_member\n"),
    ("tick 5\ntick 4\n", "schedule line 2: not_ascending\n"),
    (
        "tick 5\nfeed 0\n# tick 9\ntick 5\ntick 4\n",
        "schedule line 5: not_ascending\n",
    ),
    ("feed\n", "schedule line 1: bad_line\n"),
    ("feed 0 1\n", "schedule line 1: bad_line\n"),
    ("feed x\n", "schedule line 1: bad_number\n"),
    ("read -1\n", "schedule line 1: bad_number\n"),
    ("tick 12345678901\n", "schedule line 1: bad_number\n"),
    ("stats 4294967296\n", "schedule line 1: bad_number\n"),
    ("Feed\n", "schedule line 1: unknown_word\n"),
    ("walk 0 \u{7f}\n", "schedule line 1: bad_line\n"),
    ("feed 9\nwalk 0\n", "schedule line 1: no_such_cpu\n"),
];

#[test]
fn refuses_schedules(rt: HostRuntime) -> Result<(), Memory> {
    check_rows(&rt, rt.alloc(), Reading::Side(Which::Schedule), &SCHEDULES)
}

#[test]
fn reads_a_schedule(rt: HostRuntime) -> Result<(), TextError> {
    let text = b"# two\nfeed 1\n\ntick 7\r\nread\t2\nstats 0\ntick 7";
    let lines = [
        Line::Feed(1),
        Line::Tick(7),
        Line::Read(2),
        Line::Stats(0),
        Line::Tick(7),
    ];
    let schedule = read_schedule(rt.alloc(), text, 2, 3)?;
    assert_eq!(rt; schedule.as_slice(), lines.as_slice());
    Ok(())
}

/// Filters, and the first fault.
static FILTERS: [Row; 10] = [
    ("1\n0 0 0 5\n", "filter line 2: no_return\n"),
    ("2\n0 0 0 5\n0 0 0 6\n", "filter line 3: no_return\n"),
    ("2\n52 0 0 0\n6 0 0 0\n", "filter line 2: bad_constant\n"),
    ("2\n5 0 0 1\n6 0 0 0\n", "filter line 2: bad_jump\n"),
    ("2\n2 0 0 16\n6 0 0 0\n", "filter line 2: bad_memory\n"),
    ("2\n6 0 0 0\n", "filter line 1: bad_count\n"),
    ("1\n255 0 0 0\n", "filter line 2: bad_code\n"),
    (
        "2\n32 0 0 4294963220\n6 0 0 0\n",
        "filter line 2: bad_ancillary\n",
    ),
    ("2\n0 0 0 5\n255 0 0 0\n", "filter line 3: bad_code\n"),
    ("3\n6 0 0 0\n6 0 0\n", "filter line 3: bad_line\n"),
];

#[test]
fn refuses_filters(rt: HostRuntime) -> Result<(), Memory> {
    check_rows(&rt, rt.alloc(), Reading::Side(Which::Filter), &FILTERS)
}

#[test]
fn reads_a_filter(rt: HostRuntime) -> Result<(), TextError> {
    let text = b"4\n40 0 0 12\n21 0 1 2048\n6 0 0 96\n6 0 0 0\n";
    assert_eq!(rt; read_filter(rt.alloc(), text)?.code().len(), 4);
    Ok(())
}
