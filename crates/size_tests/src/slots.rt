//! Rings of slots, with numbers from a second program: a ring by its rules in Python.
use crate::paced_frames::list_of;
use ring_model::Stats;
use ring_sizes::{Arrival, DropRange, Reached, StallTime, Timing, Tries};
use slot_sizes::{least_slots_at, least_slots_of_all, slot_losses_at, slot_losses_of_all};
use std::test::Fail;

const ARRIVALS: [Arrival; 11] = [
    Arrival { at: 0, need: 1 },
    Arrival {
        at: 1_000_000,
        need: 1,
    },
    Arrival {
        at: 2_000_000,
        need: 1,
    },
    Arrival {
        at: 2_000_000,
        need: 1,
    },
    Arrival {
        at: 3_000_000,
        need: 1,
    },
    Arrival {
        at: 9_000_000,
        need: 1,
    },
    Arrival {
        at: 10_000_000,
        need: 1,
    },
    Arrival {
        at: 10_000_000,
        need: 1,
    },
    Arrival {
        at: 11_000_000,
        need: 1,
    },
    Arrival {
        at: 12_000_000,
        need: 1,
    },
    Arrival {
        at: 20_000_000,
        need: 1,
    },
];

/// What is found at a beginning of the reader.
fn reached(number: u64, from: u32) -> Reached {
    Reached {
        number,
        phase: 0,
        from,
    }
}

/// A reader that takes all each 4 ms, and does nothing from 9 to 13 ms.
#[test]
fn a_reader_that_takes_all_slots_and_stalls(rt: HostRuntime) -> Result<(), Fail> {
    let pace = Timing {
        tov: 1,
        phase: 0,
        span: 4_000_000,
        parts: 1,
        start: 0,
        takes_all: true,
    };
    let tries = Tries {
        first_phase: 0,
        phase_end: 1,
        first_from: 0,
        from_end: 4,
    };
    let stalls = [StallTime {
        from: 9_000_000,
        length: 4_000_000,
    }];
    assert_eq!(rt; least_slots_at(&pace, &stalls, &ARRIVALS), 5);
    let two = slot_losses_at(2, &pace, &stalls, &ARRIVALS);
    assert_eq!(rt;
        two,
        Stats {
            packets: 11,
            drops: 5,
            freezes: 0
        }
    );
    let worst = least_slots_of_all(&rt, &pace, &tries, &stalls, &ARRIVALS);
    assert_eq!(rt; worst, reached(5, 0));
    let members = [list_of(rt.alloc(), &ARRIVALS)?];
    let range = slot_losses_of_all(&rt, 2, &pace, &tries, &stalls, &members);
    assert_eq!(rt;
        range,
        DropRange {
            fewest: reached(4, 1),
            most: reached(6, 3)
        }
    );
    Ok(())
}

/// A reader that takes 400 slots a second.
#[test]
fn a_reader_of_one_slot_at_a_time(rt: HostRuntime) -> Result<(), Fail> {
    let pace = Timing {
        tov: 1,
        phase: 0,
        span: 1_000_000_000,
        parts: 400,
        start: 0,
        takes_all: false,
    };
    let tries = Tries {
        first_phase: 0,
        phase_end: 1,
        first_from: 0,
        from_end: 3,
    };
    assert_eq!(rt; least_slots_at(&pace, &[], &ARRIVALS), 5);
    let worst = least_slots_of_all(&rt, &pace, &tries, &[], &ARRIVALS);
    assert_eq!(rt; worst, reached(6, 2));
    let members = [list_of(rt.alloc(), &ARRIVALS)?];
    let range = slot_losses_of_all(&rt, 2, &pace, &tries, &[], &members);
    assert_eq!(rt;
        range,
        DropRange {
            fewest: reached(3, 0),
            most: reached(4, 1)
        }
    );
    Ok(())
}
