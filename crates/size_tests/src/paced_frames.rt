//! Frames at their moments beside a timer and a reader, with numbers from a second program: a ring
//! by its rules in Python, which makes each tick and each step of the reader by itself.
ghost use Rattle.std.specs.Prelude.{◌≡◌, IfOk};

use frame_view::Memory;
use ring_model::Stats;
use ring_sizes::{
    Arrival, ArrivalList, DropRange, Reached, StallTime, Timing, Trial, Tries, least_at,
    least_of_all, losses_at, losses_of_all,
};
use std::alloc::Global;
use std::test::Fail;

pub(crate) const ROOM: u32 = 1000;

/// The last frame of another ring comes later than each of these.
pub(crate) const END: u64 = 75_000_000;

const TRIES: Tries = Tries {
    first_phase: 0,
    phase_end: 5,
    first_from: 0,
    from_end: 6,
};

pub(crate) const ARRIVALS: [Arrival; 11] = [
    Arrival { at: 0, need: 400 },
    Arrival {
        at: 4_200_000,
        need: 144,
    },
    Arrival {
        at: 8_200_000,
        need: 304,
    },
    Arrival {
        at: 8_400_000,
        need: 304,
    },
    Arrival {
        at: 13_500_000,
        need: 400,
    },
    Arrival {
        at: 14_000_000,
        need: 400,
    },
    Arrival {
        at: 14_000_000,
        need: 400,
    },
    Arrival {
        at: 16_000_000,
        need: 304,
    },
    Arrival {
        at: 68_600_000,
        need: 144,
    },
    Arrival {
        at: 69_000_000,
        need: 400,
    },
    Arrival {
        at: 69_000_000,
        need: 400,
    },
];

const FEW: [Arrival; 6] = [
    Arrival { at: 0, need: 400 },
    Arrival {
        at: 3_100_000,
        need: 700,
    },
    Arrival {
        at: 3_900_000,
        need: 400,
    },
    Arrival {
        at: 52_000_000,
        need: 304,
    },
    Arrival {
        at: 52_000_000,
        need: 800,
    },
    Arrival {
        at: 90_000_000,
        need: 144,
    },
];

/// The frames of a ring, as a list of its own.
pub(crate) fn list_of(alloc: Global, arrivals: &[Arrival]) -> Result<ArrivalList, Memory>
    ensures { IfOk result (λ list. list ≡ arrivals.now) }
{
    Ok(ArrivalList::from_vec(arrivals.to_vec(alloc)?))
}

/// Two of them fit into a block.
const EARLY: [Arrival; 5] = [
    Arrival { at: 0, need: 400 },
    Arrival { at: 0, need: 400 },
    Arrival { at: 0, need: 400 },
    Arrival {
        at: 500_000,
        need: 400,
    },
    Arrival {
        at: 500_000,
        need: 400,
    },
];

/// And of these, of another ring.
const LATE: [Arrival; 5] = [
    Arrival {
        at: 500_000,
        need: 400,
    },
    Arrival {
        at: 500_000,
        need: 400,
    },
    Arrival {
        at: 500_000,
        need: 400,
    },
    Arrival {
        at: 500_000,
        need: 400,
    },
    Arrival {
        at: 1_500_000,
        need: 400,
    },
];

/// A reader that takes all each 6 ms.
const TAKES_ALL: Timing = Timing {
    tov: 5,
    phase: 2,
    span: 6_000_000,
    parts: 1,
    start: 5_000_000,
    takes_all: true,
};

/// It does nothing for 8 ms.
const STALLS: [StallTime; 1] = [StallTime {
    from: 13_000_000,
    length: 8_000_000,
}];

#[test]
fn a_reader_that_takes_all_and_stalls(rt: HostRuntime) {
    assert_eq!(rt; least_at(ROOM, &TAKES_ALL, &STALLS, &ARRIVALS, END), 4);
    let two = losses_at(ROOM, 2, &TAKES_ALL, &STALLS, &ARRIVALS, END);
    assert_eq!(rt;
        two,
        Stats {
            packets: 11,
            drops: 2,
            freezes: 1
        }
    );
    let three = losses_at(ROOM, 3, &TAKES_ALL, &STALLS, &ARRIVALS, END);
    assert_eq!(rt;
        three,
        Stats {
            packets: 11,
            drops: 0,
            freezes: 1
        }
    );
}

#[test]
fn a_reader_that_takes_all_and_stalls_whenever_it_began(rt: HostRuntime) -> Result<(), Fail> {
    let trial = Trial {
        pace: TAKES_ALL,
        tries: TRIES,
        stalls: &STALLS,
        end: END,
    };
    let worst = least_of_all(&rt, ROOM, &trial, &ARRIVALS);
    assert_eq!(rt;
        worst,
        Reached {
            number: 5,
            phase: 0,
            from: 1
        }
    );
    let members = [list_of(rt.alloc(), &ARRIVALS)?];
    let range = losses_of_all(&rt, ROOM, 2, &trial, &members);
    assert_eq!(rt;
        range,
        DropRange {
            fewest: Reached {
                number: 0,
                phase: 3,
                from: 0
            },
            most: Reached {
                number: 4,
                phase: 2,
                from: 1
            }
        }
    );
    Ok(())
}

/// A reader that takes 150 blocks a second.
#[test]
fn a_reader_of_one_block_at_a_time(rt: HostRuntime) -> Result<(), Fail> {
    let pace = Timing {
        tov: 5,
        phase: 0,
        span: 1_000_000_000,
        parts: 150,
        start: 3_000_000,
        takes_all: false,
    };
    assert_eq!(rt; least_at(ROOM, &pace, &[], &ARRIVALS, END), 4);
    let two = losses_at(ROOM, 2, &pace, &[], &ARRIVALS, END);
    assert_eq!(rt;
        two,
        Stats {
            packets: 11,
            drops: 2,
            freezes: 1
        }
    );
    let trial = Trial {
        pace,
        tries: TRIES,
        stalls: &[],
        end: END,
    };
    let worst = least_of_all(&rt, ROOM, &trial, &ARRIVALS);
    assert_eq!(rt;
        worst,
        Reached {
            number: 4,
            phase: 0,
            from: 0
        }
    );
    let members = [list_of(rt.alloc(), &ARRIVALS)?];
    let range = losses_of_all(&rt, ROOM, 2, &trial, &members);
    assert_eq!(rt;
        range,
        DropRange {
            fewest: Reached {
                number: 1,
                phase: 0,
                from: 0
            },
            most: Reached {
                number: 3,
                phase: 1,
                from: 3
            }
        }
    );
    Ok(())
}

/// Ticks come after the last frame of a ring, up to the last of all rings.
#[test]
fn ticks_after_the_last_frame_count(rt: HostRuntime) {
    let pace = Timing {
        tov: 5,
        phase: 2,
        span: 6_000_000,
        parts: 1,
        start: 1_000_000_000,
        takes_all: true,
    };
    let first = &ARRIVALS[..3];
    assert_eq!(rt; least_at(ROOM, &pace, &[], first, 8_200_000), 3);
    assert_eq!(rt; least_at(ROOM, &pace, &[], first, 40_000_000), 4);
}

/// Of 400 phases and beginnings most have all in the same order as the phase before.
#[test]
fn phases_between_few_frames(rt: HostRuntime) -> Result<(), Fail> {
    let pace = Timing {
        tov: 40,
        span: 10_000_000,
        ..TAKES_ALL
    };
    let tries = Tries {
        phase_end: 40,
        from_end: 10,
        ..TRIES
    };
    let trial = Trial {
        pace,
        tries,
        stalls: &[],
        end: 95_000_000,
    };
    let worst = least_of_all(&rt, ROOM, &trial, &FEW);
    assert_eq!(rt;
        worst,
        Reached {
            number: 4,
            phase: 27,
            from: 3
        }
    );
    let members = [list_of(rt.alloc(), &FEW)?];
    let range = losses_of_all(&rt, ROOM, 2, &trial, &members);
    assert_eq!(rt;
        range.fewest,
        Reached {
            number: 0,
            phase: 37,
            from: 3
        }
    );
    assert_eq!(rt;
        range.most,
        Reached {
            number: 1,
            phase: 0,
            from: 0
        }
    );
    Ok(())
}

/// Two members that lose their fifth frame at another beginning of the reader: one is lost at both.
#[test]
fn two_members_together(rt: HostRuntime) -> Result<(), Fail> {
    let trial = Trial {
        pace: Timing {
            tov: 8,
            span: 2_000_000,
            ..TAKES_ALL
        },
        tries: Tries {
            phase_end: 1,
            from_end: 2,
            ..TRIES
        },
        stalls: &[],
        end: 1_500_000,
    };
    let members = [list_of(rt.alloc(), &EARLY)?, list_of(rt.alloc(), &LATE)?];
    let range = losses_of_all(&rt, ROOM, 2, &trial, &members);
    let one = Reached {
        number: 1,
        phase: 0,
        from: 0,
    };
    assert_eq!(rt;
        range,
        DropRange {
            fewest: one,
            most: one
        }
    );
    Ok(())
}
