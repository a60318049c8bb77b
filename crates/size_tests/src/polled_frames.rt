//! Frames at their moments beside a timer and a reader that wakes some time after a block is handed
//! over, with numbers from a second program: a ring by its rules in Python, which makes each tick
//! and each wake by itself.
use crate::paced_frames::{ARRIVALS, END, ROOM};
use poll_sizes::{
    PollTiming, least_polled, least_polled_of_all, polled_losses, polled_losses_of_all,
};
use ring_model::Stats;
use ring_sizes::{DropRange, Reached, StallTime, Tries};

/// A reader that wakes 6 ms after a block is handed over.
const WAKES: PollTiming = PollTiming {
    tov: 5,
    phase: 2,
    delay: 6_000_000,
};

/// It does nothing for 10 ms, in two stalls of which one follows the other.
const STALLS: [StallTime; 2] = [
    StallTime {
        from: 21_000_000,
        length: 2_000_000,
    },
    StallTime {
        from: 13_000_000,
        length: 8_000_000,
    },
];

#[test]
fn a_reader_that_wakes_later(rt: HostRuntime) {
    assert_eq!(rt; least_polled(ROOM, &WAKES, &[], &ARRIVALS, END), 4);
    let two = polled_losses(ROOM, 2, &WAKES, &[], &ARRIVALS, END);
    assert_eq!(rt;
        two,
        Stats {
            packets: 11,
            drops: 2,
            freezes: 2
        }
    );
    let three = polled_losses(ROOM, 3, &WAKES, &[], &ARRIVALS, END);
    assert_eq!(rt;
        three,
        Stats {
            packets: 11,
            drops: 0,
            freezes: 1
        }
    );
}

#[test]
fn a_reader_that_wakes_at_once_but_for_stalls(rt: HostRuntime) {
    let pace = PollTiming { delay: 0, ..WAKES };
    assert_eq!(rt; least_polled(ROOM, &pace, &[], &ARRIVALS, END), 2);
    assert_eq!(rt; least_polled(ROOM, &pace, &STALLS, &ARRIVALS, END), 4);
    let two = polled_losses(ROOM, 2, &pace, &STALLS, &ARRIVALS, END);
    assert_eq!(rt;
        two,
        Stats {
            packets: 11,
            drops: 2,
            freezes: 1
        }
    );
}

#[test]
fn a_reader_that_wakes_later_whenever_the_timer_began(rt: HostRuntime) {
    let pace = PollTiming {
        delay: 11_000_000,
        ..WAKES
    };
    let tries = Tries {
        first_phase: 0,
        phase_end: 5,
        first_from: 0,
        from_end: 1,
    };
    let worst = least_polled_of_all(ROOM, &pace, &tries, &STALLS, &ARRIVALS, END);
    assert_eq!(rt;
        worst,
        Reached {
            number: 6,
            phase: 0,
            from: 0
        }
    );
    let range = polled_losses_of_all(ROOM, 2, &pace, &tries, &STALLS, &ARRIVALS, END);
    assert_eq!(rt;
        range,
        DropRange {
            fewest: Reached {
                number: 3,
                phase: 4,
                from: 0
            },
            most: Reached {
                number: 6,
                phase: 2,
                from: 0
            }
        }
    );
}
