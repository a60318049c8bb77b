//! A group in which packets roll over, with numbers from a second program: rings by their rules in
//! Python, which makes each tick and each step of a reader by itself.
ghost use Rattle.std.specs.Prelude.{◌≡◌};

use group_sizes::{GroupRings, Route, group_drops_at, group_losses_of_all};
use ring_sizes::{Arrival, DropRange, StallTime, Timing, Tries};

/// When the run ends.
const END: u64 = 75_000_000;

const FRAMES: [Arrival; 18] = [
    Arrival { at: 0, need: 400 },
    Arrival {
        at: 4_200_000,
        need: 144,
    },
    Arrival {
        at: 8_200_000,
        need: 304,
    },
    Arrival {
        at: 8_400_000,
        need: 304,
    },
    Arrival {
        at: 13_500_000,
        need: 400,
    },
    Arrival {
        at: 14_000_000,
        need: 400,
    },
    Arrival {
        at: 14_000_000,
        need: 400,
    },
    Arrival {
        at: 16_000_000,
        need: 304,
    },
    Arrival {
        at: 16_100_000,
        need: 700,
    },
    Arrival {
        at: 16_200_000,
        need: 700,
    },
    Arrival {
        at: 16_300_000,
        need: 900,
    },
    Arrival {
        at: 17_000_000,
        need: 600,
    },
    Arrival {
        at: 18_500_000,
        need: 800,
    },
    Arrival {
        at: 19_000_000,
        need: 700,
    },
    Arrival {
        at: 20_000_000,
        need: 900,
    },
    Arrival {
        at: 68_600_000,
        need: 144,
    },
    Arrival {
        at: 69_000_000,
        need: 400,
    },
    Arrival {
        at: 69_000_000,
        need: 400,
    },
];

const ROUTES: [Route; 18] = [
    Route { cpu: 0, home: 0 },
    Route { cpu: 1, home: 1 },
    Route { cpu: 0, home: 2 },
    Route { cpu: 0, home: 0 },
    Route { cpu: 1, home: 0 },
    Route { cpu: 0, home: 0 },
    Route { cpu: 1, home: 1 },
    Route { cpu: 1, home: 0 },
    Route { cpu: 0, home: 0 },
    Route { cpu: 0, home: 0 },
    Route { cpu: 0, home: 0 },
    Route { cpu: 1, home: 2 },
    Route { cpu: 0, home: 0 },
    Route { cpu: 1, home: 1 },
    Route { cpu: 1, home: 0 },
    Route { cpu: 0, home: 0 },
    Route { cpu: 0, home: 2 },
    Route { cpu: 1, home: 0 },
];

/// Readers that take all each 6 ms.
const TAKES_ALL: Timing = Timing {
    tov: 5,
    phase: 2,
    span: 6_000_000,
    parts: 1,
    start: 5_000_000,
    takes_all: true,
};

/// They do nothing for 8 ms.
const STALLS: [StallTime; 1] = [StallTime {
    from: 13_000_000,
    length: 8_000_000,
}];

const TRIES: Tries = Tries {
    first_phase: 0,
    phase_end: 5,
    first_from: 0,
    from_end: 6,
};

/// Three members, two CPUs.
fn rings(by_present: bool, blocks: u32) -> GroupRings
    ensures members { result.members ≡ 3 }
    ensures cpus { result.cpus ≡ 2 }
{
    GroupRings {
        members: 3,
        cpus: 2,
        by_present,
        room: 1000,
        blocks,
    }
}

fn drops(by_present: bool, blocks: u32) -> u64 {
    let rings = rings(by_present, blocks);
    group_drops_at(&rings, &ROUTES, &TAKES_ALL, &STALLS, &FRAMES, END)
}

/// The fewest and the most, each with its phase and beginning.
fn range(by_present: bool, blocks: u32) -> ((u64, u32, u32), (u64, u32, u32)) {
    let rings = rings(by_present, blocks);
    let DropRange { fewest, most } = group_losses_of_all(
        &rings, &ROUTES, &TAKES_ALL, &TRIES, &STALLS, &FRAMES, END,
    );
    (
        (fewest.number, fewest.phase, fewest.from),
        (most.number, most.phase, most.from),
    )
}

#[test]
fn homes_that_roll_over(rt: HostRuntime) {
    assert_eq!(rt; drops(false, 2), 5);
    assert_eq!(rt; drops(false, 3), 3);
    assert_eq!(rt; range(false, 2), ((3, 0, 0), (6, 1, 1)));
    assert_eq!(rt; range(false, 3), ((1, 0, 0), (4, 1, 1)));
}

#[test]
fn present_members(rt: HostRuntime) {
    assert_eq!(rt; drops(true, 2), 4);
    assert_eq!(rt; drops(true, 3), 1);
    assert_eq!(rt; range(true, 2), ((3, 3, 0), (5, 2, 1)));
    assert_eq!(rt; range(true, 3), ((0, 0, 0), (2, 0, 1)));
}
