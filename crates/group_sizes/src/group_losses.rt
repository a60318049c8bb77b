//! What a group drops, whenever the timer and the readers began.
ghost use Rattle.std.specs.Prelude.{◌+◌};
ghost use Rattle.group_sizes.specs.Walks.{AreFrames, group_drops_of};
ghost use Rattle.ring_sizes.specs.Phases.{AreTried, IsFirstFewest, IsFirstMost, begun};

use crate::{GroupRings, Route, group_drops_at};
use ring_sizes::{Arrival, DropRange, Reached, StallTime, Timing, Tries};

/// The fewest and the most packets that a group drops at any phase of the timer and any beginning
/// of the readers that are tried, each with the first at which it is reached. `pace` has any phase
/// and start.
pub fn group_losses_of_all(
    rings: &GroupRings,
    routes: &[Route],
    pace: &Timing,
    tries: &Tries,
    stalls: &[StallTime],
    arrivals: &[Arrival],
    end: u64,
) -> DropRange
    requires frames { AreFrames rings.now routes.now arrivals.now end }
    requires tried { AreTried pace.now tries.now }
    ensures fewest { IsFirstFewest tries.now (λ phase from. group_drops_of rings.now routes.now
        stalls.now (begun pace.now phase from) arrivals.now end) result.fewest }
    ensures most { IsFirstMost tries.now (λ phase from. group_drops_of rings.now routes.now
        stalls.now (begun pace.now phase from) arrivals.now end) result.most }
{
    let mut range = losses_at_phase(rings, routes, pace, tries, stalls, arrivals, end);
    let mut phase = tries.first_phase + 1;
    while phase < tries.phase_end {
        let here = Tries {
            first_phase: phase,
            ..*tries
        };
        let found = losses_at_phase(rings, routes, pace, &here, stalls, arrivals, end);
        range = DropRange {
            fewest: range.fewest.or_fewer(found.fewest),
            most: range.most.or_more(found.most),
        };
        phase += 1;
    }
    range
}

/// The same for the first phase of those that are tried.
fn losses_at_phase(
    rings: &GroupRings,
    routes: &[Route],
    pace: &Timing,
    tries: &Tries,
    stalls: &[StallTime],
    arrivals: &[Arrival],
    end: u64,
) -> DropRange
    requires frames { AreFrames rings.now routes.now arrivals.now end }
    requires tried { AreTried pace.now tries.now }
    ensures fewest { IsFirstFewest (record tries.now { phase_end = tries.now.first_phase + 1 })
        (λ phase from. group_drops_of rings.now routes.now stalls.now (begun pace.now phase from)
        arrivals.now end) result.fewest }
    ensures most { IsFirstMost (record tries.now { phase_end = tries.now.first_phase + 1 })
        (λ phase from. group_drops_of rings.now routes.now stalls.now (begun pace.now phase from)
        arrivals.now end) result.most }
{
    let phase = tries.first_phase;
    let first = pace.begun(phase, tries.first_from);
    let number = group_drops_at(rings, routes, &first, stalls, arrivals, end);
    let only = Reached {
        number,
        phase,
        from: tries.first_from,
    };
    let mut range = DropRange {
        fewest: only,
        most: only,
    };
    let mut from = tries.first_from + 1;
    while from < tries.from_end {
        let here = pace.begun(phase, from);
        let number = group_drops_at(rings, routes, &here, stalls, arrivals, end);
        let found = Reached {
            number,
            phase,
            from,
        };
        range = DropRange {
            fewest: range.fewest.or_fewer(found),
            most: range.most.or_more(found),
        };
        from += 1;
    }
    range
}
