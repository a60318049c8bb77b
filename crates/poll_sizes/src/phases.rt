//! The least ring and what a ring loses, whenever the timer began. A reader that polls has no
//! beginning of its own.
ghost use Rattle.std.specs.Prelude.{◌≡◌, ◌↔◌, ◌<◌, ◌≤◌, ◌^◌, ℕ, List, All, length};
ghost use Rattle.poll_sizes.specs.PollPhases.{ArePolled, least_polled_at, polled_at};
ghost use Rattle.poll_sizes.specs.PollPhases.{polled_drops_at};
ghost use Rattle.poll_sizes.specs.Polls.{polled_events};
ghost use Rattle.ring_events.specs.Happenings.{IsPlain, NeverFreezes, all_happened};
ghost use Rattle.ring_events.specs.declared.events.Happening.{Happening};
ghost use Rattle.ring_model.specs.Fates.{totals_of};
ghost use Rattle.ring_model.specs.Ring.{Size};
ghost use Rattle.ring_model.specs.Rings.{fresh};
ghost use Rattle.ring_sizes.specs.EventLists.{events_of};
ghost use Rattle.ring_sizes.specs.Phases.{IsFirstFewest, IsFirstMost, IsPhase};

use crate::{PollTiming, least_polled, polled_losses};
use ring_sizes::{Arrival, DropRange, Reached, StallTime, Tries};

/// The least number of blocks, at least 1, with which a ring never freezes beside its own reader at
/// any phase of the timer that is tried; and the first phase at which it is reached, with the first
/// beginning that is tried, since none makes a difference. `pace` has any phase.
pub fn least_polled_of_all(
    room: u32,
    pace: &PollTiming,
    tries: &Tries,
    stalls: &[StallTime],
    arrivals: &[Arrival],
    end: u64,
) -> Reached
    requires tried { ArePolled pace.now tries.now }
    requires early { All (λ arrival. arrival.at < 2 ^ 53) arrivals.now }
    requires soon { end < 2 ^ 53 }
    requires few { length arrivals.now < 2 ^ 60 }
    ensures some { 1 ≤ result.number }
    ensures enough { (phase blocks : ℕ) (happenings : List Happening) → IsPhase tries.now phase
        → events_of happenings
        ≡ polled_events room blocks stalls.now (polled_at pace.now phase) arrivals.now end
        → result.number ≤ blocks
        → NeverFreezes (record { room = room; blocks = blocks; tov = pace.now.tov }) happenings }
    ensures reached { (blocks : ℕ) (happenings : List Happening)
        → events_of happenings
        ≡ polled_events room blocks stalls.now (polled_at pace.now result.phase) arrivals.now end
        → 1 ≤ blocks
        → NeverFreezes (record { room = room; blocks = blocks; tov = pace.now.tov }) happenings
        ↔ (result.number ≤ blocks) }
    ensures first { IsFirstMost tries.now
        (least_polled_at room stalls.now pace.now arrivals.now end) result }
{
    let from = tries.first_from;
    let first = pace.at(tries.first_phase);
    let number = least_polled(room, &first, stalls, arrivals, end);
    let mut worst = Reached {
        number,
        phase: tries.first_phase,
        from,
    };
    let mut phase = tries.first_phase + 1;
    while phase < tries.phase_end {
        let here = pace.at(phase);
        let least = least_polled(room, &here, stalls, arrivals, end);
        worst = worst.or_more(Reached {
            number: least,
            phase,
            from,
        });
        phase += 1;
    }
    worst
}

/// The fewest and the most packets that a ring with blocks of this room, and this number of them,
/// drops beside its own reader at any phase of the timer that is tried; and the first phase at
/// which each is reached, with the first beginning that is tried. `pace` has any phase.
pub fn polled_losses_of_all(
    room: u32,
    blocks: u32,
    pace: &PollTiming,
    tries: &Tries,
    stalls: &[StallTime],
    arrivals: &[Arrival],
    end: u64,
) -> DropRange
    requires tried { ArePolled pace.now tries.now }
    requires early { All (λ arrival. arrival.at < 2 ^ 53) arrivals.now }
    requires soon { end < 2 ^ 53 }
    requires few { length arrivals.now < 2 ^ 60 }
    ensures range { (phase : ℕ) (happenings : List Happening) → IsPhase tries.now phase
        → events_of happenings
        ≡ polled_events room blocks stalls.now (polled_at pace.now phase) arrivals.now end
        → IsPlain happenings
        → let size : Size = record { room = room; blocks = blocks; tov = pace.now.tov } in
        let drops = (totals_of size (all_happened happenings (fresh size)).notes).drops in
        (result.fewest.number ≤ drops) × (drops ≤ result.most.number) }
    ensures fewest { IsFirstFewest tries.now
        (polled_drops_at room blocks stalls.now pace.now arrivals.now end) result.fewest }
    ensures most { IsFirstMost tries.now
        (polled_drops_at room blocks stalls.now pace.now arrivals.now end) result.most }
{
    let from = tries.first_from;
    let first = pace.at(tries.first_phase);
    let number = polled_losses(room, blocks, &first, stalls, arrivals, end).drops;
    let only = Reached {
        number,
        phase: tries.first_phase,
        from,
    };
    let mut range = DropRange {
        fewest: only,
        most: only,
    };
    let mut phase = tries.first_phase + 1;
    while phase < tries.phase_end {
        let here = pace.at(phase);
        let drops = polled_losses(room, blocks, &here, stalls, arrivals, end).drops;
        let found = Reached {
            number: drops,
            phase,
            from,
        };
        range = DropRange {
            fewest: range.fewest.or_fewer(found),
            most: range.most.or_more(found),
        };
        phase += 1;
    }
    range
}
