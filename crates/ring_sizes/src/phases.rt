//! The least ring that never freezes, whenever the timer and the reader began.
ghost use Rattle.std.specs.Prelude.{◌≡◌, ◌↔◌, ◌+◌, ◌<◌, ◌≤◌, ◌^◌, ℕ, List, All, length};
ghost use Rattle.ring_events.specs.Happenings.{NeverFreezes};
ghost use Rattle.ring_events.specs.declared.events.Happening.{Happening};
ghost use Rattle.ring_sizes.specs.EventLists.{events_of};
ghost use Rattle.ring_sizes.specs.Phases.{AreTried, IsBeginning, IsFirstMost, IsPhase, begun};
ghost use Rattle.ring_sizes.specs.Phases.{least_of};
ghost use Rattle.ring_sizes.specs.Schedules.{schedule_to};

use crate::extremes::extremes_of_all;
use crate::measures::Measure;
use crate::{Arrival, Reached, StallTime, Timing, Trial, least_at};
use std::thread::Threads;

/// The least number of blocks, at least 1, with which a ring never freezes at any phase of the
/// timer and any beginning of the reader that are tried; and the first at which it is reached. The
/// phases are shared out over threads, as many as there are processors and at most eight.
pub fn least_of_all<R: Threads + Sync>(
    rt: &R,
    room: u32,
    trial: &Trial,
    arrivals: &[Arrival],
) -> Reached
    requires tried { AreTried trial.now.pace trial.now.tries }
    requires early { All (λ arrival. arrival.at < 2 ^ 53) arrivals.now }
    requires soon { trial.now.end < 2 ^ 53 }
    requires few { length arrivals.now < 2 ^ 60 }
    ensures some { 1 ≤ result.number }
    ensures enough { (phase from blocks : ℕ) (happenings : List Happening)
        → IsPhase trial.now.tries phase → IsBeginning trial.now.tries from
        → events_of happenings ≡ schedule_to trial.now.stalls.now
        (begun trial.now.pace phase from) arrivals.now trial.now.end
        → result.number ≤ blocks
        → NeverFreezes (record { room = room; blocks = blocks; tov = trial.now.pace.tov })
        happenings }
    ensures reached { (blocks : ℕ) (happenings : List Happening)
        → events_of happenings ≡ schedule_to trial.now.stalls.now
        (begun trial.now.pace result.phase result.from) arrivals.now trial.now.end
        → 1 ≤ blocks
        → NeverFreezes (record { room = room; blocks = blocks; tov = trial.now.pace.tov })
        happenings ↔ (result.number ≤ blocks) }
    ensures first { IsFirstMost trial.now.tries (λ phase from. least_of room trial.now.stalls.now
        (begun trial.now.pace phase from) arrivals.now trial.now.end) result }
{
    let blocks = LeastBlocks {
        room,
        stalls: trial.stalls,
        arrivals,
        end: trial.end,
    };
    extremes_of_all(rt, &blocks, &trial.pace, &trial.tries).most
}

/// The least number of blocks with which a ring never freezes.
#[derive(Clone, Copy)]
struct LeastBlocks<'a> {
    room: u32,
    stalls: &'a [StallTime],
    arrivals: &'a [Arrival],
    end: u64,
}

impl<'a> Measure for LeastBlocks<'a> {
    ghost use Rattle.std.specs.Prelude.{◌<◌, ◌^◌, All, length};
    ghost use Rattle.ring_sizes.specs.Phases.{least_of};
    ghost use Rattle.ring_sizes.specs.Shares.{AreFew};

    ghost number = { λ ring pace.
        least_of ring.room ring.stalls.now pace ring.arrivals.now ring.end };

    ghost ready = { λ ring. AreFew ring.arrivals.now ring.end };

    fn number_at(&self, pace: &Timing) -> u64 {
        least_at(self.room, pace, self.stalls, self.arrivals, self.end)
    }

    fn next_other(&self, pace: &Timing, unit: u128, phase_end: u32) -> u32 {
        pace.next_order(unit, phase_end, self.arrivals, self.end)
    }
}
