//! What some rings together lose, whenever the timer and the reader began.
ghost use Rattle.std.specs.Prelude.{◌≡◌, ◌+◌, ◌<◌, ◌≤◌, ◌^◌, ℕ, List, length, map};
ghost use Rattle.std.specs.List.{AllByRecursion, sum_by};
ghost use Rattle.ring_events.specs.Happenings.{IsPlain, all_happened};
ghost use Rattle.ring_events.specs.declared.events.Happening.{Happening};
ghost use Rattle.ring_model.specs.Fates.{totals_of};
ghost use Rattle.ring_model.specs.Ring.{Size};
ghost use Rattle.ring_model.specs.Rings.{fresh};
ghost use Rattle.ring_sizes.specs.EventLists.{events_of};
ghost use Rattle.ring_sizes.specs.Phases.{AreTried, IsBeginning, IsFirstFewest, IsFirstMost};
ghost use Rattle.ring_sizes.specs.Phases.{IsPhase, begun, drops_of_all};
ghost use Rattle.ring_sizes.specs.Schedules.{schedule_to};
ghost use Rattle.ring_sizes.specs.Shares.{AreEarly};

use crate::extremes::extremes_of_all;
use crate::measures::Measure;
use crate::{ArrivalList, Reached, StallTime, Timing, Trial, losses_at};
use std::thread::Threads;

/// The fewest and the most packets that are dropped at the beginnings that are tried, each with
/// the first at which it is reached.
#[derive(Clone, Copy, Debug, PartialEq, Eq)]
pub struct DropRange {
    pub fewest: Reached,
    pub most: Reached,
}

/// The fewest and the most packets that some rings together drop at any phase of the timer and any
/// beginning of the reader that are tried; and the first at which each is reached. Each member has
/// a ring of its own, with so many blocks that have this room; of one member it is what this ring
/// drops. The phases are shared out over threads, as many as there are processors and at most
/// eight.
pub fn losses_of_all<R: Threads + Sync>(
    rt: &R,
    room: u32,
    blocks: u32,
    trial: &Trial,
    members: &[ArrivalList],
) -> DropRange
    requires tried { AreTried trial.now.pace trial.now.tries }
    requires early { AllByRecursion AreEarly members.now }
    requires soon { trial.now.end < 2 ^ 53 }
    requires few { sum_by (λ arrivals. length arrivals) members.now < 2 ^ 60 }
    ensures range { (phase from : ℕ) (all : List (List Happening))
        → IsPhase trial.now.tries phase → IsBeginning trial.now.tries from
        → map (λ happenings. events_of happenings) all
        ≡ map (λ arrivals. schedule_to trial.now.stalls.now (begun trial.now.pace phase from)
        arrivals trial.now.end) members.now
        → AllByRecursion (λ happenings. IsPlain happenings) all
        → let size : Size =
        record { room = room; blocks = blocks; tov = trial.now.pace.tov } in
        let drops = sum_by
        (λ happenings. (totals_of size (all_happened happenings (fresh size)).notes).drops) all in
        (result.fewest.number ≤ drops) × (drops ≤ result.most.number) }
    ensures fewest { IsFirstFewest trial.now.tries
        (λ phase from. drops_of_all room blocks trial.now.stalls.now
        (begun trial.now.pace phase from) members.now trial.now.end) result.fewest }
    ensures most { IsFirstMost trial.now.tries
        (λ phase from. drops_of_all room blocks trial.now.stalls.now
        (begun trial.now.pace phase from) members.now trial.now.end) result.most }
{
    let drops = AllDrops {
        room,
        blocks,
        stalls: trial.stalls,
        members,
        end: trial.end,
    };
    let extremes = extremes_of_all(rt, &drops, &trial.pace, &trial.tries);
    DropRange {
        fewest: extremes.fewest,
        most: extremes.most,
    }
}

/// The packets that some rings together drop.
#[derive(Clone, Copy)]
struct AllDrops<'a> {
    room: u32,
    blocks: u32,
    stalls: &'a [StallTime],
    members: &'a [ArrivalList],
    end: u64,
}

impl<'a> Measure for AllDrops<'a> {
    ghost use Rattle.ring_sizes.specs.Phases.{drops_of_all};
    ghost use Rattle.ring_sizes.specs.Shares.{AreFewInAll};

    ghost number = { λ rings pace.
        drops_of_all rings.room rings.blocks rings.stalls.now pace rings.members.now rings.end };

    ghost ready = { λ rings. AreFewInAll rings.members.now rings.end };

    fn number_at(&self, pace: &Timing) -> u64 {
        let mut total = 0;
        for arrivals in self.members {
            let arrivals = arrivals.as_slice();
            let one = losses_at(
                self.room,
                self.blocks,
                pace,
                self.stalls,
                arrivals,
                self.end,
            );
            total += one.drops;
        }
        total
    }

    fn next_other(&self, pace: &Timing, unit: u128, phase_end: u32) -> u32 {
        let mut next = phase_end;
        for arrivals in self.members {
            next = pace.next_order(unit, next, arrivals.as_slice(), self.end);
        }
        next
    }
}
