//! The least number of slots, and what rings of slots lose, whenever the reader began.
ghost use Rattle.std.specs.Prelude.{◌≡◌, ◌↔◌, ◌+◌, ◌<◌, ◌≤◌, ◌^◌, ℕ, List, All, length, map};
ghost use Rattle.std.specs.List.{AllByRecursion, sum_by};
ghost use Rattle.ring_events.specs.Happenings.{IsPlain};
ghost use Rattle.ring_events.specs.declared.events.Happening.{Happening};
ghost use Rattle.ring_model.specs.Ring.{Size};
ghost use Rattle.ring_model.specs.Rings.{fresh};
ghost use Rattle.ring_sizes.specs.EventLists.{events_of};
ghost use Rattle.ring_sizes.specs.Phases.{AreTried, IsBeginning, IsFirstFewest, IsFirstMost};
ghost use Rattle.ring_sizes.specs.Phases.{begun};
ghost use Rattle.ring_sizes.specs.Shares.{AreEarly};
ghost use Rattle.slot_layout.specs.SlotFates.{slot_totals_of};
ghost use Rattle.slot_sizes.specs.SlotHappenings.{IsNeverFull, all_slots_happened};
ghost use Rattle.slot_sizes.specs.SlotSchedules.{least_slots_of, slot_drops_of_all};
ghost use Rattle.slot_sizes.specs.SlotSchedules.{slot_schedule_to};

use crate::{least_slots_at, slot_losses_at};
use ring_sizes::{
    Arrival, ArrivalList, DropRange, Measure, Reached, StallTime, Timing, Tries, extremes_of_all,
};
use std::thread::Threads;

/// The least number of slots, at least 1, with which no packet finds its slot still the reader's at
/// any beginning of the reader that is tried; and the first at which it is reached. A ring of slots
/// has no timer, so the first phase alone is tried.
pub fn least_slots_of_all<R: Threads + Sync>(
    rt: &R,
    pace: &Timing,
    tries: &Tries,
    stalls: &[StallTime],
    arrivals: &[Arrival],
) -> Reached
    requires tried { AreTried pace.now tries.now }
    requires early { All (λ arrival. arrival.at < 2 ^ 53) arrivals.now }
    ensures some { 1 ≤ result.number }
    ensures enough { (size : Size) (from end : ℕ) (happenings : List Happening)
        → IsBeginning tries.now from
        → events_of happenings ≡ slot_schedule_to stalls.now
        (begun pace.now tries.now.first_phase from) arrivals.now end
        → result.number ≤ size.blocks → IsNeverFull size happenings }
    ensures reached { (size : Size) (end : ℕ) (happenings : List Happening)
        → events_of happenings ≡ slot_schedule_to stalls.now
        (begun pace.now result.phase result.from) arrivals.now end
        → 1 ≤ size.blocks → IsNeverFull size happenings ↔ (result.number ≤ size.blocks) }
    ensures first { (end : ℕ)
        → IsFirstMost (record tries.now { phase_end = tries.now.first_phase + 1 })
        (λ phase from. least_slots_of stalls.now (begun pace.now phase from) arrivals.now end)
        result }
{
    let slots = LeastSlots { stalls, arrivals };
    extremes_of_all(rt, &slots, pace, &first_phase_of(tries)).most
}

/// The fewest and the most packets that some rings of this number of slots together drop at any
/// beginning of the reader that is tried; and the first at which each is reached. Each member has a
/// ring of its own; of one member it is what this ring drops. The first phase alone is tried.
pub fn slot_losses_of_all<R: Threads + Sync>(
    rt: &R,
    slots: u32,
    pace: &Timing,
    tries: &Tries,
    stalls: &[StallTime],
    members: &[ArrivalList],
) -> DropRange
    requires tried { AreTried pace.now tries.now }
    requires early { AllByRecursion AreEarly members.now }
    requires few { sum_by (λ arrivals. length arrivals) members.now < 2 ^ 64 }
    ensures range { (size : Size) (from end : ℕ) (all : List (List Happening))
        → IsBeginning tries.now from
        → map (λ happenings. events_of happenings) all
        ≡ map (λ arrivals. slot_schedule_to stalls.now
        (begun pace.now tries.now.first_phase from) arrivals end) members.now
        → AllByRecursion (λ happenings. IsPlain happenings) all → size.blocks ≡ slots
        → let drops = sum_by (λ happenings.
        (slot_totals_of (all_slots_happened happenings (fresh size)).notes).drops) all in
        (result.fewest.number ≤ drops) × (drops ≤ result.most.number) }
    ensures fewest { (end : ℕ)
        → IsFirstFewest (record tries.now { phase_end = tries.now.first_phase + 1 })
        (λ phase from. slot_drops_of_all slots stalls.now (begun pace.now phase from) members.now
        end) result.fewest }
    ensures most { (end : ℕ)
        → IsFirstMost (record tries.now { phase_end = tries.now.first_phase + 1 })
        (λ phase from. slot_drops_of_all slots stalls.now (begun pace.now phase from) members.now
        end) result.most }
{
    let drops = AllSlotDrops {
        slots,
        stalls,
        members,
    };
    let extremes = extremes_of_all(rt, &drops, pace, &first_phase_of(tries));
    DropRange {
        fewest: extremes.fewest,
        most: extremes.most,
    }
}

/// Of what is tried the first phase alone.
fn first_phase_of(tries: &Tries) -> Tries
    requires { tries.now.first_phase < tries.now.phase_end }
    ensures { result ≡ (record tries.now { phase_end = tries.now.first_phase + 1 }) }
{
    Tries {
        phase_end: tries.first_phase + 1,
        ..*tries
    }
}

/// The least number of slots with which no packet finds its slot still the reader's.
#[derive(Clone, Copy)]
struct LeastSlots<'a> {
    stalls: &'a [StallTime],
    arrivals: &'a [Arrival],
}

impl<'a> Measure for LeastSlots<'a> {
    ghost use Rattle.ring_sizes.specs.Shares.{AreEarly};
    ghost use Rattle.slot_sizes.specs.SlotSchedules.{least_slots_of};

    // The end of the run has no meaning.
    ghost number = { λ ring pace. least_slots_of ring.stalls.now pace ring.arrivals.now 0 };

    ghost ready = { λ ring. AreEarly ring.arrivals.now };

    fn number_at(&self, pace: &Timing) -> u64 {
        least_slots_at(pace, self.stalls, self.arrivals)
    }

    fn next_other(&self, pace: &Timing, _unit: u128, _phase_end: u32) -> u32 {
        pace.phase + 1
    }
}

/// The packets that some rings of slots together drop.
#[derive(Clone, Copy)]
struct AllSlotDrops<'a> {
    slots: u32,
    stalls: &'a [StallTime],
    members: &'a [ArrivalList],
}

impl<'a> Measure for AllSlotDrops<'a> {
    ghost use Rattle.slot_sizes.specs.SlotSchedules.{AreFewForSlots, slot_drops_of_all};

    ghost number = { λ rings pace.
        slot_drops_of_all rings.slots rings.stalls.now pace rings.members.now 0 };

    ghost ready = { λ rings. AreFewForSlots rings.members.now };

    fn number_at(&self, pace: &Timing) -> u64 {
        let mut total = 0;
        for arrivals in self.members {
            let arrivals = arrivals.as_slice();
            let one = slot_losses_at(self.slots, pace, self.stalls, arrivals);
            total += one.drops;
        }
        total
    }

    fn next_other(&self, pace: &Timing, _unit: u128, _phase_end: u32) -> u32 {
        pace.phase + 1
    }
}
