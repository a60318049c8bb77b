//! Laws of the definitions, each the contract of a function that does nothing.
ghost use Rattle.std.specs.Prelude.{◌≡◌, ◌↔◌, ◌<◌, ◌≤◌, ℕ, List, true, false};
ghost use Rattle.poll_sizes.specs.Polls.{least_polled_of, polled_events};
ghost use Rattle.poll_sizes.specs.Wakes.{wake_of};
ghost use Rattle.poll_sizes.specs.declared.polls.PollTiming.{PollTiming};
ghost use Rattle.ring_events.specs.Happenings.{NeverFreezes};
ghost use Rattle.ring_events.specs.declared.events.Happening.{Happening};
ghost use Rattle.ring_model.specs.Ring.{Size};
ghost use Rattle.ring_sizes.specs.EventLists.{events_of};
ghost use Rattle.ring_sizes.specs.Schedules.{is_stalled};
ghost use Rattle.ring_sizes.specs.declared.paces.Arrival.{Arrival};
ghost use Rattle.ring_sizes.specs.declared.paces.StallTime.{StallTime};

/// A ring of any number of blocks never freezes beside its own reader, which wakes after the blocks
/// that this ring hands over, exactly where it has as many blocks as the pass reports of the ring
/// that always has a block more, beside a reader of its own.
pub fn a_pass_tells_the_least_polled_ring()
    ensures { (size : Size) (pace : PollTiming) (stalls : List StallTime)
        (arrivals : List Arrival) (end : ℕ) (all : List Happening)
        → size.tov ≡ pace.tov → 1 ≤ size.blocks
        → events_of all ≡ polled_events size.room size.blocks stalls pace arrivals end
        → NeverFreezes size all
        ↔ (least_polled_of size.room stalls pace arrivals end ≤ size.blocks) }
{}

/// A reader wakes at the first moment, from one on, that is in no stall.
pub fn a_wake_is_the_first_moment_in_no_stall()
    ensures { (stalls : List StallTime) (at : ℕ) → let wake = wake_of stalls at in
        (at ≤ wake) × (is_stalled stalls wake ≡ false)
        × ((moment : ℕ) → at ≤ moment → moment < wake → is_stalled stalls moment ≡ true) }
{}
