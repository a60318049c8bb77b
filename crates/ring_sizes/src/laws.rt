//! Laws of the definitions, each the contract of a function that does nothing.
ghost use Rattle.std.specs.Prelude.{◌≡◌, ◌↔◌, ◌<◌, ◌≤◌, ℕ, List};
ghost use Rattle.ring_events.specs.Happenings.{IsPlain, NeverFreezes, all_happened, happened};
ghost use Rattle.ring_events.specs.declared.events.Happening.{Happening};
ghost use Rattle.ring_events.specs.declared.events.Happening.TheVariants.{ReadAll};
ghost use Rattle.ring_model.specs.Fates.{totals_of};
ghost use Rattle.ring_model.specs.Ring.{Size};
ghost use Rattle.ring_model.specs.Rings.{fresh};
ghost use Rattle.ring_sizes.specs.EventLists.{events_of};
ghost use Rattle.ring_sizes.specs.Courses.{all_went_on, course_stats, first_course};
ghost use Rattle.ring_sizes.specs.Orders.{PassesNoFrame, PassesNoStep, at_phase};
ghost use Rattle.ring_sizes.specs.Passes.{first_pass, passed_all};
ghost use Rattle.ring_sizes.specs.Reads.{read_times};
ghost use Rattle.ring_sizes.specs.Schedules.{IsPace, schedule_to, step_moment, steps_before};
ghost use Rattle.ring_sizes.specs.Schedules.{tick_moment, ticks_by};
ghost use Rattle.ring_sizes.specs.declared.paces.Arrival.{Arrival};
ghost use Rattle.ring_sizes.specs.declared.paces.StallTime.{StallTime};
ghost use Rattle.ring_sizes.specs.declared.paces.Timing.{Timing};

/// A reader that reads as often as the ring has blocks, or more often, has read all of them.
pub fn as_many_reads_as_blocks_read_all()
    ensures { (size : Size) (all : List Happening) (times : ℕ) → IsPlain all
        → 1 ≤ size.blocks → size.blocks ≤ times
        → read_times times (all_happened all (fresh size))
        ≡ happened ReadAll (all_happened all (fresh size)) }
{}

/// A ring never freezes exactly where its statistics over the whole run count no freeze.
pub fn a_ring_never_freezes_where_it_counts_no_freeze()
    ensures { (size : Size) (all : List Happening) → IsPlain all
        → 1 ≤ size.blocks → NeverFreezes size all
        ↔ ((totals_of size (all_happened all (fresh size)).notes).freezes ≡ 0) }
{}

/// The pass over what happens to a ring tells the least number of blocks with which it never
/// freezes.
pub fn a_pass_tells_the_least_ring()
    ensures { (size : Size) (all : List Happening) → 1 ≤ size.blocks
        → let pass = passed_all size.room size.tov (events_of all) (first_pass size.tov) in
        NeverFreezes size all ↔ (pass.least ≤ size.blocks) }
{}

/// The course over what happens to a ring counts what its notes do over the whole run.
pub fn a_course_counts_what_the_ring_counts()
    ensures { (size : Size) (all : List Happening) → IsPlain all
        → course_stats (all_went_on size.room size.blocks size.tov (events_of all)
        (first_course size.tov))
        ≡ totals_of size (all_happened all (fresh size)).notes }
{}

/// As many ticks of a timer come by a moment as have their moment by then.
pub fn a_tick_is_counted_from_its_moment_on()
    ensures { (pace : Timing) (at number : ℕ) → 0 < pace.tov
        → (number ≤ ticks_by pace at) ↔ (tick_moment pace number ≤ at) }
{}

/// As many steps of a reader come before a moment as have their moment before it.
pub fn a_step_is_counted_after_its_moment()
    ensures { (pace : Timing) (at number : ℕ) → IsPace pace → 1 ≤ number
        → (number ≤ steps_before pace at) ↔ (step_moment pace number < at) }
{}

/// At another phase of the timer all events come in the same order, where no tick passes a frame,
/// the end or a step of the reader: so each pass over them reports the same.
pub fn events_stay_in_order_where_no_tick_passes_any()
    ensures { (stalls : List StallTime) (pace : Timing) (phase end : ℕ) (arrivals : List Arrival)
        → pace.phase < pace.tov → phase < pace.tov
        → PassesNoFrame pace phase end 0 arrivals → PassesNoStep pace phase
        → schedule_to stalls (at_phase pace phase) arrivals end
        ≡ schedule_to stalls pace arrivals end }
{}
