//! Laws of the definitions, each the contract of a function that does nothing.
ghost use Rattle.std.specs.Prelude.{◌≡◌, ◌↔◌, ◌≤◌, List};
ghost use Rattle.ring_events.specs.Happenings.{IsPlain};
ghost use Rattle.ring_events.specs.declared.events.Happening.{Happening};
ghost use Rattle.ring_model.specs.Ring.{Size};
ghost use Rattle.ring_model.specs.Rings.{fresh};
ghost use Rattle.ring_sizes.specs.EventLists.{events_of};
ghost use Rattle.slot_layout.specs.SlotFates.{slot_totals_of};
ghost use Rattle.slot_sizes.specs.SlotCourses.{all_slots_went_on, first_slot_course};
ghost use Rattle.slot_sizes.specs.SlotCourses.{slot_course_stats};
ghost use Rattle.slot_sizes.specs.SlotHappenings.{IsNeverFull, all_slots_happened};
ghost use Rattle.slot_sizes.specs.SlotPasses.{all_slots_passed, first_slot_pass};

/// The pass over what happens to a ring tells the least number of slots with which it never finds
/// one still the reader's.
pub fn a_pass_tells_the_least_number_of_slots()
    ensures { (size : Size) (all : List Happening) → 1 ≤ size.blocks
        → IsNeverFull size all
        ↔ ((all_slots_passed (events_of all) first_slot_pass).least ≤ size.blocks) }
{}

/// The course over what happens to a ring counts what its notes do over the whole run.
pub fn a_course_counts_what_the_slots_count()
    ensures { (size : Size) (all : List Happening) → IsPlain all
        → slot_course_stats (all_slots_went_on size.blocks (events_of all) first_slot_course)
        ≡ slot_totals_of (all_slots_happened all (fresh size)).notes }
{}
