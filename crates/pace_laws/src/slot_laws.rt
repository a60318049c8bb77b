//! Laws of replays over rings of slots, by the schedule of a reader, each the contract of a
//! function that does nothing. Such a ring has no timer, so the phases that are tried make no
//! difference.
ghost use Rattle.std.specs.Prelude.{◌≡◌, ◌↔◌, ◌<◌, ◌≤◌, ◌^◌, ℕ, All, false};
ghost use Rattle.fanout_group.specs.Rules.{rolls_over};
ghost use Rattle.pace_laws.specs.LeastRings.{AreFewestSlotDrops, AreLeastSlots};
ghost use Rattle.pace_laws.specs.LeastRings.{AreLeastSlotsOfGroup, AreMostSlotDrops};
ghost use Rattle.pace_laws.specs.LeastRings.{group_slots_at, least_slots_by, slot_drops_at};
ghost use Rattle.pace_laws.specs.LeastRings.{AreFewestTotalSlotDrops, AreMostTotalSlotDrops};
ghost use Rattle.pace_laws.specs.LeastRings.{slot_stats_at, total_slot_drops_at};
ghost use Rattle.pace_laws.specs.Sizings.{HadEvents, InGroup, InReplay, IsSlotSizing, Sizing};
ghost use Rattle.pace_laws.specs.Sizings.{slot_events_at, slots_with};
ghost use Rattle.ring_events.specs.Happenings.{IsNeverHeld};
ghost use Rattle.ring_sizes.specs.Phases.{AreTried, IsFirstFewest, IsFirstMost, begun};
ghost use Rattle.ring_sizes.specs.Schedules.{IsPace};
ghost use Rattle.ring_sizes.specs.declared.paces.Timing.{Timing};
ghost use Rattle.ring_sizes.specs.declared.tries.Reached.{Reached};
ghost use Rattle.ring_sizes.specs.declared.tries.Tries.{Tries};
ghost use Rattle.slot_layout.specs.SlotFates.{slot_totals_of};

/// What is said of replays over slots is said of some: a reader that doesn't poll has a schedule
/// for any number of slots (clause `group`), and without rollover each member has a ring in the
/// replay by it (clause `member`).
pub fn each_member_over_slots_has_a_replay()
    ensures group { (sizing : Sizing) (pace : Timing) (slots phase from : ℕ)
        → IsSlotSizing sizing pace
        → InGroup (λ rings. ⊥) sizing (slots_with sizing slots) phase from → ⊥ }
    ensures member { (sizing : Sizing) (pace : Timing) (member slots phase from : ℕ)
        → rolls_over sizing.rules ≡ false
        → IsSlotSizing sizing pace → IsPace (begun pace phase from)
        → member < sizing.rules.members
        → InReplay (λ ring. ⊥) sizing (slots_with sizing slots) member phase from → ⊥ }
{}

/// Without rollover a member's ring of slots has the events of slot_sizes' schedule over what the
/// member is given, in the replay by the schedule of any reader but one that polls. A reader that
/// takes all that is there reads as often as the ring has slots, which does to the ring what
/// reading all does.
pub fn a_member_over_slots_runs_by_its_schedule()
    ensures { (sizing : Sizing) (pace : Timing) (member slots phase from : ℕ)
        → rolls_over sizing.rules ≡ false
        → IsSlotSizing sizing pace → IsPace (begun pace phase from)
        → let steps = slots_with sizing slots in
        InReplay (HadEvents steps (slot_events_at sizing pace member phase from))
        sizing steps member phase from }
{}

/// A member's ring never finds a slot still the reader's, and so loses nothing, exactly where it
/// has as many slots as the pass over the member's frames reports, or more.
pub fn a_slot_pass_decides_whether_a_member_loses()
    ensures { (sizing : Sizing) (pace : Timing) (member slots phase from : ℕ)
        → rolls_over sizing.rules ≡ false
        → IsSlotSizing sizing pace → IsPace (begun pace phase from) → 1 ≤ slots
        → InReplay
        (λ ring. IsNeverHeld ring.notes ↔ (least_slots_by sizing pace member phase from ≤ slots))
        sizing (slots_with sizing slots) member phase from }
{}

/// The statistics over the whole run of a member's ring of slots are those that the course over the
/// member's frames reports.
pub fn a_slot_course_counts_what_a_member_counts()
    ensures { (sizing : Sizing) (pace : Timing) (member slots phase from : ℕ)
        → rolls_over sizing.rules ≡ false
        → IsSlotSizing sizing pace → IsPace (begun pace phase from)
        → InReplay
        (λ ring. slot_totals_of ring.notes ≡ slot_stats_at sizing pace member slots phase from)
        sizing (slots_with sizing slots) member phase from }
{}

/// The greatest number that the passes over a member's frames report at the beginnings that are
/// tried is the member's least number of slots in the replays of the group, and the first beginning
/// at which a pass reports it is the first that needs it.
pub fn the_greatest_of_the_slot_passes_is_the_least_number()
    ensures { (sizing : Sizing) (pace : Timing) (tries : Tries) (found : Reached) (member : ℕ)
        → rolls_over sizing.rules ≡ false
        → IsSlotSizing sizing pace → AreTried pace tries → tries.from_end ≤ 2 ^ 32
        → member < sizing.rules.members
        → IsFirstMost tries (least_slots_by sizing pace member) found
        → AreLeastSlots sizing member tries found }
{}

/// No ring of the group finds a slot still the reader's exactly where there are as many slots as
/// each of the passes over the members' frames reports, or more: with rollover too.
pub fn slot_passes_decide_whether_a_group_loses()
    ensures { (sizing : Sizing) (pace : Timing) (slots phase from : ℕ)
        → IsSlotSizing sizing pace → IsPace (begun pace phase from) → 1 ≤ slots
        → InGroup
        (λ rings. All (λ ring. IsNeverHeld ring.notes) rings
        ↔ (group_slots_at sizing pace phase from ≤ slots))
        sizing (slots_with sizing slots) phase from }
{}

/// So the greatest number that the passes over all members' frames report at the beginnings that
/// are tried is the group's least number of slots.
pub fn the_greatest_of_all_slot_passes_is_the_least_number_of_the_group()
    ensures { (sizing : Sizing) (pace : Timing) (tries : Tries) (found : Reached)
        → IsSlotSizing sizing pace → AreTried pace tries → tries.from_end ≤ 2 ^ 32
        → IsFirstMost tries (group_slots_at sizing pace) found
        → AreLeastSlotsOfGroup sizing tries found }
{}

/// The most and the fewest packets that the courses over a member's frames drop are those that the
/// member drops in the replays of the group over rings of slots.
pub fn the_drops_of_slot_courses_are_those_of_replays()
    ensures most { (sizing : Sizing) (pace : Timing) (tries : Tries) (found : Reached)
        (member slots : ℕ)
        → rolls_over sizing.rules ≡ false
        → IsSlotSizing sizing pace → AreTried pace tries → tries.from_end ≤ 2 ^ 32
        → IsFirstMost tries (slot_drops_at sizing pace member slots) found
        → AreMostSlotDrops sizing member slots tries found }
    ensures fewest { (sizing : Sizing) (pace : Timing) (tries : Tries) (found : Reached)
        (member slots : ℕ)
        → rolls_over sizing.rules ≡ false
        → IsSlotSizing sizing pace → AreTried pace tries → tries.from_end ≤ 2 ^ 32
        → IsFirstFewest tries (slot_drops_at sizing pace member slots) found
        → AreFewestSlotDrops sizing member slots tries found }
{}

/// And those that the courses over all members' frames drop together are those that all members
/// together drop.
pub fn the_total_drops_of_slot_courses_are_those_of_replays()
    ensures most { (sizing : Sizing) (pace : Timing) (tries : Tries) (found : Reached) (slots : ℕ)
        → rolls_over sizing.rules ≡ false
        → IsSlotSizing sizing pace → AreTried pace tries → tries.from_end ≤ 2 ^ 32
        → IsFirstMost tries (total_slot_drops_at sizing pace slots) found
        → AreMostTotalSlotDrops sizing slots tries found }
    ensures fewest { (sizing : Sizing) (pace : Timing) (tries : Tries) (found : Reached)
        (slots : ℕ)
        → rolls_over sizing.rules ≡ false
        → IsSlotSizing sizing pace → AreTried pace tries → tries.from_end ≤ 2 ^ 32
        → IsFirstFewest tries (total_slot_drops_at sizing pace slots) found
        → AreFewestTotalSlotDrops sizing slots tries found }
{}
