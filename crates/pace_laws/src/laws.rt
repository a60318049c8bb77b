//! Laws of replays over rings of blocks, by the schedule of a reader, each the contract of a
//! function that does nothing.
ghost use Rattle.std.specs.Prelude.{◌≡◌, ◌↔◌, ◌<◌, ◌≤◌, ◌^◌, ℕ, All, false};
ghost use Rattle.fanout_group.specs.Rules.{rolls_over};
ghost use Rattle.pace_laws.specs.LeastRings.{AreFewestDrops, AreMostDrops, IsLeastOfGroup};
ghost use Rattle.pace_laws.specs.LeastRings.{IsLeastRing, drops_at, group_least_at, least_at};
ghost use Rattle.pace_laws.specs.LeastRings.{AreFewestTotalDrops, AreMostTotalDrops};
ghost use Rattle.pace_laws.specs.LeastRings.{stats_at, total_drops_at};
ghost use Rattle.pace_laws.specs.Sizings.{HadEvents, InGroup, InReplay, IsSizing, Sizing};
ghost use Rattle.pace_laws.specs.Sizings.{blocks_with, events_at, size_with};
ghost use Rattle.ring_events.specs.Happenings.{IsNeverHeld};
ghost use Rattle.ring_model.specs.Fates.{totals_of};
ghost use Rattle.ring_sizes.specs.Phases.{AreTried, IsFirstFewest, IsFirstMost, begun};
ghost use Rattle.ring_sizes.specs.Schedules.{IsPace};
ghost use Rattle.ring_sizes.specs.declared.paces.Timing.{Timing};
ghost use Rattle.ring_sizes.specs.declared.tries.Reached.{Reached};
ghost use Rattle.ring_sizes.specs.declared.tries.Tries.{Tries};

/// What is said of replays is said of some: a reader that doesn't poll has a schedule for any
/// number of blocks (clause `group`), and without rollover each member has a ring in the replay by
/// it (clause `member`).
pub fn each_member_has_a_replay()
    ensures group { (sizing : Sizing) (pace : Timing) (blocks phase from : ℕ)
        → IsSizing sizing pace
        → InGroup (λ rings. ⊥) sizing (blocks_with sizing blocks) phase from → ⊥ }
    ensures member { (sizing : Sizing) (pace : Timing) (member blocks phase from : ℕ)
        → rolls_over sizing.rules ≡ false
        → IsSizing sizing pace → IsPace (begun pace phase from) → 1 ≤ blocks
        → member < sizing.rules.members
        → InReplay (λ ring. ⊥) sizing (blocks_with sizing blocks) member phase from → ⊥ }
{}

/// Without rollover a member's ring has the events of ring_sizes' schedule over what the member is
/// given, in the replay by the schedule of any reader but one that polls: whatever the other
/// members are given, and however many blocks the ring has. A reader that takes all that is there
/// reads as often as the ring has blocks, which does to the ring what reading all does.
pub fn a_member_runs_by_its_schedule()
    ensures { (sizing : Sizing) (pace : Timing) (member blocks phase from : ℕ)
        → rolls_over sizing.rules ≡ false
        → IsSizing sizing pace → IsPace (begun pace phase from) → 1 ≤ blocks
        → let steps = blocks_with sizing blocks in
        InReplay (HadEvents steps (events_at sizing pace member phase from))
        sizing steps member phase from }
{}

/// A member's ring never finds a block still the reader's exactly where it has as many blocks as
/// the pass over the member's frames reports, or more.
pub fn a_pass_decides_whether_a_member_freezes()
    ensures { (sizing : Sizing) (pace : Timing) (member blocks phase from : ℕ)
        → rolls_over sizing.rules ≡ false
        → IsSizing sizing pace → IsPace (begun pace phase from) → 1 ≤ blocks
        → InReplay
        (λ ring. IsNeverHeld ring.notes ↔ (least_at sizing pace member phase from ≤ blocks))
        sizing (blocks_with sizing blocks) member phase from }
{}

/// The statistics over the whole run of a member's ring are those that the course over the member's
/// frames reports.
pub fn a_course_counts_what_a_member_counts()
    ensures { (sizing : Sizing) (pace : Timing) (member blocks phase from : ℕ)
        → rolls_over sizing.rules ≡ false
        → IsSizing sizing pace → IsPace (begun pace phase from) → 1 ≤ blocks
        → InReplay
        (λ ring. totals_of (size_with sizing blocks) ring.notes
        ≡ stats_at sizing pace member blocks phase from)
        sizing (blocks_with sizing blocks) member phase from }
{}

/// The greatest number that the passes over a member's frames report at the phases and beginnings
/// that are tried is the member's least ring in the replays of the group, and the first phase and
/// beginning at which a pass reports it are the first that need it.
pub fn the_greatest_of_the_passes_is_the_least_ring()
    ensures { (sizing : Sizing) (pace : Timing) (tries : Tries) (found : Reached) (member : ℕ)
        → rolls_over sizing.rules ≡ false
        → IsSizing sizing pace → AreTried pace tries → tries.from_end ≤ 2 ^ 32
        → member < sizing.rules.members
        → IsFirstMost tries (least_at sizing pace member) found
        → IsLeastRing sizing member tries found }
{}

/// No ring of the group finds a block still the reader's exactly where there are as many blocks as
/// each of the passes over the members' frames reports, or more: with rollover too, since nothing
/// rolls over before something is held.
pub fn passes_decide_whether_a_group_freezes()
    ensures { (sizing : Sizing) (pace : Timing) (blocks phase from : ℕ)
        → IsSizing sizing pace → IsPace (begun pace phase from) → 1 ≤ blocks
        → InGroup
        (λ rings. All (λ ring. IsNeverHeld ring.notes) rings
        ↔ (group_least_at sizing pace phase from ≤ blocks))
        sizing (blocks_with sizing blocks) phase from }
{}

/// So the greatest number that the passes over all members' frames report at the phases and
/// beginnings that are tried is the group's least ring, and the first phase and beginning at which
/// one reports it are the first that need it.
pub fn the_greatest_of_all_passes_is_the_least_ring_of_the_group()
    ensures { (sizing : Sizing) (pace : Timing) (tries : Tries) (found : Reached)
        → IsSizing sizing pace → AreTried pace tries → tries.from_end ≤ 2 ^ 32
        → IsFirstMost tries (group_least_at sizing pace) found
        → IsLeastOfGroup sizing tries found }
{}

/// The most and the fewest packets that the courses over a member's frames drop are those that the
/// member drops in the replays of the group.
pub fn the_drops_of_courses_are_those_of_replays()
    ensures most { (sizing : Sizing) (pace : Timing) (tries : Tries) (found : Reached)
        (member blocks : ℕ)
        → rolls_over sizing.rules ≡ false
        → IsSizing sizing pace → AreTried pace tries → tries.from_end ≤ 2 ^ 32 → 1 ≤ blocks
        → IsFirstMost tries (drops_at sizing pace member blocks) found
        → AreMostDrops sizing member blocks tries found }
    ensures fewest { (sizing : Sizing) (pace : Timing) (tries : Tries) (found : Reached)
        (member blocks : ℕ)
        → rolls_over sizing.rules ≡ false
        → IsSizing sizing pace → AreTried pace tries → tries.from_end ≤ 2 ^ 32 → 1 ≤ blocks
        → IsFirstFewest tries (drops_at sizing pace member blocks) found
        → AreFewestDrops sizing member blocks tries found }
{}

/// And those that the courses over all members' frames drop together are those that all members
/// together drop.
pub fn the_total_drops_of_courses_are_those_of_replays()
    ensures most { (sizing : Sizing) (pace : Timing) (tries : Tries) (found : Reached) (blocks : ℕ)
        → rolls_over sizing.rules ≡ false
        → IsSizing sizing pace → AreTried pace tries → tries.from_end ≤ 2 ^ 32 → 1 ≤ blocks
        → IsFirstMost tries (total_drops_at sizing pace blocks) found
        → AreMostTotalDrops sizing blocks tries found }
    ensures fewest { (sizing : Sizing) (pace : Timing) (tries : Tries) (found : Reached)
        (blocks : ℕ)
        → rolls_over sizing.rules ≡ false
        → IsSizing sizing pace → AreTried pace tries → tries.from_end ≤ 2 ^ 32 → 1 ≤ blocks
        → IsFirstFewest tries (total_drops_at sizing pace blocks) found
        → AreFewestTotalDrops sizing blocks tries found }
{}
