//! Laws of replays, each the contract of a function that does nothing.
ghost use Rattle.std.specs.Prelude.{◌≡◌, ◌<◌, ◌≤◌, ◌%◌, false, ℕ, List, map, Option, All};
ghost use Rattle.std.specs.List.{AllByRecursion};
ghost use Rattle.capture_file.specs.declared.cpu_end.CpuEnd.{CpuEnd};
ghost use Rattle.frame_view.specs.declared.frames.Frame.{Frame};
ghost use Rattle.fanout_group.specs.Rules.{Rules, rolls_over};
ghost use Rattle.receive_ring.specs.Replay.{finished_ring, replayed};
ghost use Rattle.run_reports.specs.RingSteps.{RingSteps, block_steps};
ghost use Rattle.run_reports.specs.RingSteps.{slot_steps};
ghost use Rattle.replay_laws.specs.AlikeSlots.{IsLikeSlotRing, KeepsTags, SlotsWentOnAlike};
ghost use Rattle.replay_laws.specs.Alone.{all_happened_by, alone, dealt};
ghost use Rattle.replay_laws.specs.Larger.{IsLarger, IsSame};
ghost use Rattle.replay_laws.specs.LargerJobs.{HasMoreBlocks, HasMoreSlots, ShowsNoFreeze};
ghost use Rattle.replay_laws.specs.LargerJobs.{block_report, slot_report};
ghost use Rattle.ring_events.specs.Happenings.{IsNeverHeld, all_happened};
ghost use Rattle.ring_events.specs.declared.events.Happening.{Happening};
ghost use Rattle.ring_laws.specs.Alike.{AreLikeHappenings, AreLikeNotes, AreLikeStats, Gap};
ghost use Rattle.ring_laws.specs.Alike.{KeepsSnaps};
ghost use Rattle.ring_laws.specs.Runs.{IsCourse};
ghost use Rattle.ring_model.specs.Ring.{Size};
ghost use Rattle.ring_model.specs.Rings.{Ring, fresh};
ghost use Rattle.ring_model.specs.declared.notes.Note.{Note};
ghost use Rattle.run_reports.specs.Jobs.{rules_of};
ghost use Rattle.run_reports.specs.Reports.{IsRunReport};
ghost use Rattle.run_reports.specs.RingRules.{block_rules, slot_rules};
ghost use Rattle.run_reports.specs.declared.reports.RunReport.{RunReport};
ghost use Rattle.setup_text.specs.TickOrder.{IsSchedule};
ghost use Rattle.setup_text.specs.declared.jobs.Job.{Job};
ghost use Rattle.setup_text.specs.declared.lines.Line.{Line};
ghost use Rattle.slot_layout.specs.SlotFates.{slot_stats_of, slot_stretches_from, slot_totals_of};
ghost use Rattle.slot_layout.specs.SlotSteps.{SlotState};

use ring_laws::a_ring_that_counted_no_freeze_found_none_held;
use ring_model::statistics_count_each_packet;
use slot_layout::a_slot_ring_counts_as_a_ring_of_blocks;

/// A replay of which no note found its block, or slot, still the reader's is that of rings with
/// more of them too: the same logs, notes and released blocks. So where rings of some number of
/// blocks never freeze, none with more do.
pub fn a_ring_that_never_froze_is_as_good_as_a_larger_one()
    ensures blocks { (rules : Rules) (size larger : Size) (arriving : List (List (Option Frame)))
        (lines : List Line)
        → IsLarger size larger
        → All (λ ring. IsNeverHeld ring.notes)
        (replayed rules (block_steps size) arriving lines).members
        → IsSame (replayed rules (block_steps size) arriving lines)
        (replayed rules (block_steps larger) arriving lines) }
    ensures slots { (rules : Rules) (size larger : Size) (arriving : List (List (Option Frame)))
        (lines : List Line)
        → IsLarger size larger
        → All (λ ring. IsNeverHeld ring.notes)
        (replayed rules (slot_steps size) arriving lines).members
        → IsSame (replayed rules (slot_steps size) arriving lines)
        (replayed rules (slot_steps larger) arriving lines) }
{}

/// Without rollover the members of a group stand alone: each ring does what it would do alone with
/// what its member is given, which neither the other rings nor its own size decide.
pub fn members_stand_alone_without_rollover()
    ensures steps { (rules : Rules) (steps : RingSteps) (arriving : List (List (Option Frame)))
        (lines : List Line)
        → rolls_over rules ≡ false
        → (replayed rules steps arriving lines).members
        ≡ map (alone steps) (dealt rules steps.size.room arriving lines) }
    ensures blocks { (rules : Rules) (size : Size) (arriving : List (List (Option Frame)))
        (lines : List Line)
        → rolls_over rules ≡ false
        → (replayed rules (block_steps size) arriving lines).members
        ≡ map (λ given. finished_ring (all_happened given (fresh size)))
        (dealt rules size.room arriving lines) }
{}

/// While nothing is held, nothing rolls over: where no ring alone, each with what its member is
/// given at home, finds a block (or slot) still the reader's, the rings of the group are these; and
/// so they are where no ring of the group finds one. So a group with rollover never freezes exactly
/// where each of its members alone doesn't.
pub fn nothing_rolls_over_while_nothing_is_held()
    ensures alone { (rules : Rules) (steps : RingSteps) (arriving : List (List (Option Frame)))
        (lines : List Line)
        → let rings = map (alone steps) (dealt rules steps.size.room arriving lines) in
        All (λ ring. IsNeverHeld ring.notes) rings
        → (replayed rules steps arriving lines).members ≡ rings }
    ensures group { (rules : Rules) (steps : RingSteps) (arriving : List (List (Option Frame)))
        (lines : List Line)
        → All (λ ring. IsNeverHeld ring.notes) (replayed rules steps arriving lines).members
        → (replayed rules steps arriving lines).members
        ≡ map (alone steps) (dealt rules steps.size.room arriving lines) }
{}

/// What each member is given by a schedule is a course of a ring of any blocks: so what ring_laws
/// says of runs holds of the rings of a replay without rollover.
pub fn each_member_is_given_a_course()
    ensures { (rules : Rules) (size : Size) (arriving : List (List (Option Frame)))
        (lines : List Line)
        → IsSchedule lines → 2 ≤ size.blocks → 0 < size.tov
        → 82 < size.room → size.room % 8 ≡ 0
        → AllByRecursion (IsCourse size) (dealt rules size.room arriving lines) }
{}

/// The report of a replay of which no note says that a block, or slot, was still the reader's is
/// that of the same job over rings with more of them. So the least number with which no ring
/// freezes is a threshold.
pub fn a_job_that_never_froze_reports_as_with_more_blocks()
    ensures blocks { (job other : Job) (lines : List Line) (all : List (List ℕ))
        (ends : List CpuEnd)
        → HasMoreBlocks job other
        → All (λ member. IsNeverHeld member.notes) (block_report job lines all ends).members
        → block_report other lines all ends ≡ block_report job lines all ends }
    ensures slots { (job other : Job) (lines : List Line) (all : List (List ℕ))
        (ends : List CpuEnd)
        → HasMoreSlots job other
        → All (λ member. IsNeverHeld member.notes) (slot_report job lines all ends).members
        → slot_report other lines all ends ≡ slot_report job lines all ends }
{}

/// In the report of a run without rollover a member whose line has `freezes 0` found no block still
/// the reader's: no packet is handed back, and each block found held would be a drop or a freeze.
pub fn a_member_without_a_freeze_found_none_held()
    ensures { (job : Job) (bytes : List (List ℕ)) (ends : List CpuEnd) (report : RunReport)
        → IsRunReport (block_rules job.setup.shape) job bytes ends report
        → rolls_over (rules_of job) ≡ false
        → All (λ member. ShowsNoFreeze job.setup.shape member → IsNeverHeld member.notes)
        report.members }
{
    a_ring_that_counted_no_freeze_found_none_held();
}

/// In the report of a run over rings of slots without rollover a member whose line has `drops 0`
/// found no slot still the reader's: no packet is handed back, and each slot found held would be a
/// drop.
pub fn a_member_over_slots_without_a_drop_found_none_held()
    ensures { (job : Job) (bytes : List (List ℕ)) (ends : List CpuEnd) (report : RunReport)
        → IsRunReport (slot_rules job.setup.shape) job bytes ends report
        → rolls_over (rules_of job) ≡ false
        → All (λ member. (slot_totals_of member.notes).drops ≡ 0 → IsNeverHeld member.notes)
        report.members }
{
    a_slot_ring_counts_as_a_ring_of_blocks();
    statistics_count_each_packet();
}

/// Without rollover a replay whose lines all have `freezes 0` reports the same over rings with more
/// blocks.
pub fn a_replay_without_a_freeze_reports_as_with_more_blocks()
    ensures { (job other : Job) (lines : List Line) (bytes : List (List ℕ)) (ends : List CpuEnd)
        → IsRunReport (block_rules job.setup.shape) job bytes ends
        (block_report job lines bytes ends)
        → rolls_over (rules_of job) ≡ false
        → All (ShowsNoFreeze job.setup.shape) (block_report job lines bytes ends).members
        → HasMoreBlocks job other
        → block_report other lines bytes ends ≡ block_report job lines bytes ends }
{
    a_member_without_a_freeze_found_none_held();
    a_job_that_never_froze_reports_as_with_more_blocks();
}

/// Two rings of as many slots go on alike, whatever happens to them, if equally many filled slots
/// are with the reader and packets were lost in both or in neither: they keep and drop the same
/// packets and fill the same slots, but for the numbers of slots. There is no open block and no
/// deadline, so a run may be cut wherever all slots are given back. Of the statistics taken since,
/// the first ones differ by what either ring had counted before, and all later ones are the same.
pub fn rings_of_slots_alike_go_on_alike()
    ensures rings { (gap : Gap) (size : Size) (happenings others : List Happening)
        (one other : Ring)
        → KeepsSnaps gap → KeepsTags gap → IsLikeSlotRing gap one other
        → AreLikeHappenings gap happenings others
        → SlotsWentOnAlike gap one other (all_happened_by (slot_steps size) happenings one)
        (all_happened_by (slot_steps size) others other) }
    ensures stats { (gap : Gap) (notes other_notes : List Note) (one other : SlotState)
        → AreLikeNotes gap notes other_notes
        → AreLikeStats (slot_stats_of one) (slot_stats_of other)
        (slot_stretches_from one notes) (slot_stretches_from other other_notes) }
{}
