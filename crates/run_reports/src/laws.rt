//! Laws of reports, each the contract of a function that does nothing.
ghost use Rattle.std.specs.Prelude.{ℕ, List, Option, All};
ghost use Rattle.capture_file.specs.declared.cpu_end.CpuEnd.{CpuEnd};
ghost use Rattle.fanout_group.specs.Joined.{Logged};
ghost use Rattle.fanout_group.specs.Once.{IsGroupReport};
ghost use Rattle.fanout_group.specs.Rules.{Rules};
ghost use Rattle.frame_view.specs.declared.frames.Frame.{Frame};
ghost use Rattle.ring_model.specs.declared.notes.Note.{Note};
ghost use Rattle.run_reports.specs.Jobs.{arriving_of, rules_of};
ghost use Rattle.run_reports.specs.Logs.{AreLogsFrom};
ghost use Rattle.run_reports.specs.Members.{AreShort, DropsNoneBelow};
ghost use Rattle.run_reports.specs.Once.{EachArrivalAppearsOnce, EachIsAtItsLastTry};
ghost use Rattle.run_reports.specs.Reports.{IsReport, IsRunReport};
ghost use Rattle.run_reports.specs.RingRules.{Serves, rules_by};
ghost use Rattle.run_reports.specs.Totals.{TotalsAddUp};
ghost use Rattle.setup_text.specs.declared.jobs.Job.{Job};
ghost use Rattle.run_reports.specs.declared.reports.RunReport.{RunReport};
ghost use Rattle.run_reports.specs.declared.ring_kind.RingKind.{RingKind};

use fanout_group::each_frame_appears_exactly_once;
use ring_model::{a_ring_with_blocks_left_drops_nothing, statistics_count_each_packet};
use slot_layout::{a_ring_with_slots_left_drops_nothing, a_slot_ring_counts_as_a_ring_of_blocks};

/// Each packet that a group reports is short enough for an output file: it was cut to the room of a
/// block or slot.
pub fn a_group_s_packets_are_short()
    ensures { (kind : RingKind) (job : Job) (arriving : List (List (Option Frame)))
        (report : RunReport) → Serves kind job.setup.shape
        → IsReport (rules_by kind job.setup.shape) (rules_of job) job.setup.dump arriving report
        → AreShort report.members }
{}

/// Where logs are lawful and joined with notes, each arrival whose verdict isn't 0 appears once
/// among all Kept and Dropped notes of all members, and nothing else appears there.
pub fn each_arrival_appears_exactly_once()
    ensures { (rules : Rules) (room : ℕ) (cpus : List Logged) (members : List (List Note))
        → IsGroupReport rules room cpus members → EachArrivalAppearsOnce rules cpus members }
{
    each_frame_appears_exactly_once();
}

/// A report is that of a run if its logs are those of the bytes, logs and notes are joined, and
/// each member's notes are a whole run: the rest follows.
pub fn a_group_s_report_is_that_of_a_run()
    ensures { (kind : RingKind) (job : Job) (bytes : List (List ℕ)) (ends : List CpuEnd)
        (report : RunReport) → Serves kind job.setup.shape
        → AreLogsFrom 0 bytes ends report.cpus
        → IsReport (rules_by kind job.setup.shape) (rules_of job) job.setup.dump
        (arriving_of job bytes) report
        → IsRunReport (rules_by kind job.setup.shape) job bytes ends report }
{
    each_arrival_appears_exactly_once();
    a_group_s_packets_are_short();
}

/// In the report of a run the arrivals are those that the filter refused, those that members kept
/// and those that they dropped.
pub fn the_totals_add_up()
    ensures { (kind : RingKind) (job : Job) (bytes : List (List ℕ)) (ends : List CpuEnd)
        (report : RunReport)
        → IsRunReport (rules_by kind job.setup.shape) job bytes ends report
        → TotalsAddUp (rules_by kind job.setup.shape).totals report }
{
    statistics_count_each_packet();
    a_slot_ring_counts_as_a_ring_of_blocks();
}

/// In the report of a run a member whose reader was handed fewer blocks, or slots, than its ring
/// has dropped nothing. So a ring that has more of them than a run fills loses none of its frames.
pub fn a_member_with_places_left_dropped_nothing()
    ensures { (kind : RingKind) (job : Job) (bytes : List (List ℕ)) (ends : List CpuEnd)
        (report : RunReport)
        → IsRunReport (rules_by kind job.setup.shape) job bytes ends report
        → All (DropsNoneBelow (rules_by kind job.setup.shape).places) report.members }
{
    a_ring_with_blocks_left_drops_nothing();
    a_ring_with_slots_left_drops_nothing();
}

/// It is among the notes of one member: that of the last try of its route.
pub fn each_arrival_is_at_its_last_try()
    ensures { (rules : Rules) (room : ℕ) (cpus : List Logged) (members : List (List Note))
        → IsGroupReport rules room cpus members → EachIsAtItsLastTry cpus members }
{}
