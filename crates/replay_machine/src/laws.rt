//! Laws of the replay of a job, each the contract of a function that does nothing.
ghost use Rattle.std.specs.Prelude.{◌≡◌, ℕ, List, length, All};
ghost use Rattle.capture_file.specs.declared.cpu_end.CpuEnd.{CpuEnd};
ghost use Rattle.receive_ring.specs.Reports.{IsRingOf};
ghost use Rattle.replay_machine.specs.Runs.{replay_of, report_of};
ghost use Rattle.run_reports.specs.Reports.{IsRunReport};
ghost use Rattle.run_reports.specs.RingRules.{Serves, rules_by};
ghost use Rattle.run_reports.specs.declared.ring_kind.RingKind.{RingKind};
ghost use Rattle.setup_text.specs.TickOrder.{IsSchedule};
ghost use Rattle.setup_text.specs.declared.jobs.Job.{Job};
ghost use Rattle.setup_text.specs.declared.lines.Line.{Line};

use capture_file::frames_are_numbered;
use receive_ring::a_replay_reports_a_group;
use run_reports::a_group_s_report_is_that_of_a_run;

/// The report of a replay is that of a run, whatever the schedule: its logs are lawful over the
/// arrivals of what the sources gave, logs and notes are joined, each arrival that passes appears
/// exactly once, each member's notes are a run of its ring from its opening to its close, and what
/// a member's reader read is what was kept. A note that says that a block or slot was still the
/// reader's names one that wasn't released.
pub fn a_job_reports_a_group()
    ensures run { (kind : RingKind) (job : Job) (lines : List Line) (all : List (List ℕ))
        (ends : List CpuEnd) → Serves kind job.setup.shape → IsSchedule lines
        → length ends ≡ length all
        → IsRunReport (rules_by kind job.setup.shape) job all ends
        (report_of (rules_by kind job.setup.shape) job lines all ends) }
    ensures rings { (kind : RingKind) (job : Job) (lines : List Line) (all : List (List ℕ))
        → Serves kind job.setup.shape → IsSchedule lines
        → All (IsRingOf (rules_by kind job.setup.shape))
        (replay_of (rules_by kind job.setup.shape) job lines all).members }
{
    frames_are_numbered();
    a_replay_reports_a_group();
    a_group_s_report_is_that_of_a_run();
}
