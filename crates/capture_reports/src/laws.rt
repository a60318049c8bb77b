//! Laws of what the threads of a run leave, each the contract of a function that does nothing.
ghost use Rattle.std.specs.Prelude.{◌≡◌, ℕ, Option, List, map};
ghost use Rattle.capture_file.specs.declared.cpu_end.CpuEnd.{CpuEnd};
ghost use Rattle.capture_reading.specs.Sources.{AllGave};
ghost use Rattle.cpu_feed.specs.ClosedCpus.{AllClose, bytes_of, ends_of, firsts_of};
ghost use Rattle.cpu_feed.specs.CpuFeeds.{Feeding};
ghost use Rattle.fanout_group.specs.declared.runs.CpuLog.{CpuLog};
ghost use Rattle.member_turns.specs.Seats.{Seat};
ghost use Rattle.tp_layout.specs.Layouts.{taken_in};
ghost use Rattle.ring_model.specs.declared.notes.Note.{Note};
ghost use Rattle.ring_words.specs.Pendings.{Pends};
ghost use Rattle.ring_words.specs.Rings.{Entry};
ghost use Rattle.run_reports.specs.Reports.{IsRunReport};
ghost use Rattle.run_reports.specs.RingRules.{block_rules};
ghost use Rattle.setup_text.specs.declared.jobs.Job.{Job};
ghost use Rattle.run_reports.specs.declared.reports.RunReport.{RunReport};
ghost use Rattle.tap_outside.specs.Seen.{SourceSeen};
ghost use Rattle.ticket_dealer.specs.Seats.{SeatValue};
ghost use Rattle.tp_layout.specs.BlockWrites.{ShapedBytes};
ghost use Rattle.capture_reports.specs.Closed.{IsRingOf, MemberLeft, notes_of_members, rings_of};
ghost use Rattle.capture_reports.specs.Left.{AreLeft, CpuLeft, feeds_of};
ghost use Rattle.capture_reports.specs.Reported.{AreReported, IsCaptured, IsGroupRun};
ghost use Rattle.capture_reports.specs.Reported.{taken_of_notes};

use crate::group_laws::{the_timer_s_ticks_are_all, threads_report_a_group};
use capture_file::frames_are_numbered;
use reader_walk::a_text_is_read_as_it_was_written;
use run_reports::a_group_s_report_is_that_of_a_run;

/// What threads leave is a group's run, whatever was read from its blocks: its logs are those of
/// the bytes that the CPUs' sources gave, logs and notes are joined, the ticks of each member are
/// the moments, and the rings are those of the notes.
pub fn threads_leave_a_group()
    ensures { (job : Job) (moments : List ℕ) (cpus : List CpuLeft) (members : List MemberLeft)
        (timer : List Seat) (seats : List SeatValue) (number : ℕ)
        (nows : List (Option SourceSeen)) (logs : List CpuLog)
        → AreLeft job moments cpus members timer seats number
        → AllClose (feeds_of cpus) nows logs
        → IsGroupRun job moments (bytes_of (feeds_of cpus)) (ends_of logs) logs
        (notes_of_members members) (rings_of members) }
{
    frames_are_numbered();
    the_timer_s_ticks_are_all();
    threads_report_a_group();
}

/// Sources that are returned when their CPUs are closed gave the bytes that the CPUs have, and
/// ended as the logs say.
pub fn threads_leave_what_sources_gave()
    ensures { (cpus : List Feeding) (nows : List (Option SourceSeen)) (logs : List CpuLog)
        → AllClose cpus nows logs → AllGave (firsts_of cpus) nows (bytes_of cpus) (ends_of logs) }
{}

/// A taker that read all blocks of a ring that was finished, in order, read the blocks of the
/// ring's notes.
pub fn blocks_are_read_as_they_were_noted()
    ensures { (job : Job) (notes : List Note) (ring : Pends ShapedBytes)
        → IsRingOf job.setup.shape notes ring
        → map (λ (entry : Entry). taken_in job.setup.shape entry.0) ring.retired
        ≡ taken_of_notes job.setup.shape notes }
{
    a_text_is_read_as_it_was_written();
}

/// The report of a group's run with readers is that of a run.
pub fn threads_report_a_run()
    ensures { (job : Job) (moments : List ℕ) (bytes : List (List ℕ)) (ends : List CpuEnd)
        (notes : List (List Note)) (rings : List (Pends ShapedBytes)) (report : RunReport)
        → IsGroupRun job moments bytes ends report.cpus notes rings
        → AreReported job.setup.shape job.setup.dump notes rings report.members
        → IsRunReport (block_rules job.setup.shape) job bytes ends report }
{
    a_group_s_report_is_that_of_a_run();
}

/// And it reports the moments of the ticks, and what each ring held.
pub fn threads_report_a_capture()
    ensures { (job : Job) (moments : List ℕ) (bytes : List (List ℕ)) (ends : List CpuEnd)
        (notes : List (List Note)) (rings : List (Pends ShapedBytes)) (report : RunReport)
        → IsGroupRun job moments bytes ends report.cpus notes rings
        → AreReported job.setup.shape job.setup.dump notes rings report.members
        → IsCaptured job.setup.shape moments report }
{}
