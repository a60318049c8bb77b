//! Laws of the replay report, each the contract of a function that does nothing.
ghost use Rattle.std.specs.Prelude.{◌<◌, List, Option};
ghost use Rattle.frame_view.specs.declared.frames.Frame.{Frame};
ghost use Rattle.ring_model.specs.Ring.{Size};
ghost use Rattle.fanout_group.specs.Once.{EachAppearsOnce};
ghost use Rattle.fanout_group.specs.Rules.{Rules};
ghost use Rattle.receive_ring.specs.Replay.{replayed};
ghost use Rattle.receive_ring.specs.Reports.{AreArrivals, IsReplayReport, IsRingReport, logged_of};
ghost use Rattle.receive_ring.specs.Reports.{notes_of};
ghost use Rattle.run_reports.specs.RingRules.{IsWholeBy};
ghost use Rattle.run_reports.specs.RingSteps.{steps_by};
ghost use Rattle.run_reports.specs.declared.ring_kind.RingKind.{RingKind};
ghost use Rattle.setup_text.specs.TickOrder.{IsSchedule};
ghost use Rattle.setup_text.specs.declared.lines.Line.{Line};

use fanout_group::each_frame_appears_exactly_once;

/// Whatever the schedule, the logs of a replay are lawful, logs and notes are joined, and each
/// member's notes are a run of its ring from its opening to its close.
pub fn a_replay_reports_a_group()
    ensures { (kind : RingKind) (rules : Rules) (size : Size)
        (arriving : List (List (Option Frame))) (lines : List Line)
        → 0 < rules.members → AreArrivals arriving → IsSchedule lines
        → IsReplayReport rules size.room (IsRingReport size (IsWholeBy kind size)) arriving
        (replayed rules (steps_by kind size) arriving lines) }
{}

/// Among the Kept and Dropped notes of a replay's members each arrival that the filter passes
/// appears once, and nothing else appears there.
pub fn each_frame_of_a_replay_appears_exactly_once()
    ensures { (kind : RingKind) (rules : Rules) (size : Size)
        (arriving : List (List (Option Frame))) (lines : List Line)
        → 0 < rules.members → AreArrivals arriving → IsSchedule lines
        → EachAppearsOnce
        (logged_of arriving (replayed rules (steps_by kind size) arriving lines).cpus)
        (notes_of (replayed rules (steps_by kind size) arriving lines).members) }
{
    each_frame_appears_exactly_once();
    a_replay_reports_a_group();
}
