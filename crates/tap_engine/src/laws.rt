//! What the headline says about a report: that each frame appears exactly once, and when none is
//! dropped.
ghost use Rattle.std.specs.Prelude.{All};
ghost use Rattle.run_reports.specs.Jobs.{arriving_of, rules_of};
ghost use Rattle.run_reports.specs.Members.{DropsNoneBelow};
ghost use Rattle.run_reports.specs.Once.{EachArrivalAppearsOnce};
ghost use Rattle.run_reports.specs.Reports.{logged, notes_of};
ghost use Rattle.tap_outside.specs.Seen.{StoreSeen};
ghost use Rattle.tap_engine.specs.Commands.{Named};
ghost use Rattle.tap_engine.specs.Headline.{IsHeadline, rules_for};

use run_reports::{RunReport, a_member_with_places_left_dropped_nothing};

/// In a report that fulfils the headline each arrival whose verdict isn't 0 appears once among what
/// the members kept and dropped, and nothing else appears there. The call does nothing; its
/// contract is the law.
pub fn each_frame_of_a_run_appears_exactly_once(report: &RunReport)
    ensures { (old new : StoreSeen) (named : Named)
        (headline : IsHeadline old new named report.now) →
        EachArrivalAppearsOnce (rules_of headline.job)
        (logged (arriving_of headline.job headline.bytes) report.now.cpus)
        (notes_of report.now.members) }
{
    let _ = report;
}

/// In a report that fulfils the headline a member that has filled fewer blocks, or slots under
/// `replay2`, than its ring has dropped nothing. So with enough of them a run loses no frame. The
/// call does nothing; its contract is the law.
pub fn a_ring_that_is_not_filled_dropped_nothing(report: &RunReport)
    ensures { (old new : StoreSeen) (named : Named)
        (headline : IsHeadline old new named report.now) →
        All (DropsNoneBelow (rules_for named.command headline.job).places)
        report.now.members }
{
    let _ = report;
    a_member_with_places_left_dropped_nothing();
}
