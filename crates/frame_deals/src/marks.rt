//! What comes of an arrival, as far as the ticket doesn't decide.
ghost use Rattle.std.specs.Prelude.{◌≡◌, IfSome, Some};
ghost use Rattle.deal_rules.specs.Marks.{mark_of};
ghost use Rattle.fanout_group.specs.Arrivals.{IsArrival};
ghost use Rattle.fanout_group.specs.Judgements.{AgreesAt, JudgeRules, rules_by};
ghost use Rattle.fanout_group.specs.RulesOfJudging.{judge_rules_of};
ghost use Rattle.fanout_group.specs.Rules.{home_by};
ghost use Rattle.frame_deals.specs.Dealings.{IsRoom};

use deal_rules::Mark;
use fanout_group::{ArrivalRules, Judged, Mode, Plan};
use frame_view::Frame;
use ring_model::need;
use std::alloc::Global;

/// The mark of what arrives with a frame of the CPU, if something does, for ticket 0.
pub(crate) fn mark(
    alloc: Global,
    plan: &Plan,
    rules: &ArrivalRules,
    cpu: u32,
    arrival: Option<Frame>,
) -> Mark
    requires sound { IfSome arrival IsArrival }
    requires place { IfSome arrival (λ frame. frame.cpu ≡ cpu) }
    requires room { IsRoom rules.now.room }
    ensures { (judge : JudgeRules) → AgreesAt cpu judge (judge_rules_of rules.now)
        → result ≡ mark_of (rules_by plan.now judge) rules.now.room 0 arrival }
{
    match arrival {
        Some(frame) => mark_frame(alloc, plan, rules, cpu, frame),
        None => Mark::Nothing,
    }
}

/// The mark of an arrival.
fn mark_frame(alloc: Global, plan: &Plan, rules: &ArrivalRules, cpu: u32, frame: Frame) -> Mark
    requires sound { IsArrival frame }
    requires place { frame.cpu ≡ cpu }
    requires room { IsRoom rules.now.room }
    ensures { (judge : JudgeRules) → AgreesAt cpu judge (judge_rules_of rules.now)
        → result ≡ mark_of (rules_by plan.now judge) rules.now.room 0 (Some frame) }
{
    let Judged { entry, offer } = rules.judge(alloc, frame, None);
    let Some(offer) = offer else {
        return Mark::Refused;
    };
    Mark::Given {
        home: home(plan, entry.hash, cpu, rules.queue),
        need: need(offer.snap),
    }
}

/// The member that an arrival is for with ticket 0 and present member 0.
fn home(plan: &Plan, hash: u32, cpu: u32, queue: u32) -> u16
    ensures { result ≡ home_by plan.now.mode plan.now.members hash 0 cpu queue 0 }
{
    let members = plan.members();
    let home = match plan.mode() {
        Mode::Hash => hash % members,
        Mode::Cpu => cpu % members,
        Mode::Qm => queue % members,
        Mode::Lb | Mode::Rollover => 0,
    };
    home as u16
}
