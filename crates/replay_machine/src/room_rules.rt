//! The rules by which the arrivals of a CPU are judged, for rings whose offers are cut to a given
//! room.
ghost use Rattle.std.specs.Prelude.{◌≡◌};
ghost use Rattle.fanout_group.specs.Judgements.{AgreesAt};
ghost use Rattle.fanout_group.specs.RulesOfJudging.{judge_rules_of};
ghost use Rattle.run_reports.specs.Jobs.{judge_rules_of as judge_rules_of_job};

use cpu_feed::rules_at;
use fanout_group::ArrivalRules;
use setup_text::Job;

/// The rules by which the arrivals of a CPU of a job are judged, for this room.
pub(crate) fn rules_with(job: &Job, cpu: usize, room: u32) -> ArrivalRules
    ensures agrees { AgreesAt cpu (judge_rules_of_job job.now) (judge_rules_of result) }
    ensures queue { result.queue ≡ (judge_rules_of_job job.now).queue cpu }
    ensures room { result.room ≡ room }
{
    let mut rules = rules_at(job, cpu);
    rules.room = room;
    rules
}
