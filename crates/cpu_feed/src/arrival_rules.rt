//! The rules by which the arrivals of a CPU are judged.
ghost use Rattle.std.specs.Prelude.{◌≡◌, ◌%◌, ◌<◌};
ghost use Rattle.fanout_group.specs.Judgements.{AgreesAt};
ghost use Rattle.fanout_group.specs.RulesOfJudging.{judge_rules_of};
ghost use Rattle.run_reports.specs.Jobs.{judge_rules_of as judge_rules_of_job};
ghost use Rattle.tp_layout.specs.Requests.{room_of};

use fanout_group::ArrivalRules;
use setup_text::Job;
use tp_layout::a_shape_is_sound;

/// The rules by which the arrivals of a CPU are judged: the job's key, filter and address, the
/// CPU's receive queue, and the room of a block.
pub fn rules_at(job: &Job, cpu: usize) -> ArrivalRules
    ensures agrees { AgreesAt cpu (judge_rules_of_job job.now) (judge_rules_of result) }
    ensures queue { result.queue ≡ (judge_rules_of_job job.now).queue cpu }
    ensures room { result.room ≡ room_of job.now.setup.shape }
    ensures some { 82 < result.room }
    ensures even { result.room % 8 ≡ 0 }
{
    let queue = match job.setup.cpus.get(cpu) {
        Some(cpu) => cpu.queue,
        None => 0,
    };
    a_shape_is_sound(&job.setup.shape);
    ArrivalRules {
        key: job.setup.key.as_ref(),
        filter: job.program.as_ref(),
        own: job.setup.mac,
        queue,
        room: job.setup.shape.room(),
    }
}
