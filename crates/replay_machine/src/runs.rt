//! The replay of a job over the rings of its members: its sources are read as its schedule asks for
//! their frames.
ghost use Rattle.std.specs.Prelude.{◌≡◌, ◌^◌, ◌<◌, length, map, option_map, IfOk};
ghost use Rattle.run_reports.specs.RingRules.{rules_by};
ghost use Rattle.setup_text.specs.TickOrder.{IsSchedule};
ghost use Rattle.replay_machine.specs.Reported.{reported_by};
ghost use Rattle.replay_machine.specs.Runs.{IsReplayed};
ghost use Rattle.replay_machine.specs.inside.OverRings.{IsReplayedOver};

use crate::Setting;
use crate::closed_replays::finish;
use crate::laws::a_job_reports_a_group;
use crate::new_replays::start;
use frame_view::Memory;
use receive_ring::ReceiveRing;
use run_reports::Ran;
use setup_text::{Job, Schedule};
use std::alloc::Global;
use std::marker::Brand;
use tap_outside::Source;

/// Replays a job over new rings, one for each member of its group: the lines of the schedule in
/// order, and then each CPU from 0 up to its end. The sources are one for each CPU, and come back
/// less the bytes that they gave; a CPU without one ends with a fault. The only error is that an
/// allocation fails, and the sources are dropped then.
pub fn replay_over_rings<S: Source, R: ReceiveRing>(
    alloc: Global,
    job: &Job,
    sources: Vec<Option<S>>,
    schedule: &Schedule,
) -> Result<Ran<S>, Memory>
    requires may { R.may job.now.setup.shape }
    requires sources { length sources.items ≡ length job.now.setup.cpus }
    requires schedule { IsSchedule schedule.now }
    requires few { length schedule.now < 2 ^ 32 }
    ensures ran { IfOk result (λ ran. IsReplayed (rules_by R.kind job.now.setup.shape)
        job.now schedule.now
        (map (option_map S.seen) sources.items)
        (map (option_map S.seen) ran.sources.items)
        ran.report) }
{
    a_job_reports_a_group();
    replay_as::<S, R, Brand>(alloc, job, sources, schedule)
}

/// The replay over members that have a shape and a flag in common.
fn replay_as<S: Source, R: ReceiveRing, K: Setting>(
    alloc: Global,
    job: &Job,
    sources: Vec<Option<S>>,
    schedule: &Schedule,
) -> Result<Ran<S>, Memory>
    requires shape { job.now.setup.shape ≡ K.shape }
    requires dump { job.now.setup.dump ≡ K.dumps }
    requires may { R.may job.now.setup.shape }
    requires sources { length sources.items ≡ length job.now.setup.cpus }
    requires schedule { IsSchedule schedule.now }
    requires few { length schedule.now < 2 ^ 32 }
    ensures ran { IfOk result (λ ran. IsReplayedOver (R.steps K.shape)
        (reported_by R.Unit.text_of R.reads K.shape K.dumps) job.now schedule.now
        (map (option_map S.seen) sources.items)
        (map (option_map S.seen) ran.sources.items)
        ran.report) }
{
    let room = R::room(&job.setup.shape);
    let mut run = start::<S, R, K>(alloc, job, sources)?;
    for line in schedule.as_slice() {
        run.line(alloc, job, room, *line)?;
    }
    run.feed_rest(alloc, job, room)?;
    finish(alloc, run)
}
