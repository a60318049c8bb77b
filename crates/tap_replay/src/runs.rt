//! The replay of a job: its sources are read as its schedule asks for their frames.
ghost use Rattle.std.specs.Prelude.{◌≡◌, ◌^◌, ◌<◌, length, map, option_map, IfOk};
ghost use Rattle.replay_machine.specs.Runs.{IsReplayed};
ghost use Rattle.run_reports.specs.RingRules.{block_rules};
ghost use Rattle.setup_text.specs.TickOrder.{IsSchedule};

use block_ring::Producer;
use frame_view::Memory;
use replay_machine::replay_over_rings;
use ring_words::PlainRing;
use run_reports::Ran;
use setup_text::{Job, Schedule};
use std::alloc::Global;
use tap_outside::Source;
use tp_layout::{Block, a_shape_is_sound};

/// Replays a job over rings of blocks: the lines of the schedule in order, and then each CPU from 0
/// up to its end. The sources are one for each CPU, and come back less the bytes that they gave; a
/// CPU without one ends with a fault. The only error is that an allocation fails, and the sources
/// are dropped then.
pub fn replay<S: Source>(
    alloc: Global,
    job: &Job,
    sources: Vec<Option<S>>,
    schedule: &Schedule,
) -> Result<Ran<S>, Memory>
    requires sources { length sources.items ≡ length job.now.setup.cpus }
    requires schedule { IsSchedule schedule.now }
    requires few { length schedule.now < 2 ^ 32 }
    ensures ran { IfOk result (λ ran. IsReplayed (block_rules job.now.setup.shape)
        job.now schedule.now
        (map (option_map S.seen) sources.items)
        (map (option_map S.seen) ran.sources.items)
        ran.report) }
{
    a_shape_is_sound(&job.setup.shape);
    replay_over_rings::<S, Producer<PlainRing<Block>>>(alloc, job, sources, schedule)
}
