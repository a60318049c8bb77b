//! The replay of a job over rings of slots.
ghost use Rattle.std.specs.Prelude.{◌≡◌, ◌^◌, ◌<◌, length, map, option_map, IfOk};
ghost use Rattle.replay_machine.specs.Runs.{IsReplayed};
ghost use Rattle.run_reports.specs.RingRules.{slot_rules};
ghost use Rattle.setup_text.specs.TickOrder.{IsSchedule};
ghost use Rattle.slot_layout.specs.SlotShapes.{IsSlotShape};

use frame_view::Memory;
use replay_machine::replay_over_rings;
use ring_words::PlainRing;
use run_reports::Ran;
use setup_text::{Job, Schedule};
use std::alloc::Global;
use tap_outside::Source;
use v2_ring::{Slot, SlotProducer};

/// Replays a job over rings of slots (TPACKET_V2 of packet_mmap.rst): the lines of the schedule in
/// order, and then each CPU from 0 up to its end. A `tick` line does nothing, since such a ring has
/// no timer. The shape of the job's rings came from `check_v2`. The sources are one for each CPU,
/// and come back less the bytes that they gave; a CPU without one ends with a fault. The only error
/// is that an allocation fails, and the sources are dropped then.
pub fn replay_v2<S: Source>(
    alloc: Global,
    job: &Job,
    sources: Vec<Option<S>>,
    schedule: &Schedule,
) -> Result<Ran<S>, Memory>
    requires slots { IsSlotShape job.now.setup.shape }
    requires sources { length sources.items ≡ length job.now.setup.cpus }
    requires schedule { IsSchedule schedule.now }
    requires few { length schedule.now < 2 ^ 32 }
    ensures ran { IfOk result (λ ran. IsReplayed (slot_rules job.now.setup.shape)
        job.now schedule.now
        (map (option_map S.seen) sources.items)
        (map (option_map S.seen) ran.sources.items)
        ran.report) }
{
    replay_over_rings::<S, SlotProducer<PlainRing<Slot>>>(alloc, job, sources, schedule)
}
