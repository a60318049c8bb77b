//! A replay before its first line.
ghost use Rattle.std.specs.Prelude.{◌≡◌, ◌≤◌, length, map, option_map, replicate, IfOk};
ghost use Rattle.ring_model.specs.Rings.{fresh};
ghost use Rattle.replay_machine.specs.inside.RunEffects.{Starts, starting_from};

use crate::Setting;
use crate::member::RingMember;
use crate::replay_run::ReplayRun;
use crate::ring_group::RingGroup;
use capture_reading::Buffer;
use cpu_feed::CpuFeed;
use fanout_group::Plan;
use frame_view::Memory;
use receive_ring::ReceiveRing;
use setup_text::Job;
use std::alloc::Global;
use tap_outside::Source;

/// A replay of a job over new rings, one for each member from 0 up, and these sources, one for each
/// CPU from 0 up.
pub(crate) fn start<S: Source, R: ReceiveRing, K: Setting>(
    alloc: Global,
    job: &Job,
    sources: Vec<Option<S>>,
) -> Result<ReplayRun<S, R, K>, Memory>
    requires shape { job.now.setup.shape ≡ K.shape }
    requires dump { job.now.setup.dump ≡ K.dumps }
    requires may { R.may job.now.setup.shape }
    requires few { length sources.items ≤ 8 }
    ensures { IfOk result (λ run. Starts (R.steps K.shape) job.now
        (map (option_map S.seen) sources.items) run) }
{
    Ok(ReplayRun {
        group: RingGroup {
            members: members_of(alloc, job)?,
            ticket: 0,
        },
        cpus: feeds_of(alloc, job.setup.plan, sources)?,
        buffer: Buffer::new(alloc)?,
    })
}

/// A member for each number below that of the job's members, with a new ring.
fn members_of<R: ReceiveRing, K: Setting>(
    alloc: Global,
    job: &Job,
) -> Result<Vec<RingMember<R, K>>, Memory>
    requires shape { job.now.setup.shape ≡ K.shape }
    requires dump { job.now.setup.dump ≡ K.dumps }
    requires may { R.may job.now.setup.shape }
    ensures { IfOk result (λ all. all.items
        ≡ replicate job.now.setup.plan.members (fresh (R.steps K.shape).size)) }
{
    let members = job.setup.plan.members();
    let mut all = Vec::with_capacity(alloc, members as usize)?;
    for _member in 0..members {
        all.push(RingMember::new(alloc, &job.setup.shape, job.setup.dump)?)?;
    }
    Ok(all)
}

/// A CPU for each source.
fn feeds_of<S: Source>(
    alloc: Global,
    plan: Plan,
    sources: Vec<Option<S>>,
) -> Result<Vec<CpuFeed<S>>, Memory>
    requires few { length sources.items ≤ 8 }
    ensures { IfOk result (λ cpus. cpus.items ≡ starting_from plan 0
        (map (option_map S.seen) sources.items)) }
{
    let mut cpus = Vec::with_capacity(alloc, sources.len())?;
    for source in sources {
        let number = cpus.len() as u32;
        cpus.push(CpuFeed::new(alloc, number, source, plan))?;
    }
    Ok(cpus)
}
