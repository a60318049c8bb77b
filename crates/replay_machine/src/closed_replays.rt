//! A replay after its last frame: what it reports, and the sources that it returns.
ghost use Rattle.std.specs.Prelude.{◌≡◌, map, option_map, IfOk, IsSome};
ghost use Rattle.std.specs.List.{AllByRecursion};
ghost use Rattle.receive_ring.specs.Replay.{finished_ring};
ghost use Rattle.replay_machine.specs.Reported.{reported_by};
ghost use Rattle.replay_machine.specs.inside.RunEffects.{Finishes};

use crate::Setting;
use crate::member::RingMember;
use crate::replay_run::ReplayRun;
use cpu_feed::close_cpus;
use frame_view::Memory;
use receive_ring::ReceiveRing;
use run_reports::{MemberList, Ran, RunReport};
use std::alloc::Global;
use tap_outside::Source;

/// Closes each member's ring.
pub(crate) fn close_members<R: ReceiveRing, K: Setting>(
    alloc: Global,
    members: Vec<RingMember<R, K>>,
) -> Result<MemberList, Memory>
    ensures { IfOk result (λ reports. reports
        ≡ map (reported_by R.Unit.text_of R.reads K.shape K.dumps)
        (map finished_ring members.items)) }
{
    let mut reports = Vec::with_capacity(alloc, members.len())?;
    for member in members {
        reports.push(member.close(alloc)?)?;
    }
    Ok(MemberList::from_vec(reports))
}

/// Closes a replay; the sources of all its CPUs have ended.
pub(crate) fn finish<S: Source, R: ReceiveRing, K: Setting>(
    alloc: Global,
    run: ReplayRun<S, R, K>,
) -> Result<Ran<S>, Memory>
    requires { AllByRecursion (λ cpu. IsSome cpu.ended) run.cpus }
    ensures { IfOk result (λ ran. Finishes
        (reported_by R.Unit.text_of R.reads K.shape K.dumps) run
        (map (option_map S.seen) ran.sources.items)
        ran.report) }
{
    let group = run.group;
    let closed = close_cpus(alloc, run.cpus)?;
    let members = close_members(alloc, group.members)?;
    Ok(Ran {
        report: RunReport {
            cpus: closed.logs,
            members,
        },
        sources: closed.sources,
    })
}
