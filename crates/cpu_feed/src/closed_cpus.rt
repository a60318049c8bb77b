//! The CPUs of a run after its last frame: their sources, and what is logged of them.
ghost use Rattle.std.specs.Prelude.{map, option_map, IfOk, IsSome};
ghost use Rattle.std.specs.List.{AllByRecursion};
ghost use Rattle.cpu_feed.specs.ClosedCpus.{AllClose};

use crate::CpuFeed;
use fanout_group::CpuLogList;
use frame_view::Memory;
use std::alloc::Global;
use tap_outside::Source;

/// What is left of the CPUs of a run.
#[derive(Drop)]
pub struct ClosedCpus<S: Source> {
    /// The source of each CPU, from 0 up.
    pub sources: Vec<Option<S>>,
    /// What is logged of each CPU, from 0 up.
    pub logs: CpuLogList,
}

/// Closes each CPU; all of their sources have ended. The only error is that an allocation fails.
pub fn close_cpus<S: Source>(alloc: Global, cpus: Vec<CpuFeed<S>>) -> Result<ClosedCpus<S>, Memory>
    requires { AllByRecursion (λ cpu. IsSome cpu.ended) cpus.items }
    ensures { IfOk result (λ closed. AllClose cpus.items
        (map (option_map S.seen) closed.sources.items)
        closed.logs) }
{
    let mut sources = Vec::with_capacity(alloc, cpus.len())?;
    let mut logs = CpuLogList::new(alloc);
    for cpu in cpus {
        let (source, log) = cpu.close()?;
        sources.push(source)?;
        logs.push(log)?;
    }
    Ok(ClosedCpus { sources, logs })
}
