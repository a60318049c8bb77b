//! What each member of a group without rollover is given by the frames of all CPUs.
ghost use Rattle.std.specs.Prelude.{◌≡◌, ◌↔◌, ◌*◌, ◌<◌, map, IfOk, IsTrue};
ghost use Rattle.std.specs.List.{AllByRecursion};
ghost use Rattle.frame_deals.specs.Dealings.{IsRising};
ghost use Rattle.frame_deals.specs.Deals.{IsDeal};
ghost use Rattle.frame_deals.specs.inside.Merges.{IsDealtFrom};

use crate::merge::Merge;
use crate::{CpuDeal, MarkQueue};
use fanout_group::Plan;
use frame_view::{ItemList, Memory};
use ring_sizes::Arrival;
use std::alloc::Global;

/// What a member is given, in order.
pub type DealtList = ItemList<Arrival>;

/// The last moment that a schedule's clock can be at, in nanoseconds: 4,294,967,295 milliseconds.
const LAST_MOMENT: u64 = 4_294_967_295_000_000;

/// What the members of a group are given. Moments are nanoseconds, from the first frame of all CPUs
/// on.
#[derive(Drop)]
pub struct Dealt {
    /// What each member is given, from member 0 up.
    pub members: Vec<DealtList>,
    /// When the last frame of all CPUs comes.
    pub end: u64,
}

impl Dealt {
    /// Whether the frames last longer than the clock of a schedule goes: 4,294,967,295
    /// milliseconds.
    pub fn lasts_too_long(&self) -> bool
        ensures { IsTrue result ↔ (4294967295 * 1000000 < self.now.end) }
    {
        LAST_MOMENT < self.end
    }
}

/// Deals the frames of all CPUs to the members of their group, in the order of their moments, and
/// at one moment in that of their CPUs. The only error is that an allocation fails, or that there
/// are 18,446,744,073,709,551,615 tickets.
pub fn deal(alloc: Global, plan: &Plan, cpus: Vec<CpuDeal>) -> Result<Dealt, Memory>
    ensures { IfOk result (IsDeal plan.now (map (λ cpu. cpu.marks) cpus.items)) }
{
    let queues = queues_of(alloc, cpus)?;
    merge_all(alloc, plan, queues)
}

/// The frames of each CPU, in its place.
fn queues_of(alloc: Global, cpus: Vec<CpuDeal>) -> Result<Vec<MarkQueue>, Memory>
    ensures same { IfOk result (λ queues. queues.items ≡ map (λ cpu. cpu.marks) cpus.items) }
    ensures rise { IfOk result (λ queues. AllByRecursion IsRising queues.items) }
{
    let mut queues = Vec::with_capacity(alloc, cpus.len())?;
    for cpu in cpus {
        queues.push(cpu.into_marks())?;
    }
    Ok(queues)
}

/// Deals frames frame by frame, each time the one that comes first.
fn merge_all(alloc: Global, plan: &Plan, queues: Vec<MarkQueue>) -> Result<Dealt, Memory>
    requires rise { AllByRecursion IsRising queues.items }
    ensures from { IfOk result (IsDealtFrom plan.now queues.items) }
    ensures deal { IfOk result (IsDeal plan.now queues.items) }
{
    let mut merge = Merge::new(alloc, plan, queues)?;
    'dealing: while let Some(next) = merge.next() {
        merge.take(alloc, plan, next)?;
    }
    Ok(Dealt {
        members: merge.members,
        end: merge.end,
    })
}
