//! The takers and the workers of a run before they start.
ghost use Rattle.std.specs.Prelude.{◌≡◌, ◌≤◌, length, map, IfOk};
ghost use Rattle.std.specs.List.{AllByRecursion};
ghost use Rattle.block_pool.specs.Takers.{first_takers};
ghost use Rattle.block_pool.specs.Workers.{IsFreshWorker, IsFreshPassOf};
ghost use Rattle.ticket_dealer.specs.Seats.{DealerValue, IsFreshOf};
ghost use Rattle.work_queue.specs.Passes.{QueueValue};

use crate::takers::QueueTaker;
use crate::workers::PoolWorker;
use fanout_group::DealerSeat;
use frame_view::Memory;
use std::alloc::Global;
use std::sync::Wait;
use tp_layout::Shape;
use work_queue::{WorkPass, WorkQueue};

/// A taker for each of these passes, from member 0 up.
pub(crate) fn takers_of<'a, R: Wait>(
    rt: &'a R,
    alloc: Global,
    queue: &'a WorkQueue,
    shape: &Shape,
    passes: Vec<WorkPass>,
) -> Result<Vec<QueueTaker<'a, R>>, Memory>
    requires few { length passes.items ≤ 8 }
    requires fresh { AllByRecursion (IsFreshPassOf queue.now) passes.items }
    ensures { IfOk result (λ takers. takers.items ≡ first_takers shape.now 0 passes.items) }
{
    let mut takers = Vec::with_capacity(alloc, passes.len())?;
    for pass in passes {
        let member = takers.len() as u32;
        takers.push(QueueTaker {
            alloc,
            rt,
            queue,
            pass,
            member,
            shape: *shape,
            handed: 0,
        })?;
    }
    Ok(takers)
}

/// A worker for each of these passes. Their seats are from the end of the list.
pub(crate) fn pool_workers_of(
    alloc: Global,
    passes: Vec<WorkPass>,
    mut seats: Vec<DealerSeat>,
) -> Result<Vec<PoolWorker>, Memory>
    requires few { length passes.items ≤ 8 }
    requires seats { length passes.items ≤ length seats.items }
    ensures passes { IfOk result (λ pool_workers.
        map (λ pool_worker. pool_worker.pass) pool_workers.items ≡ passes.items) }
    ensures fresh { IfOk result (λ pool_workers. (queue : QueueValue) (dealer : DealerValue)
        → AllByRecursion (IsFreshPassOf queue) passes.items
        → AllByRecursion (IsFreshOf dealer) seats.items
        → AllByRecursion (IsFreshWorker queue dealer) pool_workers.items) }
{
    let mut pool_workers = Vec::with_capacity(alloc, passes.len())?;
    for pass in passes {
        let Some(seat) = seats.pop() else {
            unreachable!()
        };
        let index = pool_workers.len() as u32;
        pool_workers.push(PoolWorker {
            index,
            pass,
            seat,
            fetches: 0,
            pieces: Vec::new(alloc),
            full: false,
        })?;
    }
    Ok(pool_workers)
}
