//! A run of a job on threads with a pool of decoding workers.
ghost use Rattle.std.specs.Prelude.{◌≡◌, ◌+◌, ◌<◌, ◌≤◌, drop, length, map, option_map, take, IfOk};
ghost use Rattle.std.specs.List.{AllByRecursion};
ghost use Rattle.cpu_feeders.specs.Feeds.{IsFreshSeat};
ghost use Rattle.cpu_feeders.specs.Runs.{IsCaptureRun};
ghost use Rattle.setup_text.specs.Sound.{AreMoments};
ghost use Rattle.ticket_dealer.specs.Seats.{IsFreshOf};
ghost use Rattle.work_queue.specs.Passes.{fresh_passes};

use crate::ended_takers::{part_all, put_together};
use crate::fresh_workers::{pool_workers_of, takers_of};
use crate::pool_threads::run_both;
use crate::workers::{Pool, WorkDecoder};
use cpu_feeders::{Gate, Workers, report_run};
use fanout_group::{Dealer, DealerSeat};
use frame_view::{Memory, MomentList};
use run_reports::Ran;
use setup_text::Job;
use std::alloc::Global;
use std::sync::Wait;
use std::thread::Threads;
use tap_outside::Source;
use work_queue::{WorkPass, WorkQueue};

/// A queue with a pass for each taker and each worker: the queue, the takers' passes and the
/// workers'.
fn queue_for(
    alloc: Global,
    members: u32,
    workers: u32,
) -> Result<(WorkQueue, Vec<WorkPass>, Vec<WorkPass>), Memory>
    requires some { 0 < workers }
    requires few { members + workers ≤ 17 }
    ensures count { IfOk result (λ made. made.0.passes ≡ members + workers) }
    ensures takers { IfOk result (λ made. made.1.items
        ≡ take members (fresh_passes made.0.id (members + workers) 0 (members + workers))) }
    ensures workers { IfOk result (λ made. made.2.items
        ≡ drop members (fresh_passes made.0.id (members + workers) 0 (members + workers))) }
{
    let (queue, mut passes) = WorkQueue::new(alloc, members + workers)?;
    let others = passes.split_off(members as usize)?;
    Ok((queue, passes, others))
}

/// A dealer with one feeder's seat: the dealer, that seat, and the other seats.
fn deal_one(alloc: Global) -> Result<(Dealer, DealerSeat, Vec<DealerSeat>), Memory>
    ensures seat { IfOk result (λ dealt. IsFreshSeat dealt.0 dealt.1) }
    ensures others { IfOk result (λ dealt. AllByRecursion (IsFreshOf dealt.0) dealt.2.items) }
    ensures count { IfOk result (λ dealt. length dealt.2.items ≡ 9) }
{
    let (dealer, mut seats) = Dealer::new(alloc, 1)?;
    let others = seats.split_off(1)?;
    let Some(seat) = seats.pop() else {
        unreachable!()
    };
    Ok((dealer, seat, others))
}

/// Runs a job on threads with a pool: a reader for each member, which copies the text of each block
/// into a work and hands it in; 1 to 8 workers, which fetch the works and decode them; a timer that
/// reports the moments, and a feeder for each CPU. What was decoded is put together by number after
/// the joins, so the report is that of a run whose readers decode.
///
/// The sources are one for each CPU, and come back less the bytes that they gave; a CPU without one
/// ends with a fault. The only error is that an allocation fails, and the sources are dropped then.
pub fn run_pool<S: Source + Send, G: Gate + Sync, R: Threads + Wait + Sync>(
    rt: &R,
    alloc: Global,
    job: &Job,
    sources: Vec<Option<S>>,
    ticks: &MomentList,
    gate: &G,
    workers: u32,
) -> Result<Ran<S>, Memory>
    requires sources { length sources.items ≡ length job.now.setup.cpus }
    requires moments { AreMoments ticks.now }
    requires some { 0 < workers }
    requires few { workers ≤ 8 }
    ensures ran { IfOk result (λ ran. IsCaptureRun job.now ticks.now
        (map (option_map S.seen) sources.items)
        (map (option_map S.seen) ran.sources.items)
        ran.report) }
{
    let members = job.setup.plan.members();
    let (dealer, seat, others) = deal_one(alloc)?;
    let (queue, takers_passes, workers_passes) = queue_for(alloc, members, workers)?;
    let pool_workers = pool_workers_of(alloc, workers_passes, others)?;
    let takers = takers_of(rt, alloc, &queue, &job.setup.shape, takers_passes)?;
    let decoder = WorkDecoder {
        alloc,
        gate,
        dumps: job.setup.dump,
    };
    let pool = Pool {
        queue: &queue,
        dealer: &dealer,
        decoder: &decoder,
    };
    let (pool_workers, ran) = run_both(rt, &pool, job, sources, ticks, takers, pool_workers, seat);
    let Workers {
        cpus,
        notes,
        takers,
        sources,
        rings,
    } = ran?;
    let parted = part_all(alloc, takers, pool_workers)?;
    let left = queue.close(rt, alloc, parted.passes)?;
    let (tables, pieces) = (parted.tables, parted.pieces);
    let outputs = put_together(&decoder, workers, left, tables, pieces)?;
    let report = report_run(alloc, cpus, notes, rings, outputs)?;
    Ok(Ran { report, sources })
}
