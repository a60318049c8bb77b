//! The two sides of a run: the pool's workers, and the run that hands works to them.
ghost use Rattle.std.specs.Prelude.{◌≡◌, ◌<◌, ℕ, [], length, map, option_map, slice_index_or, All};
ghost use Rattle.std.specs.Prelude.{IfOk};
ghost use Rattle.std.specs.List.{AllByRecursion, AllZip};
ghost use Rattle.block_pool.specs.Takers.{handing_base, handing_taken};
ghost use Rattle.block_pool.specs.Workers.{HasDecoded, IsFreshWorker};
ghost use Rattle.cpu_feeders.specs.Feeds.{IsFreshSeat};
ghost use Rattle.cpu_feeders.specs.Runs.{IsFreshTaker, IsTakerRun};
ghost use Rattle.setup_text.specs.Sound.{AreMoments};

use crate::takers::QueueTaker;
use crate::workers::{Pool, PoolWorker, WorkDecoder, run_pool_worker};
use cpu_feeders::{Gate, Workers, run_takers};
use fanout_group::DealerSeat;
use frame_view::{Memory, MomentList};
use setup_text::Job;
use std::sync::Wait;
use std::thread;
use std::thread::Threads;
use tap_outside::Source;

/// Runs workers, each on a thread of its own if one can be made, and joins them.
fn serve_slice<G: Gate + Sync, R: Threads + Wait + Sync>(
    rt: &R,
    pool: &Pool<G>,
    pool_workers: &mut [PoolWorker],
)
    requires some { 0 < length pool_workers.old }
    requires ready { All (IsFreshWorker pool.now.queue.now pool.now.dealer.now) pool_workers.old }
    ensures count { length pool_workers.new ≡ length pool_workers.old }
    ensures done { (i : ℕ) (d : _) → i < length pool_workers.old
        → HasDecoded pool.now.decoder.now.dumps pool.now.queue.now
        (slice_index_or pool_workers.old i d) (slice_index_or pool_workers.new i d) }
{
    let count = pool_workers.len();
    thread::for_each_mut(
        rt,
        pool_workers,
        count,
        &|_, pool_worker|
            requires { IsFreshWorker pool.now.queue.now pool.now.dealer.now pool_worker.now }
            ensures { HasDecoded pool.entry.now.decoder.now.dumps pool.entry.now.queue.now
                pool_worker.entry.now pool_worker.exit.now }
        {
            run_pool_worker(rt, pool, pool_worker);
        },
    );
}

/// Runs workers, and gives them back.
fn serve<G: Gate + Sync, R: Threads + Wait + Sync>(
    rt: &R,
    pool: &Pool<G>,
    pool_workers: Vec<PoolWorker>,
) -> Vec<PoolWorker>
    requires some { 0 < length pool_workers.items }
    requires ready { AllByRecursion (IsFreshWorker pool.now.queue.now pool.now.dealer.now)
        pool_workers.items }
    ensures { AllZip (HasDecoded pool.now.decoder.now.dumps pool.now.queue.now)
        pool_workers.items result.items }
{
    let mut pool_workers = pool_workers;
    serve_slice(rt, pool, &mut pool_workers[..]);
    pool_workers
}

/// Runs a job with these takers. Whatever it returns, the dealer then has no live feeder: its one
/// feeder's seat represents the takers.
fn take_all<'a, S: Source + Send, G: Gate + Sync, R: Threads + Wait + Sync>(
    rt: &R,
    pool: &Pool<G>,
    job: &Job,
    sources: Vec<Option<S>>,
    ticks: &MomentList,
    takers: Vec<QueueTaker<'a, R>>,
    seat: DealerSeat,
) -> Result<Workers<S, QueueTaker<'a, R>>, Memory>
    requires sources { length sources.items ≡ length job.now.setup.cpus }
    requires moments { AreMoments ticks.now }
    requires takers { length takers.items ≡ job.now.setup.plan.members }
    requires fresh { AllByRecursion
        (IsFreshTaker handing_base handing_taken job.now.setup.shape) takers.items }
    requires seat { IsFreshSeat pool.now.dealer.now seat }
    ensures ran { IfOk result (λ workers. IsTakerRun handing_base handing_taken
        job.now ticks.now (map (option_map S.seen) sources.items) takers.entry.items
        (map (option_map S.seen) workers.sources.items) workers.takers.items
        workers.cpus workers.notes.items workers.rings.items) }
{
    let mut seat = seat;
    let decoder = pool.decoder;
    let ran = run_takers(rt, decoder.alloc, job, sources, ticks, decoder.gate, takers);
    pool.dealer.done(&mut seat);
    ran
}

/// Runs the workers and the run that hands works to them side by side.
///
/// If no thread can be made, the second of the two runs first. So the workers come first: the
/// takers wait for none of them, and a worker waits until the takers have ended.
pub(crate) fn run_both<'a, S: Source + Send, G: Gate + Sync, R: Threads + Wait + Sync>(
    rt: &R,
    pool: &Pool<G>,
    job: &Job,
    sources: Vec<Option<S>>,
    ticks: &MomentList,
    takers: Vec<QueueTaker<'a, R>>,
    pool_workers: Vec<PoolWorker>,
    seat: DealerSeat,
) -> (
    Vec<PoolWorker>,
    Result<Workers<S, QueueTaker<'a, R>>, Memory>,
)
    requires sources { length sources.items ≡ length job.now.setup.cpus }
    requires moments { AreMoments ticks.now }
    requires takers { length takers.items ≡ job.now.setup.plan.members }
    requires fresh { AllByRecursion
        (IsFreshTaker handing_base handing_taken job.now.setup.shape) takers.items }
    requires some { 0 < length pool_workers.items }
    requires ready { AllByRecursion (IsFreshWorker pool.now.queue.now pool.now.dealer.now)
        pool_workers.items }
    requires seat { IsFreshSeat pool.now.dealer.now seat }
    ensures decoded { AllZip (HasDecoded pool.now.decoder.now.dumps pool.now.queue.now)
        pool_workers.items result.0.items }
    ensures ran { IfOk result.1 (λ workers. IsTakerRun handing_base handing_taken
        job.now ticks.now (map (option_map S.seen) sources.items) takers.entry.items
        (map (option_map S.seen) workers.sources.items) workers.takers.items
        workers.cpus workers.notes.items workers.rings.items) }
{
    let (queue, dealer, decoder) = (pool.queue, pool.dealer, pool.decoder);
    let (alloc, gate, dumps) = (decoder.alloc, decoder.gate, decoder.dumps);
    thread::join(
        rt,
        move || -> Vec<PoolWorker>
            requires { (0 < length pool_workers.items)
                × AllByRecursion (IsFreshWorker queue.now dealer.now) pool_workers.items }
            ensures { AllZip (HasDecoded dumps queue.entry.now) pool_workers.items result.items }
        {
            let decoder = WorkDecoder { alloc, gate, dumps };
            let pool = Pool {
                queue,
                dealer,
                decoder: &decoder,
            };
            serve(rt, &pool, pool_workers)
        },
        move || -> Result<Workers<S, QueueTaker<R>>, Memory>
            requires { (length sources.items ≡ length job.now.setup.cpus)
                × AreMoments ticks.now
                × (length takers.items ≡ job.now.setup.plan.members)
                × AllByRecursion
                (IsFreshTaker handing_base handing_taken job.now.setup.shape) takers.items
                × IsFreshSeat pool.now.dealer.now seat }
            ensures { IfOk result (λ workers. IsTakerRun handing_base handing_taken
                job.entry.now ticks.entry.now
                (map (option_map S.seen) sources.items) takers.entry.items
                (map (option_map S.seen) workers.sources.items) workers.takers.items
                workers.cpus workers.notes.items workers.rings.items) }
        { take_all(rt, pool, job, sources, ticks, takers, seat) },
    )
}
