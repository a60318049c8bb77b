//! The workers of a run: readers, a timer and feeders, each on a thread of its own.
ghost use Rattle.std.specs.Prelude.{◌≡◌, ◌<◌, ℕ, length, slice_index_or, All};
ghost use Rattle.cpu_feeders.specs.inside.WorkerKinds.{is_full};
ghost use Rattle.cpu_feeders.specs.WorkerEffects.{IsDoneWorker, IsReadyWorker};
ghost use Rattle.setup_text.specs.Sound.{AreMoments};

use crate::Gate;
use crate::feeder::{Feeder, run_feeder};
use crate::shared::Shared;
use crate::timer::{Timer, run_timer};
use crate::walker::{ReaderThread, run_reader};
use reader_walk::Taker;
use std::sync::Wait;
use std::thread;
use std::thread::Threads;
use tap_outside::Source;

/// What one thread of a run does.
#[derive(Drop)]
pub(crate) enum Worker<S: Source, T: Taker + Drop> {
    /// It reads a member's blocks.
    Walks(ReaderThread<T>),
    /// It reports the moments.
    Ticks(Timer),
    /// It feeds a CPU.
    Feeds(Feeder<S>),
}

impl<S: Source, T: Taker + Drop> Worker<S, T> {
    /// Whether an allocation of it failed.
    pub(crate) fn is_full(&self) -> bool
        ensures { result ≡ is_full self.now }
    {
        match self {
            Worker::Walks(walker) => walker.full,
            Worker::Ticks(timer) => timer.full,
            Worker::Feeds(feeder) => feeder.full,
        }
    }
}

/// Does what one worker has to do.
fn work<S: Source, T: Taker + Drop, G: Gate, R: Wait>(
    rt: &R,
    shared: &Shared<G>,
    worker: &mut Worker<S, T>,
)
    requires moments { AreMoments shared.now.moments.now }
    requires ready { IsReadyWorker T.base T.taken
        shared.now.job.now shared.now.members.now shared.now.dealer.now worker.old }
    ensures { IsDoneWorker T.base T.taken
        shared.now.job.now shared.now.members.now shared.now.dealer.now
        shared.now.moments.now worker.old worker.new }
{
    match worker {
        Worker::Walks(walker) => run_reader(rt, shared, walker),
        Worker::Ticks(timer) => run_timer(rt, shared, timer),
        Worker::Feeds(feeder) => run_feeder(rt, shared, feeder),
    }
}

/// Runs all workers, each on a thread of its own if one can be made, and joins them.
///
/// If no thread can be made, the list is run from its end. So the readers come first in it and the
/// feeders last: a feeder waits for nobody that has to end before it, and a reader waits until the
/// feeders have ended.
pub(crate) fn run_all<
    S: Source + Send,
    T: Taker + Drop + Send,
    G: Gate + Sync,
    R: Threads + Wait + Sync,
>(rt: &R, shared: &Shared<G>, workers: &mut [Worker<S, T>])
    requires moments { AreMoments shared.now.moments.now }
    requires some { 0 < length workers.old }
    requires ready { All (IsReadyWorker T.base T.taken
        shared.now.job.now shared.now.members.now shared.now.dealer.now) workers.old }
    ensures count { length workers.new ≡ length workers.old }
    ensures done { (i : ℕ) (d : _) → i < length workers.old → IsDoneWorker T.base T.taken
        shared.now.job.now shared.now.members.now shared.now.dealer.now
        shared.now.moments.now (slice_index_or workers.old i d) (slice_index_or workers.new i d) }
{
    let count = workers.len();
    thread::for_each_mut(
        rt,
        workers,
        count,
        &|_, worker|
            requires { AreMoments shared.now.moments.now
                × IsReadyWorker T.base T.taken
                shared.now.job.now shared.now.members.now shared.now.dealer.now worker.now }
            ensures { IsDoneWorker T.base T.taken
                shared.entry.now.job.now shared.entry.now.members.now shared.entry.now.dealer.now
                shared.entry.now.moments.now worker.entry.now worker.exit.now }
        { work(rt, shared, worker) },
    );
}
