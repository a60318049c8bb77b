//! The workers of a run after the joins, by their kinds.
ghost use Rattle.std.specs.Prelude.{◌≡◌, ◌++◌, false, flat_map, IfOk, OnOk};
ghost use Rattle.std.specs.List.{AllByRecursion};
ghost use Rattle.cpu_feeders.specs.inside.WorkerKinds.{feeder_in, is_full, timer_in, walker_in};

use crate::feeder::Feeder;
use crate::timer::Timer;
use crate::walker::ReaderThread;
use crate::worker::Worker;
use frame_view::Memory;
use reader_walk::Taker;
use std::alloc::Global;
use tap_outside::Source;

/// The workers of a run by their kinds, each kind in its order.
#[derive(Drop)]
pub(crate) struct WorkerKinds<S: Source, T: Taker + Drop> {
    /// The readers of the members, from 0 up.
    pub(crate) walkers: Vec<ReaderThread<T>>,
    /// The timer.
    pub(crate) timers: Vec<Timer>,
    /// The feeders of the CPUs, from 0 up.
    pub(crate) feeders: Vec<Feeder<S>>,
}

impl<S: Source, T: Taker + Drop> WorkerKinds<S, T> {
    /// Puts a worker after those of its kind. The error may also be that it ran out of memory.
    fn add(&mut self, worker: Worker<S, T>) -> Result<(), Memory>
        ensures full { OnOk result (is_full worker ≡ false) }
        ensures walkers { OnOk result
            (self.new.walkers.items ≡ self.old.walkers.items ++ walker_in worker) }
        ensures timers { OnOk result
            (self.new.timers.items ≡ self.old.timers.items ++ timer_in worker) }
        ensures feeders { OnOk result
            (self.new.feeders.items ≡ self.old.feeders.items ++ feeder_in worker) }
    {
        if worker.is_full() {
            return Err(Memory);
        }
        match worker {
            Worker::Walks(walker) => self.walkers.push(walker)?,
            Worker::Ticks(timer) => self.timers.push(timer)?,
            Worker::Feeds(feeder) => self.feeders.push(feeder)?,
        }
        Ok(())
    }
}

/// Splits workers by their kinds. The error may also be that one of them ran out of memory.
pub(crate) fn kinds_of<S: Source, T: Taker + Drop>(
    alloc: Global,
    workers: Vec<Worker<S, T>>,
) -> Result<WorkerKinds<S, T>, Memory>
    ensures full { OnOk result
        (AllByRecursion (λ worker. is_full worker ≡ false) workers.items) }
    ensures walkers { IfOk result (λ kinds. kinds.walkers.items
        ≡ flat_map walker_in workers.items) }
    ensures timers { IfOk result (λ kinds. kinds.timers.items ≡ flat_map timer_in workers.items) }
    ensures feeders { IfOk result (λ kinds. kinds.feeders.items
        ≡ flat_map feeder_in workers.items) }
{
    let mut kinds = WorkerKinds {
        walkers: Vec::new(alloc),
        timers: Vec::new(alloc),
        feeders: Vec::new(alloc),
    };
    for worker in workers {
        kinds.add(worker)?;
    }
    Ok(kinds)
}
