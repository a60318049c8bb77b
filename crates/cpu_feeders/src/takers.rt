//! A run on threads, with the caller's takers.
ghost use Rattle.std.specs.Prelude.{◌≡◌, ◌++◌, ◌∷◌, [], ℕ, List, Option, length, map, option_map};
ghost use Rattle.std.specs.Prelude.{IfOk, OnOk};
ghost use Rattle.std.specs.List.{AllByRecursion};
ghost use Rattle.cpu_feeders.specs.inside.RunThreads.{HaveWorked};
ghost use Rattle.cpu_feeders.specs.Runs.{IsFreshTaker, IsTakerRun};
ghost use Rattle.setup_text.specs.Sound.{AreMoments};
ghost use Rattle.tap_outside.specs.Seen.{SourceSeen};

use crate::Gate;
use crate::closed_members::{Closed, close_group};
use crate::ended_workers::gather;
use crate::run_threads::{RunThreads, new_threads};
use crate::shared::Shared;
use crate::worker::run_all;
use crate::worker_kinds::kinds_of;
use capture_reports::{
    blocks_are_read_as_they_were_noted, threads_leave_a_group, threads_leave_what_sources_gave,
};
use cpu_feed::{ClosedCpus, close_cpus};
use fanout_group::{CpuLogList, DealerSeat};
use frame_view::{Memory, MomentList};
use reader_walk::Taker;
use ring_model::Notes;
use ring_words::Pending;
use setup_text::Job;
use std::alloc::Global;
use std::sync::Wait;
use std::thread::Threads;
use tap_outside::Source;
use tp_layout::Block;

/// What a run on threads leaves.
#[derive(Drop)]
pub struct Workers<S: Source, T: Taker + Drop> {
    /// What is logged of each CPU, from 0 up.
    pub cpus: CpuLogList,
    /// The notes of each member, from 0 up.
    pub notes: Vec<Notes>,
    /// The taker of each member. It has read all blocks that the member's ring retired.
    pub takers: Vec<T>,
    /// The source of each CPU, less the bytes that it gave.
    pub sources: Vec<Option<S>>,
    /// The ring of each member, as it was finished.
    pub rings: Vec<Pending<Block>>,
}

/// What closed CPUs leave, with room for what the members leave.
fn without_members<S: Source, T: Taker + Drop>(
    alloc: Global,
    cpus: ClosedCpus<S>,
    members: usize,
) -> Result<Workers<S, T>, Memory>
    ensures cpus { IfOk result (λ workers. workers.cpus ≡ cpus.logs) }
    ensures sources { IfOk result (λ workers. workers.sources.items ≡ cpus.sources.items) }
    ensures notes { IfOk result (λ workers. workers.notes.items ≡ []) }
    ensures takers { IfOk result (λ workers. workers.takers.items ≡ []) }
    ensures rings { IfOk result (λ workers. workers.rings.items ≡ []) }
{
    let notes = Vec::with_capacity(alloc, members)?;
    let takers = Vec::with_capacity(alloc, members)?;
    let rings = Vec::with_capacity(alloc, members)?;
    Ok(Workers {
        cpus: cpus.logs,
        notes,
        takers,
        sources: cpus.sources,
        rings,
    })
}

/// Puts what a closed member leaves after the others.
fn add_member<S: Source, T: Taker + Drop>(
    workers: &mut Workers<S, T>,
    seats: &mut Vec<DealerSeat>,
    closed: Closed<T>,
) -> Result<(), Memory>
    ensures cpus { OnOk result (workers.new.cpus ≡ workers.old.cpus) }
    ensures sources { OnOk result (workers.new.sources.items ≡ workers.old.sources.items) }
    ensures notes { OnOk result
        (workers.new.notes.items ≡ workers.old.notes.items ++ closed.notes ∷ []) }
    ensures takers { OnOk result
        (workers.new.takers.items ≡ workers.old.takers.items ++ closed.taker ∷ []) }
    ensures rings { OnOk result
        (workers.new.rings.items ≡ workers.old.rings.items ++ closed.ring ∷ []) }
    ensures seats { OnOk result (seats.new.items ≡ seats.old.items ++ closed.seat ∷ []) }
{
    workers.notes.push(closed.notes)?;
    workers.takers.push(closed.taker)?;
    workers.rings.push(closed.ring)?;
    seats.push(closed.seat)?;
    Ok(())
}

/// Puts what closed CPUs and closed members leave together, each kind in a list of its own.
fn assemble<S: Source, T: Taker + Drop>(
    alloc: Global,
    cpus: ClosedCpus<S>,
    members: Vec<Closed<T>>,
    seats: &mut Vec<DealerSeat>,
) -> Result<Workers<S, T>, Memory>
    ensures cpus { IfOk result (λ workers. workers.cpus ≡ cpus.logs) }
    ensures sources { IfOk result (λ workers. workers.sources.items ≡ cpus.sources.items) }
    ensures notes { IfOk result (λ workers.
        workers.notes.items ≡ map (λ closed. closed.notes) members.items) }
    ensures takers { IfOk result (λ workers.
        workers.takers.items ≡ map (λ closed. closed.taker) members.items) }
    ensures rings { IfOk result (λ workers.
        workers.rings.items ≡ map (λ closed. closed.ring) members.items) }
    ensures seats { IfOk result (λ workers.
        seats.new.items ≡ seats.old.items ++ map (λ closed. closed.seat) members.items) }
{
    let mut workers = without_members(alloc, cpus, members.len())?;
    for closed in members {
        add_member(&mut workers, seats, closed)?;
    }
    Ok(workers)
}

/// Takes the threads of a run apart after they were joined, and closes what they used.
fn close_threads<S: Source, T: Taker + Drop>(
    alloc: Global,
    job: &Job,
    threads: RunThreads<S, T>,
) -> Result<Workers<S, T>, Memory>
    requires worked { (moments : List ℕ) × (firsts : List (Option SourceSeen)) × (takers : List _)
        × HaveWorked T.base T.taken job.now moments firsts takers
        threads.members.items threads.dealer threads.spare.items threads.workers.items }
    ensures { IfOk result (λ workers.
        (moments : List ℕ) (firsts : List (Option SourceSeen)) (takers : List _)
        → HaveWorked T.base T.taken job.now moments firsts takers
        threads.members.items threads.dealer threads.spare.items threads.workers.items
        → IsTakerRun T.base T.taken job.now moments firsts takers
        (map (option_map S.seen) workers.sources.items) workers.takers.items
        workers.cpus workers.notes.items workers.rings.items) }
{
    threads_leave_a_group();
    threads_leave_what_sources_gave();
    blocks_are_read_as_they_were_noted();
    let kinds = kinds_of(alloc, threads.workers)?;
    let members = job.setup.plan.members() as usize;
    let left = gather(alloc, members, kinds.feeders, kinds.timers)?;
    let closed = close_group(alloc, threads.members, left.member_seats, kinds.walkers)?;
    let cpus = close_cpus(alloc, left.cpus)?;
    let mut seats = left.seats;
    let workers = assemble(alloc, cpus, closed, &mut seats)?;
    let mut spare = threads.spare;
    seats.append(&mut spare)?;
    threads.dealer.close(seats);
    Ok(workers)
}

/// Runs a job on threads, with one of the caller's takers for each member: a reader for each of
/// them, a timer that reports the moments, and a feeder for each CPU. Each reader hands the blocks
/// of its member to the member's taker, in order.
///
/// The sources are one for each CPU, and come back less the bytes that they gave; a CPU without one
/// ends with a fault. The only error is that an allocation fails, here or in a taker; the sources
/// and the takers are dropped then.
pub fn run_takers<
    S: Source + Send,
    G: Gate + Sync,
    T: Taker + Drop + Send,
    R: Threads + Wait + Sync,
>(
    rt: &R,
    alloc: Global,
    job: &Job,
    sources: Vec<Option<S>>,
    ticks: &MomentList,
    gate: &G,
    takers: Vec<T>,
) -> Result<Workers<S, T>, Memory>
    requires sources { length sources.items ≡ length job.now.setup.cpus }
    requires moments { AreMoments ticks.now }
    requires takers { length takers.items ≡ job.now.setup.plan.members }
    requires fresh { AllByRecursion (IsFreshTaker T.base T.taken job.now.setup.shape) takers.items }
    ensures ran { IfOk result (λ workers. IsTakerRun T.base T.taken job.now ticks.now
        (map (option_map S.seen) sources.items) takers.items
        (map (option_map S.seen) workers.sources.items) workers.takers.items
        workers.cpus workers.notes.items workers.rings.items) }
{
    let mut threads = new_threads(alloc, job, sources, takers)?;
    let shared = Shared {
        alloc,
        job,
        moments: ticks.as_slice(),
        members: &threads.members[..],
        dealer: &threads.dealer,
        gate,
    };
    run_all(rt, &shared, &mut threads.workers[..]);
    close_threads(alloc, job, threads)
}
