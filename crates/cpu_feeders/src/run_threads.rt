//! The threads of a run, with its members and its dealer.
ghost use Rattle.std.specs.Prelude.{◌≡◌, ◌<◌, ◌≤◌, length, map, option_map, IfOk};
ghost use Rattle.std.specs.List.{AllByRecursion};
ghost use Rattle.cpu_feeders.specs.inside.FreshWorkers.{AreFreshThreads, IsDealt};
ghost use Rattle.cpu_feeders.specs.inside.Openings.{IsGroupOf};
ghost use Rattle.cpu_feeders.specs.Runs.{IsFreshTaker};

use crate::fresh_workers::{feeders_of, walkers_of, workers_of};
use crate::list_ends::last_of;
use crate::open_groups::{OpenGroup, open_group};
use crate::timer::Timer;
use crate::worker::Worker;
use fanout_group::{Dealer, DealerSeat};
use frame_view::Memory;
use member_turns::Member;
use reader_walk::Taker;
use setup_text::Job;
use std::alloc::Global;
use tap_outside::Source;

/// A run before its threads start, and after they are joined.
#[derive(Drop)]
pub(crate) struct RunThreads<S: Source, T: Taker + Drop> {
    /// The members, from 0 up.
    pub(crate) members: Vec<Member>,
    /// Deals tickets, and counts the live feeders.
    pub(crate) dealer: Dealer,
    /// The seats of the dealer that no worker has.
    pub(crate) spare: Vec<DealerSeat>,
    /// The workers: readers, the timer, feeders.
    pub(crate) workers: Vec<Worker<S, T>>,
}

/// A dealer of which no worker has a seat yet.
#[derive(Drop)]
struct FreshDealer {
    /// The dealer.
    dealer: Dealer,
    /// A seat for each feeder.
    seats: Vec<DealerSeat>,
    /// The seats for readers.
    spare: Vec<DealerSeat>,
}

/// Makes a dealer for the feeders of `cpus` CPUs.
fn deal(alloc: Global, cpus: usize) -> Result<FreshDealer, Memory>
    requires some { 0 < cpus }
    requires few { cpus ≤ 8 }
    ensures { IfOk result (λ dealt.
        IsDealt cpus dealt.dealer dealt.seats.items dealt.spare.items) }
{
    let (dealer, mut seats) = Dealer::new(alloc, cpus as u32)?;
    let spare = seats.split_off(cpus)?;
    Ok(FreshDealer {
        dealer,
        seats,
        spare,
    })
}

/// Makes the workers of a group that was opened.
fn threads_of<S: Source, T: Taker + Drop>(
    alloc: Global,
    job: &Job,
    sources: Vec<Option<S>>,
    takers: Vec<T>,
    group: OpenGroup,
    dealt: FreshDealer,
) -> Result<RunThreads<S, T>, Memory>
    requires sources { length sources.items ≡ length job.now.setup.cpus }
    requires takers { length takers.items ≡ job.now.setup.plan.members }
    requires fresh { AllByRecursion (IsFreshTaker T.base T.taken job.now.setup.shape) takers.items }
    requires group { IsGroupOf job.now group.members.items group.ends.items group.users.items }
    requires dealt { IsDealt (length job.now.setup.cpus)
        dealt.dealer dealt.seats.items dealt.spare.items }
    ensures { IfOk result (λ threads. AreFreshThreads T.base T.taken job.now
        (map (option_map S.seen) sources.items) takers.items
        threads.members.items threads.dealer threads.spare.items threads.workers.items) }
{
    let mut users = group.users;
    let mut spare = dealt.spare;
    let timer = Timer {
        member_seats: last_of(&mut users).into_vec(),
        full: false,
    };
    let walkers = walkers_of(alloc, takers, group.ends, &mut spare)?;
    let feeders = feeders_of(alloc, job.setup.plan, sources, users, dealt.seats)?;
    let workers = workers_of(alloc, walkers, timer, feeders)?;
    Ok(RunThreads {
        members: group.members,
        dealer: dealt.dealer,
        spare,
        workers,
    })
}

/// Opens the group of a job, and makes its workers.
pub(crate) fn new_threads<S: Source, T: Taker + Drop>(
    alloc: Global,
    job: &Job,
    sources: Vec<Option<S>>,
    takers: Vec<T>,
) -> Result<RunThreads<S, T>, Memory>
    requires sources { length sources.items ≡ length job.now.setup.cpus }
    requires takers { length takers.items ≡ job.now.setup.plan.members }
    requires fresh { AllByRecursion (IsFreshTaker T.base T.taken job.now.setup.shape) takers.items }
    ensures { IfOk result (λ threads. AreFreshThreads T.base T.taken job.now
        (map (option_map S.seen) sources.items) takers.items
        threads.members.items threads.dealer threads.spare.items threads.workers.items) }
{
    let plan = job.setup.plan;
    let cpus = sources.len();
    let group = open_group(alloc, &job.setup.shape, plan.members(), cpus as u32)?;
    let dealt = deal(alloc, cpus)?;
    threads_of(alloc, job, sources, takers, group, dealt)
}
