//! The workers of a run before they start.
ghost use Rattle.std.specs.Prelude.{◌≡◌, ◌+◌, ◌<◌, ◌≤◌, ◌++◌, ◌∷◌, [], false, length, map};
ghost use Rattle.std.specs.Prelude.{option_map, IfOk, OnOk};
ghost use Rattle.std.specs.List.{AllByRecursion};
ghost use Rattle.cpu_feeders.specs.Feeds.{IsFreshSeat};
ghost use Rattle.cpu_feeders.specs.inside.FreshWorkers.{AreNumbered, first_feed, first_feeds};
ghost use Rattle.cpu_feeders.specs.inside.FreshWorkers.{in_order};
ghost use Rattle.cpu_feeders.specs.declared.worker.Worker.TheVariants as worker;
ghost use Rattle.ticket_dealer.specs.Seats.{DealerValue, IsFreshOf};

use crate::feeder::Feeder;
use crate::list_ends::{first_of, last_of};
use crate::member_seats::SeatList;
use crate::timer::Timer;
use crate::walker::ReaderThread;
use crate::worker::Worker;
use capture_reading::Buffer;
use cpu_feed::CpuFeed;
use fanout_group::{DealerSeat, Plan};
use frame_view::Memory;
use reader_walk::Taker;
use ring_words::TableWalker;
use std::alloc::Global;
use std::collections::VecDeque;
use tap_outside::Source;
use tp_layout::Block;

/// The feeder of a CPU, of which nothing was read. Its seats at the members are the first of these,
/// and its seat at the dealer is the last.
fn fresh_feeder<S: Source>(
    alloc: Global,
    number: u32,
    plan: Plan,
    source: Option<S>,
    users: &mut VecDeque<SeatList>,
    seats: &mut Vec<DealerSeat>,
) -> Result<Feeder<S>, Memory>
    requires users { 0 < length users.old.items }
    requires seats { 0 < length seats.old.items }
    ensures feed { IfOk result (λ feeder.
        feeder.feed ≡ first_feed plan number (option_map S.seen source)) }
    ensures member_seats { IfOk result (λ feeder.
        users.old.items ≡ feeder.member_seats.items ∷ users.new.items) }
    ensures seat { IfOk result (λ feeder. seats.old.items ≡ seats.new.items ++ feeder.seat ∷ []) }
    ensures full { IfOk result (λ feeder. feeder.full ≡ false) }
{
    let buffer = Buffer::new(alloc)?;
    Ok(Feeder {
        feed: CpuFeed::new(alloc, number, source, plan),
        member_seats: first_of(users).into_vec(),
        seat: last_of(seats),
        buffer,
        full: false,
    })
}

/// A feeder for each source, with the seats of its CPU.
pub(crate) fn feeders_of<S: Source>(
    alloc: Global,
    plan: Plan,
    sources: Vec<Option<S>>,
    users: Vec<SeatList>,
    mut seats: Vec<DealerSeat>,
) -> Result<Vec<Feeder<S>>, Memory>
    requires few { length sources.items ≤ 8 }
    requires users { length users.items ≡ length sources.items }
    requires seats { length seats.items ≡ length sources.items }
    ensures feeds { IfOk result (λ feeders. map (λ feeder. feeder.feed) feeders.items
        ≡ first_feeds plan 0 (map (option_map S.seen) sources.items)) }
    ensures member_seats { IfOk result (λ feeders.
        map (λ feeder. feeder.member_seats.items) feeders.items ≡ users.items) }
    ensures full { IfOk result (λ feeders.
        AllByRecursion (λ feeder. feeder.full ≡ false) feeders.items) }
    ensures seats { IfOk result (λ feeders. (dealer : DealerValue)
        → AllByRecursion (IsFreshSeat dealer) seats.items
        → AllByRecursion (λ feeder. IsFreshSeat dealer feeder.seat) feeders.items) }
{
    let mut users = VecDeque::from(users);
    let mut feeders = Vec::with_capacity(alloc, sources.len())?;
    for source in sources {
        let number = feeders.len() as u32;
        feeders.push(fresh_feeder(alloc, number, plan, source, &mut users, &mut seats)?)?;
    }
    Ok(feeders)
}

/// A reader for each taker, with the end of its member's ring: the members are numbered from 0.
/// Their seats come off the list.
pub(crate) fn walkers_of<T: Taker + Drop>(
    alloc: Global,
    takers: Vec<T>,
    ends: Vec<TableWalker<Block>>,
    seats: &mut Vec<DealerSeat>,
) -> Result<Vec<ReaderThread<T>>, Memory>
    requires few { length takers.items ≤ 8 }
    requires ends { length ends.items ≡ length takers.items }
    requires seats { length takers.items ≤ length seats.old.items }
    ensures takers { IfOk result (λ walkers.
        map (λ walker. walker.taker) walkers.items ≡ takers.items) }
    ensures ends { IfOk result (λ walkers. map (λ walker. walker.end) walkers.items ≡ ends.items) }
    ensures members { IfOk result (λ walkers. AreNumbered 0 walkers.items) }
    ensures fresh { IfOk result (λ walkers. AllByRecursion
        (λ walker. (walker.released ≡ 0) × (walker.full ≡ false)) walkers.items) }
    ensures count { IfOk result (λ walkers.
        length walkers.items + length seats.new.items ≡ length seats.old.items) }
    ensures seats { IfOk result (λ walkers. (dealer : DealerValue)
        → AllByRecursion (IsFreshOf dealer) seats.old.items
        → AllByRecursion (IsFreshOf dealer) seats.new.items
        × AllByRecursion (λ walker. IsFreshOf dealer walker.seat) walkers.items) }
{
    let mut ends = VecDeque::from(ends);
    let mut walkers = Vec::with_capacity(alloc, takers.len())?;
    for taker in takers {
        walkers.push(ReaderThread {
            member: walkers.len() as u32,
            end: first_of(&mut ends),
            taker,
            seat: last_of(seats),
            released: 0,
            full: false,
        })?;
    }
    Ok(walkers)
}

/// Readers as workers.
fn all_walking<S: Source, T: Taker + Drop>(
    alloc: Global,
    walkers: Vec<ReaderThread<T>>,
) -> Result<Vec<Worker<S, T>>, Memory>
    ensures { IfOk result (λ workers.
        workers.items ≡ map (λ walker. worker.Walks walker) walkers.items) }
{
    let workers: Vec<Worker<S, T>> = walkers
        .into_iter()
        .map(|walker| Worker::Walks(walker))
        .collect(alloc)?;
    Ok(workers)
}

/// Feeders as workers.
fn all_feeding<S: Source, T: Taker + Drop>(
    alloc: Global,
    feeders: Vec<Feeder<S>>,
) -> Result<Vec<Worker<S, T>>, Memory>
    ensures { IfOk result (λ workers.
        workers.items ≡ map (λ feeder. worker.Feeds feeder) feeders.items) }
{
    let workers: Vec<Worker<S, T>> = feeders
        .into_iter()
        .map(|feeder| Worker::Feeds(feeder))
        .collect(alloc)?;
    Ok(workers)
}

/// The workers in the order in which they are run: readers, the timer, feeders.
pub(crate) fn workers_of<S: Source, T: Taker + Drop>(
    alloc: Global,
    walkers: Vec<ReaderThread<T>>,
    timer: Timer,
    feeders: Vec<Feeder<S>>,
) -> Result<Vec<Worker<S, T>>, Memory>
    ensures { IfOk result (λ workers.
        workers.items ≡ in_order walkers.items timer feeders.items) }
{
    let mut workers = all_walking(alloc, walkers)?;
    workers.push(Worker::Ticks(timer))?;
    workers.append(&mut all_feeding(alloc, feeders)?)?;
    Ok(workers)
}
