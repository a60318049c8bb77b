//! What feeders and the timer leave after the joins.
ghost use Rattle.std.specs.Prelude.{◌≡◌, ◌++◌, ◌∷◌, [], length, map, replicate, IfOk, OnOk};
ghost use Rattle.std.specs.List.{AllByRecursion};
ghost use Rattle.cpu_feeders.specs.inside.MemberSeats.{with_all, with_each};

use crate::feeder::Feeder;
use crate::member_seats::{SeatList, add_to_each, empty_lists};
use crate::timer::Timer;
use cpu_feed::CpuFeed;
use fanout_group::DealerSeat;
use frame_view::Memory;
use std::alloc::Global;
use tap_outside::Source;

/// What feeders and the timer leave.
#[derive(Drop)]
pub(crate) struct Left<S: Source> {
    /// The CPUs, from 0 up.
    pub(crate) cpus: Vec<CpuFeed<S>>,
    /// The seat of each CPU's feeder at the dealer.
    pub(crate) seats: Vec<DealerSeat>,
    /// The seats at each member: of the CPUs from 0 up, and then of the timer.
    pub(crate) member_seats: Vec<SeatList>,
}

impl<S: Source> Left<S> {
    /// What is left before any CPU or member was taken apart, with room for `cpus` CPUs.
    fn new(alloc: Global, cpus: usize, members: usize) -> Result<Left<S>, Memory>
        ensures cpus { IfOk result (λ left. left.cpus.items ≡ []) }
        ensures seats { IfOk result (λ left. left.seats.items ≡ []) }
        ensures member_seats { IfOk result (λ left.
            left.member_seats.items ≡ replicate members []) }
    {
        Ok(Left {
            cpus: Vec::with_capacity(alloc, cpus)?,
            seats: Vec::with_capacity(alloc, cpus)?,
            member_seats: empty_lists(alloc, members)?,
        })
    }

    /// Takes one feeder apart, and puts what it leaves after what others left.
    fn add(&mut self, feeder: Feeder<S>) -> Result<(), Memory>
        requires count { length feeder.member_seats.items ≡ length self.old.member_seats.items }
        ensures cpus { OnOk result (self.new.cpus.items ≡ self.old.cpus.items ++ feeder.feed ∷ []) }
        ensures seats { OnOk result
            (self.new.seats.items ≡ self.old.seats.items ++ feeder.seat ∷ []) }
        ensures member_seats { OnOk result
            (self.new.member_seats.items
            ≡ with_each self.old.member_seats.items feeder.member_seats.items) }
    {
        self.cpus.push(feeder.feed)?;
        self.seats.push(feeder.seat)?;
        add_to_each(&mut self.member_seats, feeder.member_seats)
    }
}

/// Puts the seats of timers, which have one at each member, after these.
fn add_timers(member_seats: &mut Vec<SeatList>, timers: Vec<Timer>) -> Result<(), Memory>
    requires timers { AllByRecursion
        (λ it. length it.member_seats.items ≡ length member_seats.old.items) timers.items }
    ensures { OnOk result (member_seats.new.items
        ≡ with_all member_seats.old.items (map (λ timer. timer.member_seats.items) timers.items)) }
{
    for timer in timers {
        add_to_each(member_seats, timer.member_seats)?;
    }
    Ok(())
}

/// Takes feeders and the timer apart, which have a seat at each of `members` members.
pub(crate) fn gather<S: Source>(
    alloc: Global,
    members: usize,
    feeders: Vec<Feeder<S>>,
    timers: Vec<Timer>,
) -> Result<Left<S>, Memory>
    requires feeders { AllByRecursion (λ it. length it.member_seats.items ≡ members) feeders.items }
    requires timers { AllByRecursion (λ it. length it.member_seats.items ≡ members) timers.items }
    ensures cpus { IfOk result (λ left.
        left.cpus.items ≡ map (λ feeder. feeder.feed) feeders.items) }
    ensures seats { IfOk result (λ left.
        left.seats.items ≡ map (λ feeder. feeder.seat) feeders.items) }
    ensures member_seats { IfOk result (λ left.
        left.member_seats.items ≡ with_all (replicate members [])
        (map (λ feeder. feeder.member_seats.items) feeders.items
        ++ map (λ timer. timer.member_seats.items) timers.items)) }
{
    let mut left = Left::new(alloc, feeders.len(), members)?;
    for feeder in feeders {
        left.add(feeder)?;
    }
    add_timers(&mut left.member_seats, timers)?;
    Ok(left)
}
