//! The members of a group as the feeder of a CPU uses them, while other threads use them too.
ghost use Rattle.cpu_feeders.specs.inside.TurnGroups.{Draws, HasMade, HasRoom, MayDraw};
ghost use Rattle.cpu_feeders.specs.inside.TurnGroups.{TakesAt};
ghost use Rattle.cpu_feeders.specs.inside.TurnLaws.{less_turns, made_nothing, made_on};

use crate::{Gate, Point};
use fanout_group::{Dealer, DealerSeat, Desk, Group};
use member_turns::{Member, MemberSeat, put_turn, try_turn};
use ring_model::{Offer, Put, Tried, Unput};
use std::sync::Wait;

/// A group between threads, as the feeder of one CPU uses it. Each try waits for its turn at its
/// member, and is one turn there; a ticket is drawn from the dealer. A thread has at most one turn
/// at a time, since each is entered and left before the next.
#[derive(Drop)]
pub(crate) struct TurnGroup<'a, R: Wait, G: Gate> {
    /// The runtime, which lets a thread wait.
    pub(crate) rt: &'a R,
    /// The members, from 0 up.
    pub(crate) members: &'a [Member],
    /// Deals tickets.
    pub(crate) dealer: &'a Dealer,
    /// Where a test may hold a thread.
    pub(crate) gate: &'a G,
    /// The feeder's seat at each member, from 0 up.
    pub(crate) member_seats: &'a mut Vec<MemberSeat>,
    /// The feeder's seat at the dealer.
    pub(crate) seat: &'a mut DealerSeat,
}

impl<'a, R: Wait, G: Gate> Desk for TurnGroup<'a, R, G> {
    ghost takes = { λ group member offer.
        TakesAt group.members.now group.member_seats.now.items member offer };

    ghost room = { λ group turns. HasRoom group.member_seats.now.items turns };

    ghost made = { HasMade };

    fn try_put(&mut self, member: u32, offer: Offer) -> Result<Tried, Unput> {
        let at = member as usize;
        let members = self.members;
        let member_seat = &mut self.member_seats[at];
        try_turn(self.rt, &members[at], member_seat, offer)
    }

    fn put(&mut self, member: u32, offer: Offer) -> Result<Put, Unput> {
        let at = member as usize;
        let members = self.members;
        let member_seat = &mut self.member_seats[at];
        put_turn(self.rt, &members[at], member_seat, offer)
    }

    ghost none_made = { made_nothing };

    ghost more_made = { made_on };

    ghost less_room = { λ group. less_turns group.member_seats.now.items };
}

impl<'a, R: Wait, G: Gate> Group for TurnGroup<'a, R, G> {
    ghost may_draw = { λ group. MayDraw group.dealer.now group.seat.now };

    ghost drew = { Draws };

    fn ticket(&mut self) -> u64 {
        self.dealer.draw(self.seat)
    }

    /// The gate is called outside any turn.
    fn announce(&self, offer: &Offer) {
        self.gate.at(Point::Deliver {
            cpu: offer.frame.cpu,
            index: offer.frame.index,
        });
    }
}
