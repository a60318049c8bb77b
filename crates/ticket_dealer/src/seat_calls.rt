//! What a seat does: it draws a ticket, ends, and looks how many feeders are live. No call waits or
//! takes memory.
ghost use Rattle.std.specs.Prelude.{◌≡◌, ◌<◌, ◌≤◌, ◌^◌, length};
ghost use Rattle.ticket_dealer.specs.Seats.{AreLive, IsSeatOf, has_drawn, has_ended, has_seen};
ghost use Rattle.ticket_dealer.specs.Tickets.{AllBelow};

use crate::dealer::{LIVE, TICKETS};
use crate::plays::{CountStep, EndStep, TicketStep};
use crate::{Dealer, DealerSeat};

impl Dealer {
    /// Draws the next ticket, from 0: the ticket word as it was before it rose by one. The seat has
    /// drawn fewer than 2^32 tickets.
    pub fn draw(&self, seat: &mut DealerSeat) -> u64
        requires own { IsSeatOf self.now seat.old }
        requires few { length seat.old.drawn < 2 ^ 32 }

        ensures drawn { seat.new ≡ has_drawn seat.old result }
        ensures above { AllBelow result seat.old.drawn }
        ensures small { result < 2 ^ 37 }
    {
        self.table
            .shared
            .fetch_add::<TicketStep>(&mut seat.seat, TICKETS, 1)
    }

    /// Lowers the number of live feeders by one. The seat is a feeder's and hasn't called this
    /// before.
    pub fn done(&self, seat: &mut DealerSeat)
        requires own { IsSeatOf self.now seat.old }
        requires owes { seat.old.owes ≡ 1 }

        ensures ended { seat.new ≡ has_ended seat.old }
    {
        self.table
            .shared
            .fetch_sub::<EndStep>(&mut seat.seat, LIVE, 1);
    }

    /// Loads the number of live feeders: all of them less the calls of `done` so far.
    pub fn live(&self, seat: &mut DealerSeat) -> u64
        requires own { IsSeatOf self.now seat.old }

        ensures seen { seat.new ≡ has_seen seat.old result }
        ensures live { AreLive seat.old result }
        ensures falls { result ≤ seat.old.live }
    {
        self.table.shared.load::<CountStep>(&mut seat.seat, LIVE)
    }
}
