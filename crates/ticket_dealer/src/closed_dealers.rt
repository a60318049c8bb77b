//! How a dealer is closed.
ghost use Rattle.std.specs.Prelude.{◌≡◌, ◌+◌, ◌<◌, length};
ghost use Rattle.std.specs.List.{AllByRecursion};
ghost use Rattle.ticket_dealer.specs.Seats.{AreDealt, IsAt, IsSeatOf, RisesIn, all_drawn};

use crate::dealer::TICKETS;
use crate::knowledge::Hand;
use crate::plays::{EachTicketOnce, GatherStep};
use crate::{Dealer, DealerSeat};
use atomic_table::{Seat, Shared};

/// One seat of the table that represents all of these.
fn gather(
    shared: &Shared<(), Hand, u64, EachTicketOnce>,
    mut seats: Vec<DealerSeat>,
) -> Seat<(), Hand>
    requires table { 0 < shared.now.table_id.words }
    requires some { 0 < length seats.items }
    requires own { AllByRecursion (IsAt shared.now.table_id) seats.items }
    ensures table { result.table_id ≡ shared.now.table_id }
    ensures shares { result.me.0.shares ≡ length seats.items }
    ensures drawn { result.me.0.drawn ≡ all_drawn seats.items }
    ensures rising { AllByRecursion RisesIn seats.items }
{
    let Some(last) = seats.pop() else {
        unreachable!()
    };
    let DealerSeat { seat } = last;
    let mut all = seat;
    while let Some(other) = seats.pop() {
        let DealerSeat { seat } = other;
        shared.join_seat::<GatherStep>(&mut all, seat);
    }
    all
}

impl Dealer {
    /// The number of tickets drawn, when all seats are handed in. The tickets of all seats are then
    /// the numbers below it, each once, rising in each seat.
    pub fn close(self, seats: Vec<DealerSeat>) -> u64
        requires all { length seats.items ≡ self.feeders + 9 }
        requires own { AllByRecursion (IsSeatOf self) seats.items }

        ensures dealt { AreDealt seats.items result }
    {
        let Dealer { table } = self;
        let seat = gather(&table.shared, seats);
        let closed = table.close_with(seat);
        let drawn = closed.word(TICKETS);
        closed.free();
        drawn
    }
}
