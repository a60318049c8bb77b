//! A seat at a dealer.
ghost use Rattle.std.specs.Prelude.{◌≡◌};

use crate::knowledge::Hand;
use atomic_table::Seat;
use std::marker::Model;

/// A seat at a dealer. It crosses threads, and only its owner draws with it.
#[derive(Drop)]
pub struct DealerSeat {
    /// Its seat at the dealer's table.
    pub(crate) seat: Seat<(), Hand>,
}

impl Model for DealerSeat {
    ghost use Rattle.ticket_dealer.specs.Seats.{SeatValue};

    ghost Value = { SeatValue };

    ghost use Rattle.ticket_dealer.specs.SeatsInside.{seat_value, IsSeat};

    ghost view = { λ seat. seat_value seat.seat };

    ghost invariant = { λ seat. IsSeat seat.seat };
}

impl DealerSeat {
    /// Its seat at the dealer's table, which knows what contracts see of it.
    pub fn seat(&self) -> &Seat<(), Hand>
        ensures table { result.now.table_id ≡ self.now.dealer }
        ensures one { result.now.me.0.shares ≡ 1 }
        ensures feeders { result.now.me.0.feeders ≡ self.now.feeders }
        ensures owes { result.now.me.0.owes ≡ self.now.owes }
        ensures ended { result.now.me.0.ended ≡ self.now.ended }
        ensures drawn { result.now.me.0.drawn ≡ self.now.drawn }
        ensures live { result.now.me.0.live ≡ self.now.live }
    {
        &self.seat
    }
}
