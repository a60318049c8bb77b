//! A seat at a lock.
ghost use Rattle.std.specs.Prelude.{◌≡◌, [], ◌∷◌};
ghost use Rattle.turn_lock.specs.Seats.{place_of};
ghost use Rattle.turn_lock.specs.SeatsInside.{turn_in};

use crate::Kept;
use crate::knowledge::Knows;
use atomic_table::Seat;
use std::marker::Model;

/// A seat at a lock. It crosses threads, and only its owner enters and leaves with it.
#[derive(Drop)]
pub struct TurnSeat<V: Kept> {
    /// Its seat at the lock's table.
    pub(crate) seat: Seat<Option<V>, Knows<V::Entry, V::Base>>,
    /// The ticket that it drew last.
    pub(crate) ticket: u64,
}

impl<V: Kept> Model for TurnSeat<V> {
    ghost use Rattle.turn_lock.specs.Seats.{SeatValue};

    ghost Value = { SeatValue V.Entry V.Base };

    ghost use Rattle.turn_lock.specs.SeatsInside.{seat_value, IsSeat};

    ghost view = { λ seat. seat_value seat.seat };

    ghost invariant = { λ seat. IsSeat seat.seat seat.ticket };
}

impl<V: Kept> TurnSeat<V> {
    /// Its seat at the lock's table, which knows what contracts see of it.
    pub fn seat(&self) -> &Seat<Option<V>, Knows<V::Entry, V::Base>>
        ensures table { result.now.table_id ≡ self.now.lock }
        ensures base { result.now.me.0.base ≡ self.now.base }
        ensures first { result.now.me.0.first ≡ self.now.first }
        ensures places { result.now.me.0.places ≡ place_of self.now ∷ [] }
        ensures turn { turn_in result.now.me.0.stage result.now.me.0.seen ≡ self.now.turn }
    {
        &self.seat
    }
}
