//! How a lock is closed.
ghost use Rattle.std.specs.Prelude.{◌≡◌, ◌<◌, length, map, None};
ghost use Rattle.std.specs.List.{AllByRecursion};
ghost use Rattle.turn_lock.specs.declared.knowledge.SeatStage.TheVariants.{Idle};
ghost use Rattle.turn_lock.specs.Endings.{Ends};
ghost use Rattle.turn_lock.specs.Seats.{IsIdleAt, IsIdleSeatOf, place_of};

use crate::knowledge::{Knows, Opening};
use crate::plays::{ByTurns, JoinStep};
use crate::{Kept, TurnLock, TurnSeat};
use atomic_table::{Seat, Shared};

/// One seat of the table that represents all of these.
fn gather<V: Kept>(
    shared: &Shared<Option<V>, Knows<V::Entry, V::Base>, Opening<V>, ByTurns>,
    mut seats: Vec<TurnSeat<V>>,
) -> Seat<Option<V>, Knows<V::Entry, V::Base>>
    requires table { 0 < shared.now.table_id.words }
    requires some { 0 < length seats.items }
    requires own { AllByRecursion (IsIdleAt shared.now.table_id) seats.items }
    ensures table { result.table_id ≡ shared.now.table_id }
    ensures places { result.me.0.places ≡ map place_of seats.items }
    ensures stage { result.me.0.stage ≡ Idle }
{
    let Some(last) = seats.pop() else {
        unreachable!()
    };
    let TurnSeat { seat, ticket: _ } = last;
    let mut all = seat;
    while let Some(other) = seats.pop() {
        let TurnSeat { seat, ticket: _ } = other;
        shared.join_seat::<JoinStep>(&mut all, seat);
    }
    all
}

impl<V: Kept> TurnLock<V> {
    /// Takes the value out, when all seats are handed in and none is in its turn. The value's
    /// entries are those that it had at first and then those that the seats added, each seat's in
    /// its order.
    pub fn close(self, seats: Vec<TurnSeat<V>>) -> V
        requires all { length seats.items ≡ self.seats }
        requires own { AllByRecursion (IsIdleSeatOf self) seats.items }

        ensures base { V.base result ≡ self.base }
        ensures history { Ends (V.may_add self.base) self.first seats.items (V.stored result) }
    {
        let TurnLock { table } = self;
        let seat = gather::<V>(&table.shared, seats);
        let mut closed = table.close_with(seat);
        let slot = closed.take(0);
        closed.free();
        slot.unwrap()
    }
}
