//! How a lock is made.
ghost use Rattle.std.specs.Prelude.{◌≡◌, ◌+◌, ◌-◌, ◌<◌, ◌≤◌, [], ◌∷◌, Some, IfOk, OnOk};
ghost use Rattle.turn_lock.specs.SeatKnowledge.{seated};
ghost use Rattle.turn_lock.specs.Seats.{fresh_seats};
ghost use Rattle.turn_lock.specs.SeatsInside.{lock_of};

use crate::knowledge::{Knows, Opening};
use crate::plays::{ByTurns, SeatStep};
use crate::{Kept, TurnLock, TurnSeat};
use atomic_table::{Seat, Shared, Table};
use frame_view::Memory;
use std::alloc::Global;
use std::snapshot::Snapshot;

/// The seats after the first one, which it makes one after another.
fn make_others<V: Kept>(
    shared: &Shared<Option<V>, Knows<V::Entry, V::Base>, Opening<V>, ByTurns>,
    first: &mut Seat<Option<V>, Knows<V::Entry, V::Base>>,
    count: usize,
    seats: &mut Vec<TurnSeat<V>>,
) -> Result<(), Memory>
    requires table { (first.old.table_id ≡ shared.now.table_id) × (0 < shared.now.table_id.words) }
    requires first { let lock = lock_of V.base V.stored shared.now.table_id shared.now.key in
        first.old.me ≡ (seated (Some lock.base) lock.first 0 count 1, []) }
    requires none { seats.old.items ≡ [] }
    ensures table { first.new.table_id ≡ first.old.table_id }
    ensures first { let lock = lock_of V.base V.stored shared.now.table_id shared.now.key in
        OnOk result (first.new.me ≡ (seated (Some lock.base) lock.first 0 0 (count + 1), [])) }
    ensures seats { let lock = lock_of V.base V.stored shared.now.table_id shared.now.key in
        OnOk result (seats.new.items ≡ fresh_seats lock 1 count) }
{
    for _ in 0..count {
        let seat = shared.split_seat::<SeatStep>(first);
        seats.push(TurnSeat { seat, ticket: 0 })?;
    }
    Ok(())
}

impl<V: Kept + Drop> TurnLock<V> {
    /// A lock over the value, and its seats, which have the numbers from 0 in the order of the
    /// list. There are 1 to 32 seats. The only error is out of memory; the value is then dropped.
    pub fn new(
        alloc: Global,
        value: V,
        seats: u32,
    ) -> Result<(TurnLock<V>, Vec<TurnSeat<V>>), Memory>
        requires some { 0 < seats }
        requires few { seats ≤ 32 }

        ensures base { IfOk result (λ made. made.0.base ≡ V.base value) }
        ensures first { IfOk result (λ made. made.0.first ≡ V.stored value) }
        ensures count { IfOk result (λ made. made.0.seats ≡ seats) }
        ensures seats { IfOk result (λ made. made.1.items ≡ fresh_seats made.0 0 seats) }
    {
        let opening = Opening {
            value: Snapshot::of(&value),
            seats: u64::from(seats),
        };
        let mut slots = Vec::with_capacity(alloc, 1)?;
        slots.push(Some(value))?;
        let (table, mut first) = match Table::new(alloc, &[0u64, 0u64], slots, &opening) {
            Ok(made) => made,
            Err(_) => return Err(Memory),
        };
        let mut all = Vec::with_capacity(alloc, seats as usize)?;
        make_others::<V>(&table.shared, &mut first, seats as usize - 1, &mut all)?;
        all.insert(
            0,
            TurnSeat {
                seat: first,
                ticket: 0,
            },
        )?;
        Ok((TurnLock { table }, all))
    }
}
