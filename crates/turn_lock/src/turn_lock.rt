//! The lock itself.
ghost use Rattle.std.specs.Prelude.{◌≡◌};

use crate::Kept;
use crate::knowledge::{Knows, Opening};
use crate::plays::ByTurns;
use atomic_table::{Shared, Table};
use std::alloc::Global;
use std::marker::Model;

/// A value that seats take in turns. Word 0 of its table is the number of tickets drawn, word 1 the
/// ticket that is served, and its slot has the value while no seat has it.
#[derive(Drop)]
pub struct TurnLock<V: Kept> {
    /// The two words and the slot, under the turn history.
    pub(crate) table: Table<Option<V>, Knows<V::Entry, V::Base>, Opening<V>, ByTurns, Global>,
}

impl<V: Kept> Model for TurnLock<V> {
    ghost use Rattle.std.specs.Prelude.{◌≡◌, ◌<◌};
    ghost use Rattle.turn_lock.specs.Seats.{LockValue};

    ghost Value = { LockValue V.Entry V.Base };

    ghost use Rattle.turn_lock.specs.SeatsInside.{lock_of};

    ghost view = { λ lock.
        lock_of V.base V.stored lock.table.shared.table_id lock.table.shared.key };

    ghost invariant = { λ lock.
        (lock.table.shared.table_id.words ≡ 2) × (lock.table.shared.table_id.slots ≡ 1)
        × (0 < lock.table.shared.key.seats) };
}

impl<V: Kept> TurnLock<V> {
    /// Its table. The type says that it is under the rule of which `the_turn_history_holds` speaks.
    pub fn table(&self) -> &Shared<Option<V>, Knows<V::Entry, V::Base>, Opening<V>, ByTurns>
        ensures table { result.now.table_id ≡ self.now.id }
        ensures base { V.base result.now.key.value.value ≡ self.now.base }
        ensures first { V.stored result.now.key.value.value ≡ self.now.first }
        ensures seats { result.now.key.seats ≡ self.now.seats }
    {
        &self.table.shared
    }
}
