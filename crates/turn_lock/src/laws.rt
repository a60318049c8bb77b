//! Laws of the turn history, each the contract of a function that does nothing.
ghost use Rattle.std.specs.Prelude.{◌≡◌, ◌++◌, ℕ, List, Option};
ghost use Rattle.atomic_table.specs.Table.{State};
ghost use Rattle.turn_lock.specs.declared.knowledge.Knows.{Knows};
ghost use Rattle.turn_lock.specs.declared.knowledge.Opening.{Opening};
ghost use Rattle.turn_lock.specs.Histories.{GoesOn, IsTurn, own};
ghost use Rattle.turn_lock.specs.History.{IsHistory};

use crate::Kept;
use crate::knowledge::{Knows, Opening};
use crate::plays::ByTurns;
use atomic_table::TableRule;

/// Where a list grows by entries that other seats may add, the seat's own entries in it are those
/// that it began with. So each entry of a lock's history that a seat may add is in the list that
/// the seat left the last time.
pub fn own_entries_are_in_last<V: Kept>()
    ensures { (base : V.Base) (number : ℕ) (last entries : List V.Entry)
        → GoesOn (V.may_add base) number last entries
        → own (V.may_add base) number entries ≡ own (V.may_add base) number last }
{}

/// A turn adds to the seat's own entries what it adds to the list, and nothing else.
pub fn a_turn_adds_to_its_own<V: Kept>()
    ensures { (base : V.Base) (number : ℕ) (last before added : List V.Entry)
        → GoesOn (V.may_add base) number last before
        → IsTurn (V.may_add base) number added
        → own (V.may_add base) number (before ++ added)
        ≡ own (V.may_add base) number last ++ added }
{}

/// What a lock's table keeps between any two steps is the turn history.
pub fn the_turn_history_holds<V: Kept>()
    ensures { (key : Opening V) (table : State (Option V) (Knows V.Entry V.Base))
        → ⟦<ByTurns as TableRule<Option<V>, Knows<V::Entry, V::Base>, Opening<V>>>⟧.holds key table
        → IsHistory V.stored V.base V.may_add
        (V.base key.value.value) (V.stored key.value.value) key.seats table }
{}
