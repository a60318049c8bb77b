//! The law of a dealer's table, the contract of a function that does nothing.
ghost use Rattle.std.specs.Prelude.{ℕ};
ghost use Rattle.atomic_table.specs.Table.{State};
ghost use Rattle.ticket_dealer.specs.Deals.{IsDealing};
ghost use Rattle.ticket_dealer.specs.declared.knowledge.Hand.{Hand};

use crate::knowledge::Hand;
use crate::plays::EachTicketOnce;
use atomic_table::TableRule;

/// What a dealer's table keeps between any two steps: each number below the ticket word was drawn
/// once, by one seat, the tickets of each seat rise, and the live word plus all calls of `done` is
/// the number of feeders.
pub fn the_dealing_holds()
    ensures { (feeders : ℕ) (table : State (Unit {0}) Hand) →
        ⟦<EachTicketOnce as TableRule<(), Hand, u64>>⟧.holds feeders table → IsDealing feeders table }
{}
