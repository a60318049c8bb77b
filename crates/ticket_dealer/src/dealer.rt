//! The dealer itself.
ghost use Rattle.std.specs.Prelude.{◌≡◌};

use crate::knowledge::Hand;
use crate::plays::EachTicketOnce;
use atomic_table::{Shared, Table};
use std::alloc::Global;
use std::marker::Model;

/// The word with the next ticket.
pub(crate) const TICKETS: usize = 0;

/// The word with the number of feeders that haven't ended.
pub(crate) const LIVE: usize = 1;

/// Two words between threads: the next ticket, and the number of feeders that haven't ended.
#[derive(Drop)]
pub struct Dealer {
    /// The two words, under the rule that each number is drawn once.
    pub(crate) table: Table<(), Hand, u64, EachTicketOnce, Global>,
}

impl Model for Dealer {
    ghost use Rattle.std.specs.Prelude.{◌≡◌, ◌<◌, ◌≤◌};
    ghost use Rattle.ticket_dealer.specs.Seats.{DealerValue};

    ghost Value = { DealerValue };

    ghost view = { λ dealer. record {
      id = dealer.table.shared.table_id;
      feeders = dealer.table.shared.key;
    } };

    ghost invariant = { λ dealer.
        (dealer.table.shared.table_id.words ≡ 2) × (dealer.table.shared.table_id.slots ≡ 0)
        × (0 < dealer.table.shared.key) × (dealer.table.shared.key ≤ 8) };
}

impl Dealer {
    /// Its table. The type says that it is under the rule of which `the_dealing_holds` speaks.
    pub fn table(&self) -> &Shared<(), Hand, u64, EachTicketOnce>
        ensures table { result.now.table_id ≡ self.now.id }
        ensures feeders { result.now.key ≡ self.now.feeders }
    {
        &self.table.shared
    }
}
