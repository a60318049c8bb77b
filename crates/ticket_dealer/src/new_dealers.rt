//! How a dealer is made.
ghost use Rattle.std.specs.Prelude.{◌≡◌, ◌+◌, ◌-◌, ◌<◌, ◌≤◌, [], ◌++◌, replicate, IfOk, OnOk};
ghost use Rattle.ticket_dealer.specs.Hands.{fresh, unmade};
ghost use Rattle.ticket_dealer.specs.Seats.{dealer_of, fresh_seat, fresh_seats};

use crate::knowledge::Hand;
use crate::plays::{EachTicketOnce, FeederStep, OtherStep};
use crate::{Dealer, DealerSeat};
use atomic_table::{Seat, Shared, Table};
use frame_view::Memory;
use std::alloc::Global;

/// How many seats belong to no feeder: a timer's and those of eight readers.
const OTHERS: usize = 9;

/// The seats of the feeders after the first one, which is the first feeder's and makes the others.
fn make_feeders(
    shared: &Shared<(), Hand, u64, EachTicketOnce>,
    first: &mut Seat<(), Hand>,
    count: usize,
    seats: &mut Vec<DealerSeat>,
) -> Result<(), Memory>
    requires table { (first.old.table_id ≡ shared.now.table_id) × (0 < shared.now.table_id.words) }
    requires first { first.old.me ≡ (unmade shared.now.key (count + 1) (count + 10), []) }
    ensures table { first.new.table_id ≡ first.old.table_id }
    ensures first { OnOk result (first.new.me ≡ (unmade shared.now.key 1 10, [])) }
    ensures seats { let dealer = dealer_of shared.now.table_id shared.now.key in OnOk result
        (seats.new.items ≡ seats.old.items ++ replicate count (fresh_seat dealer 1)) }
{
    for _ in 0..count {
        let seat = shared.split_seat::<FeederStep>(first);
        seats.push(DealerSeat { seat })?;
    }
    Ok(())
}

/// The seats that belong to no feeder.
fn make_others(
    shared: &Shared<(), Hand, u64, EachTicketOnce>,
    first: &mut Seat<(), Hand>,
    seats: &mut Vec<DealerSeat>,
) -> Result<(), Memory>
    requires table { (first.old.table_id ≡ shared.now.table_id) × (0 < shared.now.table_id.words) }
    requires first { first.old.me ≡ (unmade shared.now.key 1 10, []) }
    ensures table { first.new.table_id ≡ first.old.table_id }
    ensures first { OnOk result (first.new.me ≡ (fresh shared.now.key 1 shared.now.key, [])) }
    ensures seats { let dealer = dealer_of shared.now.table_id shared.now.key in OnOk result
        (seats.new.items ≡ seats.old.items ++ replicate 9 (fresh_seat dealer 0)) }
{
    for _ in 0..OTHERS {
        let seat = shared.split_seat::<OtherStep>(first);
        seats.push(DealerSeat { seat })?;
    }
    Ok(())
}

impl Dealer {
    /// A dealer of n feeders, 1 to 8, and its seats: those of the feeders and then nine more. The
    /// only error is out of memory.
    pub fn new(alloc: Global, feeders: u32) -> Result<(Dealer, Vec<DealerSeat>), Memory>
        requires some { 0 < feeders }
        requires few { feeders ≤ 8 }

        ensures feeders { IfOk result (λ made. made.0.feeders ≡ feeders) }
        ensures seats { IfOk result (λ made. made.1.items ≡ fresh_seats made.0) }
    {
        let all = u64::from(feeders);
        let (table, mut first) = Table::of_words(alloc, &[0, all], &all)?;
        let mut seats = Vec::with_capacity(alloc, feeders as usize + OTHERS)?;
        make_feeders(&table.shared, &mut first, feeders as usize - 1, &mut seats)?;
        make_others(&table.shared, &mut first, &mut seats)?;
        seats.insert(0, DealerSeat { seat: first })?;
        Ok((Dealer { table }, seats))
    }
}
