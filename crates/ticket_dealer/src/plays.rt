//! The rule of a dealer's table, and what each step shows. These types are for the proofs alone.
ghost use Rattle.ticket_dealer.specs.Dealt.{Dealt};
ghost use Rattle.ticket_dealer.specs.Hands.{opening, without_feeder, feeder_of, without_other};
ghost use Rattle.ticket_dealer.specs.Hands.{other_of, joined, spent};
ghost use Rattle.ticket_dealer.specs.Steps.{Drew, Ended, Saw};

use crate::knowledge::Hand;
use atomic_table::{Join, Play, Split, TableRule};

/// Each number below the ticket word is drawn once.
pub struct EachTicketOnce;

impl TableRule<(), Hand, u64> for EachTicketOnce {
    ghost holds = { Dealt };

    ghost first = { opening };
}

/// A feeder's seat is made from the first one.
pub struct FeederStep;

impl Split<Hand> for FeederStep {
    ghost left = { without_feeder };

    ghost right = { feeder_of };
}

/// A seat that belongs to no feeder is made from the first one.
pub struct OtherStep;

impl Split<Hand> for OtherStep {
    ghost left = { without_other };

    ghost right = { other_of };
}

/// A ticket is drawn.
pub struct TicketStep;

impl Play<(), Hand> for TicketStep {
    ghost then = { Drew };
}

/// A feeder has ended.
pub struct EndStep;

impl Play<(), Hand> for EndStep {
    ghost then = { Ended };
}

/// A look at the number of live feeders.
pub struct CountStep;

impl Play<(), Hand> for CountStep {
    ghost then = { Saw };
}

/// A seat takes in another.
pub struct GatherStep;

impl Join<Hand> for GatherStep {
    ghost both = { joined };

    ghost spent = { spent };
}
