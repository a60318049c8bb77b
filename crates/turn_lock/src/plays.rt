//! The rule of a lock's table, and what each step shows. These types are for the proofs alone.
ghost use Rattle.turn_lock.specs.SeatKnowledge.{opening, maker, newcomer, joined, spent};
ghost use Rattle.turn_lock.specs.Steps.{Drew, Looked, Left};
ghost use Rattle.turn_lock.specs.Turns.{Turns};

use crate::Kept;
use crate::knowledge::{Knows, Opening};
use atomic_table::{Join, Play, Split, TableRule};

/// The turn history.
pub struct ByTurns;

impl<V: Kept> TableRule<Option<V>, Knows<V::Entry, V::Base>, Opening<V>> for ByTurns {
    ghost holds = { λ key. Turns V.stored V.base V.may_add
        (V.base key.value.value) (V.stored key.value.value) key.seats };

    ghost first = { λ key. opening (V.base key.value.value) (V.stored key.value.value) key.seats };
}

/// A seat is made from the first one.
pub struct SeatStep;

impl<E, B> Split<Knows<E, B>> for SeatStep {
    ghost left = { maker };

    ghost right = { newcomer };
}

/// A look at the ticket that is served.
pub struct LookStep;

impl<V: Kept> Play<Option<V>, Knows<V::Entry, V::Base>> for LookStep {
    ghost then = { Looked };
}

/// The next ticket is drawn and the value is taken, where the number of tickets is the expected one.
pub struct DrawStep;

impl<V: Kept> Play<Option<V>, Knows<V::Entry, V::Base>> for DrawStep {
    ghost then = { Drew V.stored V.base V.may_add };
}

/// The next ticket is served, and the value is back.
pub struct LeaveStep;

impl<V: Kept> Play<Option<V>, Knows<V::Entry, V::Base>> for LeaveStep {
    ghost then = { Left V.stored };
}

/// A seat takes in another.
pub struct JoinStep;

impl<E, B> Join<Knows<E, B>> for JoinStep {
    ghost both = { joined };

    ghost spent = { spent };
}
