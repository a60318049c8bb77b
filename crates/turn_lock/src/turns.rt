//! A turn: a seat enters, has the value, and leaves.
ghost use Rattle.std.specs.Prelude.{◌≡◌, ◌+◌, ◌<◌, ◌≤◌, ◌^◌, [], ◌∷◌, length, None, MatchOption};
ghost use Rattle.std.specs.Prelude.{IfSome};
ghost use Rattle.turn_lock.specs.declared.knowledge.SeatStage.TheVariants.{Idle};
ghost use Rattle.turn_lock.specs.Histories.{GoesOn};
ghost use Rattle.turn_lock.specs.Seats.{AddsIn, IsSeatOf, inside, outside};
ghost use Rattle.turn_lock.specs.Steps.{HasLooked, HasValue, MayDraw};

use crate::backoff::Backoff;
use crate::knowledge::{Knows, Opening};
use crate::plays::{ByTurns, DrawStep, LeaveStep, LookStep};
use crate::{Kept, TurnLock, TurnSeat};
use atomic_table::{Seat, Shared};
use std::sync::Wait;

/// The word with the number of tickets drawn.
const TICKETS: usize = 0;

/// The word with the ticket that is served.
const SERVED: usize = 1;

/// One poll: where all tickets are served to their end, tries to draw the next one and to take the
/// value, in one step. Between the look and the try another seat may draw that ticket; then this
/// one has none. It returns the ticket, where it has drawn it.
fn poll<V: Kept>(
    shared: &Shared<Option<V>, Knows<V::Entry, V::Base>, Opening<V>, ByTurns>,
    seat: &mut Seat<Option<V>, Knows<V::Entry, V::Base>>,
) -> Option<u64>
    requires table { (seat.old.table_id ≡ shared.now.table_id) × (1 < shared.now.table_id.words) }
    requires stage { seat.old.me.0.stage ≡ Idle }
    requires few { MayDraw seat.old.me.0.places }
    ensures table { seat.new.table_id ≡ seat.old.table_id }
    ensures turn { MatchOption result (HasLooked seat.old.me seat.new.me)
        (λ ticket. HasValue V.stored V.base V.may_add seat.old.me ticket seat.new.me) }
    ensures small { IfSome result (λ ticket. ticket < 2 ^ 38) }
{
    let served = shared.load::<LookStep>(seat, SERVED);
    if shared.peek(TICKETS) != served {
        return None;
    }
    let found = shared.compare_exchange::<DrawStep>(seat, TICKETS, served, served + 1);
    if found != served {
        return None;
    }
    Some(served)
}

/// Polls until the seat has a ticket and the value. It has no ticket meanwhile, so nobody waits for
/// it, however long the system suspends its thread. It returns the ticket.
fn wait_turn<V: Kept, R: Wait>(
    rt: &R,
    shared: &Shared<Option<V>, Knows<V::Entry, V::Base>, Opening<V>, ByTurns>,
    seat: &mut Seat<Option<V>, Knows<V::Entry, V::Base>>,
) -> u64
    requires table { (seat.old.table_id ≡ shared.now.table_id) × (1 < shared.now.table_id.words) }
    requires stage { seat.old.me.0.stage ≡ Idle }
    requires few { MayDraw seat.old.me.0.places }
    ensures table { seat.new.table_id ≡ seat.old.table_id }
    ensures value { HasValue V.stored V.base V.may_add seat.old.me result seat.new.me }
    ensures small { result < 2 ^ 38 }
{
    let mut backoff = Backoff::for_turns();
    for _ in rt.forever() {
        if let Some(ticket) = poll::<V>(shared, seat) {
            return ticket;
        }
        backoff.wait(rt);
    }
    unreachable!()
}

impl<V: Kept> TurnLock<V> {
    /// Waits for the seat's turn and gives the value. The seat isn't in its turn, and has entered
    /// fewer than 2^32 times.
    pub fn enter<R: Wait>(&self, rt: &R, seat: &mut TurnSeat<V>) -> V
        requires own { IsSeatOf self.now seat.old }
        requires outside { seat.old.turn ≡ None }
        requires few { seat.old.entered < 2 ^ 32 }

        ensures base { V.base result ≡ self.now.base }
        ensures goes_on { GoesOn (V.may_add self.now.base)
            seat.old.number seat.old.last (V.stored result) }
        ensures length { length (V.stored result) ≤ length self.now.first + 2 ^ 37 }
        ensures seat { seat.new ≡ inside seat.old (V.stored result) }
    {
        let shared = &self.table.shared;
        let ticket = wait_turn::<V, R>(rt, shared, &mut seat.seat);
        seat.ticket = ticket;
        shared.exchange(&mut seat.seat, 0, None).unwrap()
    }

    /// Ends the seat's turn. The value has the base that it was given with, and has stored what it
    /// had then, or that and one more entry that this seat may add.
    pub fn leave(&self, seat: &mut TurnSeat<V>, value: V)
        requires own { IsSeatOf self.now seat.old }
        requires base { V.base value ≡ self.now.base }
        requires turn { AddsIn (V.may_add self.now.base) seat.old (V.stored value) }

        ensures seat { seat.new ≡ outside seat.old (V.stored value) }
    {
        let shared = &self.table.shared;
        match shared.exchange(&mut seat.seat, 0, Some(value)) {
            None => {}
            Some(_) => unreachable!(),
        }
        shared.store::<LeaveStep>(&mut seat.seat, SERVED, seat.ticket + 1);
    }
}
