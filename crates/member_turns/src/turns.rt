//! The turns at a member: a packet is tried or put, or the clock goes on. Each is one turn of a
//! seat, and adds one note, or none if an allocation failed.
ghost use Rattle.std.specs.Prelude.{◌≡◌, ◌+◌, ◌^◌, ◌<◌, ◌≤◌, [], ◌∷◌, IfErr, IfOk, OnErr, OnOk};
ghost use Rattle.member_turns.specs.Seats.{IsReady, moment_of, own_of};
ghost use Rattle.member_turns.specs.TurnEffects.{IsPutTurn, IsTickTurn, IsTryTurn, Turned};
ghost use Rattle.tp_layout.specs.Requests.{room_of};
ghost use Rattle.tp_layout.specs.BlockWrites.{IsWritable};

use crate::{Member, MemberSeat};
use block_ring::TickError;
use frame_view::Memory;
use ring_model::{Offer, Put, Tried, Unput};
use std::sync::Wait;

/// Keeps a packet at a member, or hands it back if the ring has no room for it and the next block
/// is still the reader's; then only the note is new. It waits for the turn of the seat, which is
/// that of the packet's CPU and has entered fewer than 2^32 times.
///
/// `Unput` means that an allocation failed: the turn added no note, and the offer comes back.
pub fn try_turn<R: Wait>(
    rt: &R,
    member: &Member,
    member_seat: &mut MemberSeat,
    offer: Offer,
) -> Result<Tried, Unput>
    requires ready { IsReady member.now offer.frame.cpu member_seat.old }
    requires cpu { offer.frame.cpu < member.now.base.cpus }
    requires few { member_seat.old.entered < 2 ^ 32 }
    requires room { 82 + offer.snap ≤ room_of member.now.base.shape }
    requires sound { IsWritable offer }
    ensures tried { IfOk result (IsTryTurn member.now member_seat.old member_seat.new offer) }
    ensures unput { IfErr result (λ unput. unput.offer ≡ offer) }
    ensures err { OnErr result (Turned member.now member_seat.old member_seat.new []) }
{
    let mut ring = member.lock.enter(rt, &mut member_seat.seat);
    let tried = ring.producer.try_put(offer);
    member.lock.leave(&mut member_seat.seat, ring);
    tried
}

/// Keeps a packet at a member, or drops it if the ring has no room for it and the next block is
/// still the reader's; an open block is then retired, and the ring is frozen. The seat is as for
/// `try_turn`.
///
/// `Unput` means that an allocation failed: the turn added no note, and the offer comes back.
pub fn put_turn<R: Wait>(
    rt: &R,
    member: &Member,
    member_seat: &mut MemberSeat,
    offer: Offer,
) -> Result<Put, Unput>
    requires ready { IsReady member.now offer.frame.cpu member_seat.old }
    requires cpu { offer.frame.cpu < member.now.base.cpus }
    requires few { member_seat.old.entered < 2 ^ 32 }
    requires room { 82 + offer.snap ≤ room_of member.now.base.shape }
    requires sound { IsWritable offer }
    ensures put { IfOk result (IsPutTurn member.now member_seat.old member_seat.new offer) }
    ensures unput { IfErr result (λ unput. unput.offer ≡ offer) }
    ensures err { OnErr result (Turned member.now member_seat.old member_seat.new []) }
{
    let mut ring = member.lock.enter(rt, &mut member_seat.seat);
    let put = ring.producer.put(offer);
    member.lock.leave(&mut member_seat.seat, ring);
    put
}

/// Brings a member's clock forward to a moment, in milliseconds, which isn't before the last one
/// that this seat reported. It waits for the turn of the seat, which is the timer's and has entered
/// fewer than 2^32 times.
///
/// After `Memory` the turn added no note.
pub fn tick_turn<R: Wait>(
    rt: &R,
    member: &Member,
    member_seat: &mut MemberSeat,
    ms: u64,
) -> Result<(), Memory>
    requires ready { IsReady member.now member.now.base.cpus member_seat.old }
    requires few { member_seat.old.entered < 2 ^ 32 }
    requires later { moment_of (own_of member.now member_seat.old) ≤ ms }
    requires small { ms ≤ 2 ^ 63 }
    ensures ticked { OnOk result (IsTickTurn member.now member_seat.old member_seat.new ms) }
    ensures err { OnErr result (Turned member.now member_seat.old member_seat.new []) }
{
    let mut ring = member.lock.enter(rt, &mut member_seat.seat);
    let ticked = ring.producer.tick(ms);
    member.lock.leave(&mut member_seat.seat, ring);
    match ticked {
        Ok(()) => Ok(()),
        Err(TickError::Memory) => Err(Memory),
        Err(TickError::Backwards(_)) => unreachable!(),
    }
}
