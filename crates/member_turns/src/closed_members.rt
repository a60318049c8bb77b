//! How a member is closed, once all its seats are handed in.
ghost use Rattle.std.specs.Prelude.{◌≡◌, ◌++◌, ◌^◌, ◌<◌, ◌≤◌, false, length, IfOk};
ghost use Rattle.std.specs.List.{AllByRecursion};
ghost use Rattle.block_ring.specs.CallNotes.{held_count, held_numbers};
ghost use Rattle.block_ring.specs.Texts.{AreTexts};
ghost use Rattle.member_turns.specs.Closings.{AreClosedNotes, contents_of};
ghost use Rattle.member_turns.specs.Entries.{table_numbers};
ghost use Rattle.ring_model.specs.Ring.{IsWholeRun, state_of};
ghost use Rattle.tp_layout.specs.Requests.{numbers_of, size_of};
ghost use Rattle.turn_lock.specs.Seats.{IsIdleSeatOf};

use crate::{Member, MemberRing, MemberSeat};
use frame_view::Memory;
use ring_model::Notes;
use ring_words::{Pending, TableWalker, finish};
use std::alloc::Global;
use tp_layout::Block;
use turn_lock::TurnSeat;

/// What is left of a closed member.
#[derive(Drop)]
pub struct ClosedMember {
    /// The notes of its ring, the last of which says that it was closed.
    pub notes: Notes,
    /// The blocks that were retired and that the reader didn't take.
    pub pending: Pending<Block>,
}

/// Closes a member, when all its seats are handed in and its reader has no block in hand. An open
/// block that has packets is retired.
///
/// The notes are those that the seats added, each seat's in its order, followed by the note that
/// the ring was closed. `Pending` has the list of all blocks that were retired; the reader took the
/// first ones, and the pending ones are left.
pub fn close_member(
    alloc: Global,
    member: Member,
    member_seats: Vec<MemberSeat>,
    walker: TableWalker<Block>,
) -> Result<ClosedMember, Memory>
    requires all { length member_seats.items ≡ member.seats }
    requires own { AllByRecursion (IsIdleSeatOf member) member_seats.items }
    requires ring { table_numbers walker.id ≡ member.base.table }
    requires hand { walker.in_hand ≡ false }
    ensures notes { IfOk result (λ closed. AreClosedNotes member member_seats.items closed.notes) }
    ensures run { IfOk result (λ closed. IsWholeRun (size_of member.base.shape) closed.notes) }
    ensures texts { IfOk result (λ closed. AreTexts member.base.shape 1 closed.pending.retired
        (state_of (size_of member.base.shape) closed.notes).done) }
    ensures looks { IfOk result (λ closed. held_count closed.notes ≤ closed.pending.holds) }
    ensures numbers { IfOk result (λ closed. closed.pending.found ≡ held_numbers closed.notes) }
    ensures few { IfOk result (λ closed. length closed.pending.retired < 2 ^ 40) }
    ensures taken { IfOk result (λ closed.
        walker.taken ++ contents_of closed.pending.blocks ≡ closed.pending.retired) }
    ensures passed { IfOk result (λ closed. closed.pending.passed ≡ length walker.taken) }
    ensures kind { IfOk result (λ closed. closed.pending.kind ≡ numbers_of member.base.shape) }
{
    let seats = as_seats(alloc, member_seats)?;
    let ring = member.lock.close(seats);
    let (feeder, notes) = Box::into_inner(ring.producer).finish();
    let pending = finish(alloc, feeder, walker)?;
    Ok(ClosedMember { notes, pending })
}

/// The lock's seat of each of a member's seats.
fn as_seats(
    alloc: Global,
    member_seats: Vec<MemberSeat>,
) -> Result<Vec<TurnSeat<MemberRing>>, Memory>
    ensures { IfOk result (λ seats. seats.items ≡ member_seats.items) }
{
    let mut seats = Vec::with_capacity(alloc, member_seats.len())?;
    for member_seat in member_seats {
        seats.push(member_seat.seat)?;
    }
    Ok(seats)
}
