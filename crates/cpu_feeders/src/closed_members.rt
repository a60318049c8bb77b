//! The members of a run and their readers after the joins.
ghost use Rattle.std.specs.Prelude.{◌≡◌, ◌+◌, ◌≤◌, ◌<◌, ◌^◌, ◌++◌, length, map, IfOk, OnOk};
ghost use Rattle.cpu_feeders.specs.inside.Closings.{AllAtEnd, AllClosedWith, AreAtEnd};
ghost use Rattle.cpu_feeders.specs.inside.Closings.{IsClosedWith};
ghost use Rattle.cpu_feeders.specs.Walks.{taken_of};
ghost use Rattle.member_turns.specs.Closings.{contents_of};
ghost use Rattle.tp_layout.specs.Requests.{numbers_of};

use crate::list_ends::first_of;
use crate::member_seats::SeatList;
use crate::walker::ReaderThread;
use fanout_group::DealerSeat;
use frame_view::Memory;
use member_turns::{Member, MemberSeat, close_member};
use reader_walk::Taker;
use ring_model::Notes;
use ring_words::Pending;
use std::alloc::Global;
use std::collections::VecDeque;
use tp_layout::Block;

/// What is left of a member and of its reader.
#[derive(Drop)]
pub(crate) struct Closed<T: Taker + Drop> {
    /// The notes of its ring.
    pub(crate) notes: Notes,
    /// Its taker, which has read all blocks that were retired.
    pub(crate) taker: T,
    /// Its ring, as it was finished.
    pub(crate) ring: Pending<Block>,
    /// The reader's seat at the dealer.
    pub(crate) seat: DealerSeat,
}

/// Hands a taker the blocks that its reader left, by number.
fn read_pending<T: Taker>(taker: &mut T, pending: &Pending<Block>) -> Result<(), Memory>
    requires kind { pending.now.kind ≡ numbers_of (T.base taker.old).shape }
    requires few { length (T.taken taker.old) + length pending.now.blocks < 2 ^ 40 }
    ensures base { T.base taker.new ≡ T.base taker.old }
    ensures read { OnOk result (T.taken taker.new ≡ T.taken taker.old
        ++ taken_of (T.base taker.old) (contents_of pending.now.blocks)) }
{
    for at in 0..pending.len() {
        match pending.get(at) {
            Some((block, _)) => taker.block(block)?,
            None => unreachable!(),
        }
    }
    Ok(())
}

/// Closes a member, and hands its taker the blocks that are left.
fn close_one<T: Taker + Drop>(
    alloc: Global,
    member: Member,
    member_seats: Vec<MemberSeat>,
    walker: ReaderThread<T>,
) -> Result<Closed<T>, Memory>
    requires { AreAtEnd T.base T.taken member member_seats.items walker }
    ensures { IfOk result (λ closed.
        IsClosedWith T.base T.taken member member_seats.items walker closed) }
{
    let mut taker = walker.taker;
    let closed = close_member(alloc, member, member_seats, walker.end)?;
    read_pending(&mut taker, &closed.pending)?;
    Ok(Closed {
        notes: closed.notes,
        taker,
        ring: closed.pending,
        seat: walker.seat,
    })
}

/// Closes all members.
pub(crate) fn close_group<T: Taker + Drop>(
    alloc: Global,
    members: Vec<Member>,
    member_seats: Vec<SeatList>,
    walkers: Vec<ReaderThread<T>>,
) -> Result<Vec<Closed<T>>, Memory>
    requires { AllAtEnd T.base T.taken members.items member_seats.items walkers.items }
    ensures { IfOk result (λ closed.
        AllClosedWith T.base T.taken members.items member_seats.items walkers.items closed.items) }
{
    let mut members = VecDeque::from(members);
    let mut member_seats = VecDeque::from(member_seats);
    let mut all = Vec::with_capacity(alloc, walkers.len())?;
    for walker in walkers {
        let member = first_of(&mut members);
        let list = first_of(&mut member_seats);
        all.push(close_one(alloc, member, list.into_vec(), walker)?)?;
    }
    Ok(all)
}
