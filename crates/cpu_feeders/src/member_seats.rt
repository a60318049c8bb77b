//! The seats at the members of a run: each member has one for each user, and each user has one at
//! each member.
ghost use Rattle.std.specs.Prelude.{◌≡◌, [], length, replicate, IfOk, OnOk};
ghost use Rattle.cpu_feeders.specs.inside.MemberSeats.{with_each};

use frame_view::{ItemList, Memory};
use member_turns::MemberSeat;
use std::alloc::Global;

/// Seats at members, in order.
pub(crate) type SeatList = ItemList<MemberSeat>;

/// `count` empty lists.
pub(crate) fn empty_lists(alloc: Global, count: usize) -> Result<Vec<SeatList>, Memory>
    ensures { IfOk result (λ lists. lists.items ≡ replicate count []) }
{
    let mut lists = Vec::with_capacity(alloc, count)?;
    for _list in 0..count {
        lists.push(SeatList::new(alloc))?;
    }
    Ok(lists)
}

/// Puts one seat at the end of each list.
pub(crate) fn add_to_each(
    lists: &mut Vec<SeatList>,
    member_seats: Vec<MemberSeat>,
) -> Result<(), Memory>
    requires count { length member_seats.items ≡ length lists.old.items }
    ensures { OnOk result (lists.new.items ≡ with_each lists.old.items member_seats.items) }
{
    let mut at = 0;
    for member_seat in member_seats {
        lists[at].push(member_seat)?;
        at += 1;
    }
    Ok(())
}
