//! A member and the seats at it.
use crate::MemberRing;
use std::marker::Model;
use turn_lock::{TurnLock, TurnSeat};

/// A member of a group, whose ring its seats take in turns. Contracts see its lock: which it is,
/// what no turn changes of the ring, and the number of seats.
#[derive(Drop)]
pub struct Member {
    /// The lock over the ring, which had no notes at first.
    pub(crate) lock: TurnLock<MemberRing>,
}

impl Model for Member {
    ghost use Rattle.std.specs.Prelude.{◌≡◌, []};
    ghost use Rattle.member_turns.specs.Seats.{Lock};

    ghost Value = { Lock };

    ghost view = { λ member. member.lock };

    ghost invariant = { λ member. member.lock.first ≡ [] };
}

/// A seat at a member. Seat C is that of CPU C, and the one after those of all CPUs is the timer's.
/// Contracts see its lock, its number, how often it entered, and the notes that were stored when it
/// left the last time.
#[derive(Drop)]
pub struct MemberSeat {
    /// The seat at the member's lock.
    pub(crate) seat: TurnSeat<MemberRing>,
}

impl Model for MemberSeat {
    ghost use Rattle.member_turns.specs.Seats.{Seat};

    ghost Value = { Seat };

    ghost view = { λ member_seat. member_seat.seat };
}
