//! A lock whose users take turns: each waits until no other is in its turn, draws the next ticket,
//! and has the value until it leaves. The value holds what the turns added to it in the order of the
//! tickets, each turn's once.
#![tactic(auto)]

mod backoff;
mod closed_locks;
mod kept;
mod knowledge;
mod laws;
mod new_locks;
mod plays;
mod turn_lock;
mod turn_seat;
mod turns;

pub use backoff::Backoff;
pub use kept::Kept;
pub use knowledge::{Knows, LockSeat, Opening, SeatStage};
pub use laws::{a_turn_adds_to_its_own, own_entries_are_in_last, the_turn_history_holds};
pub use plays::ByTurns;
pub use turn_lock::TurnLock;
pub use turn_seat::TurnSeat;
