//! The members of a group between threads: each one's receive ring under a lock that its users take
//! in turns.
#![tactic(auto)]

mod closed_members;
mod member;
mod member_ring;
mod new_members;
mod ring_base;
mod turns;

pub use closed_members::{ClosedMember, close_member};
pub use member::{Member, MemberSeat};
pub use member_ring::MemberRing;
pub use new_members::open_member;
pub use ring_base::RingBase;
pub use turns::{put_turn, tick_turn, try_turn};
