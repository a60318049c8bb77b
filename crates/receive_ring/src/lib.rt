//! The replay report as a definition, and what a replay asks of its rings: a receive ring on one
//! thread, of whatever layout. Frames go in at one end, and its reader takes blocks or slots out at
//! the other.
#![tactic(auto)]

mod block_rings;
mod laws;
mod receive_rings;
mod slot_rings;

pub use laws::{a_replay_reports_a_group, each_frame_of_a_replay_appears_exactly_once};
pub use receive_rings::ReceiveRing;
