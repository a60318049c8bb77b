//! The replay over rings of slots (TPACKET_V2): each frame travels as bytes in a slot of its own,
//! from which its reader reads it.
#![tactic(auto)]

mod runs;

pub use runs::replay_v2;
