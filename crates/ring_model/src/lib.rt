//! The notes of a receive ring, what they speak of, and the definitions of the ring; and what a
//! ring has to know of its blocks.
#![tactic(auto)]

mod content;
mod laws;
mod notes;
mod packet_notes;
mod sizes;
mod tally;

pub use content::Content;
pub use laws::{
    a_block_noted_as_held_is_unreleased, a_ring_with_blocks_left_drops_nothing, puts_may_follow,
    statistics_count_each_packet, the_clock_is_that_of_the_last_tick, ticks_may_follow,
    tries_may_follow,
};
pub use notes::{Found, Note, Notes, Offer, Put, Stats, Tried, Unput};
pub use packet_notes::{noted_drop, noted_put, noted_try};
pub use sizes::{PACKET_HEADER, due, need};
pub use tally::{StatsList, Tally, tally_notes};
