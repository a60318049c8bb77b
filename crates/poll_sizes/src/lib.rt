//! Which ring loses nothing, and what one loses, where its reader wakes some time after a block is
//! handed over: when it reads depends on the ring.
#![tactic(auto)]

mod laws;
mod phases;
mod polled_courses;
mod polled_passes;
mod polls;

pub use laws::{a_pass_tells_the_least_polled_ring, a_wake_is_the_first_moment_in_no_stall};
pub use phases::{least_polled_of_all, polled_losses_of_all};
pub use polled_courses::polled_losses;
pub use polled_passes::least_polled;
pub use polls::PollTiming;
