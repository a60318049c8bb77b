//! Which ring loses nothing: the least number of blocks with which a ring never freezes, in one
//! pass over what happens to it.
#![tactic(auto)]

mod courses;
mod events;
mod extremes;
mod laws;
mod measures;
mod orders;
mod paces;
mod phase_losses;
mod phases;
mod sizes;
mod threads;
mod timed;
mod timed_courses;
mod tries;

pub use courses::{Course, losses};
pub use events::Event;
pub use extremes::{Extremes, extremes_of_all};
pub use laws::{
    a_course_counts_what_the_ring_counts, a_pass_tells_the_least_ring,
    a_ring_never_freezes_where_it_counts_no_freeze, a_step_is_counted_after_its_moment,
    a_tick_is_counted_from_its_moment_on, as_many_reads_as_blocks_read_all,
    events_stay_in_order_where_no_tick_passes_any,
};
pub use measures::Measure;
pub use paces::{Arrival, ArrivalList, StallTime, Timing};
pub use phase_losses::{DropRange, losses_of_all};
pub use phases::least_of_all;
pub use sizes::{Pass, least};
pub use timed::{least_at, timed_pass};
pub use timed_courses::losses_at;
pub use tries::{Reached, Trial, Tries};
