//! A large valid input from a number: the captures of some CPUs over the frames of a seed, and the
//! schedule that replays them.
#![tactic(auto)]

mod captures;
mod dealt_frames;
mod laws;
mod schedules;

pub use captures::made_sources;
pub use laws::{
    a_made_capture_is_whole, a_made_schedule_has_few_lines, a_made_schedule_has_no_ticks,
};
pub use schedules::made_schedule;
