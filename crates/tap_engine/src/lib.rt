//! The top calls: words, texts, a run, its files and its lines.
#![tactic(auto)]

mod calls;
mod command_runs;
mod commands;
mod conclusion;
mod findings;
mod jobs;
mod laws;
mod outcomes;
mod replay_runs;
mod sent_captures;
mod sources;
mod threaded_runs;

pub use calls::{run, run_plain};
pub use laws::{
    a_ring_that_is_not_filled_dropped_nothing, each_frame_of_a_run_appears_exactly_once,
};
pub use outcomes::{Outcome, Status};
