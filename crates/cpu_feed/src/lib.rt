//! A CPU of a run: its source, read a piece at a time, the frames of the last piece that wait, and
//! its receive path.
#![tactic(auto)]

mod arrival_rules;
mod closed_cpus;
mod feed;

pub use arrival_rules::rules_at;
pub use closed_cpus::{ClosedCpus, close_cpus};
pub use feed::CpuFeed;
