//! A run with threads: feeders, a timer and readers.
#![tactic(auto)]

mod closed_members;
mod ended_workers;
mod feeder;
mod fresh_workers;
mod gate;
mod list_ends;
mod member_seats;
mod open_groups;
mod report;
mod run_threads;
mod shared;
mod takers;
mod timer;
mod turn_group;
mod walker;
mod worker;
mod worker_kinds;
mod workers;

pub use gate::{Gate, NoGate, Point};
pub use report::report_run;
pub use takers::{Workers, run_takers};
pub use workers::run_workers;
