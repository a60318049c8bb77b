//! A list of what happened, which only contracts read.
#![tactic(auto)]

mod history;

pub use history::History;
