//! Whole runs as texts: each scenario is read, carried out and compared with what it says.
#![tactic(auto)]

mod captures;
mod cases;
mod comparison;
mod expected;
mod files;
mod gates;
mod reports;
mod runs;
mod saved;
mod scripted;
mod sweeps;
mod texts;

pub use captures::push_fields;
pub use runs::{Answer, answer_of, outcome_on_threads};
pub use texts::{Counted, Ways, carry_out_text};
