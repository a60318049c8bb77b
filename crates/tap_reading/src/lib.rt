//! The texts of a command, read from a store piece by piece and parsed.
#![tactic(auto)]

mod laws;
mod loads;
mod stops;
mod texts;

pub use laws::{the_first_fault_of_a_schedule_answers, the_first_fault_of_ticks_answers};
pub use loads::{load_filter, load_schedule, load_setup, load_ticks};
pub use stops::LoadError;
pub use texts::{Unread, read_text};
