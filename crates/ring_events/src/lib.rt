//! What happens to one ring and its reader, one after another.
#![tactic(auto)]

mod events;

pub use events::Happening;
