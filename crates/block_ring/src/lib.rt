//! The receive ring: frames go into blocks, and full blocks go to the reader.
#![tactic(auto)]

mod error;
mod machine;
mod open_block;
mod producer;
mod walker_end;

pub use error::TickError;
pub use producer::Producer;
