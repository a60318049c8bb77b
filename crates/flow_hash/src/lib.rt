//! The hash of a flow: the Toeplitz hash of receive side scaling over the two ends of a frame's IP
//! header.
#![tactic(auto)]

mod flows;
mod hash_keys;
mod key_table;
mod toeplitz_hash;

pub use flows::flow_hash;
pub use hash_keys::{Key, KeyError};
pub use toeplitz_hash::toeplitz;
