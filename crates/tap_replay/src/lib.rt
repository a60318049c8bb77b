//! The replay over rings of blocks: each frame travels as bytes in a block, from which its reader
//! reads it.
#![tactic(auto)]

mod runs;

pub use runs::replay;
