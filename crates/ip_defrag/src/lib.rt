//! Reassembly of IPv4 fragments (RFC 791), frame by frame.
#![tactic(auto)]

mod datagrams;
mod defrag;
mod extents;
mod fragments;
mod laws;
mod marks;
mod names;
mod passes;
mod reassembly;
mod rules;
mod steps;
mod wholes;

pub use defrag::Defrag;
pub use laws::{each_byte_is_its_fragments, no_frame_is_lost};
pub use reassembly::reassemble;
pub use steps::{NoPush, Step};
