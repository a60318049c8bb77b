//! Captures that are read from sources, piece by piece: the buffer, the decoding of a piece, and
//! whole captures.
#![tactic(auto)]

mod buffer;
mod partial_capture;
mod pieces;
mod whole;

pub use buffer::Buffer;
pub use pieces::{Decoded, decode, end_at, ended_by};
pub use whole::{Reading, read_capture};
