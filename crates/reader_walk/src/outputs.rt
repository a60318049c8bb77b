//! What a reader has read.

use crate::Dump;
use frame_view::Packets;

/// What a reader has read of all its blocks.
#[derive(Debug, Drop)]
pub struct Outputs {
    /// The packets, in order.
    pub walked: Packets,
    /// The texts of the blocks one after another, if the reader was asked to keep them.
    pub dump: Dump,
    /// The number of blocks.
    pub blocks: u64,
}
