//! What is handed over.

use frame_view::ByteList;
use tp_layout::Shape;

/// A retired block for a decoder: its text, and where its packets belong.
#[derive(Debug, Drop)]
pub struct Work {
    /// The number of the block's member, from 0.
    pub member: u32,
    /// Which of the member's blocks it is, from 1.
    pub number: u64,
    /// The shape of the block.
    pub shape: Shape,
    /// All bytes of the block up to its end.
    pub text: ByteList,
}

/// A work that wasn't put into a queue, because an allocation failed.
#[derive(Debug, Drop)]
pub struct Unhanded {
    /// The work, as it was given.
    pub work: Work,
}
