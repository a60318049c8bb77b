//! What an end of a ring between two threads knows, how that is split in two and joined again.
ghost use Rattle.ring_words.specs.Knowledge.{left_to_feed, left_to_walk, nothing_known, together};

use atomic_table::{Join, Split};
use std::collections::LinkedList;

/// What an end knows. It is only for contracts and proofs: no value of it is made.
pub struct Known {
    /// Whether it is the feeder's end.
    pub feeds: bool,
    /// Whether it is the reader's end. One end is both until the ring is made, and again once it is
    /// finished.
    pub walks: bool,
    /// What all blocks of the ring have in common, as numbers.
    pub kind: LinkedList<u64>,
    /// How many blocks the feeder was given.
    pub given: u64,
    /// The contents and statuses of the blocks that it retired, by number.
    pub retired: LinkedList<(LinkedList<u64>, u32)>,
    /// How many looks the reader had made when each of them was retired, by number.
    pub shown_at: LinkedList<u64>,
    /// The words that its looks found, in order.
    pub looks: LinkedList<u64>,
    /// The contents and statuses of the blocks that the reader took, by number.
    pub taken: LinkedList<(LinkedList<u64>, u32)>,
    /// The words that it stored at the places of those that it released, by number.
    pub marks: LinkedList<u64>,
    /// How many looks the feeder had made when each of them was released, by number.
    pub freed_at: LinkedList<u64>,
    /// The words that its looks found, in order.
    pub visits: LinkedList<u64>,
}

/// How what is known is split: the feeder's end keeps one half, the reader's end begins with the
/// other.
pub(crate) struct Apart;

impl Split<Known> for Apart {
    ghost left = { left_to_feed };

    ghost right = { left_to_walk };
}

/// How what the feeder's end knows and what the reader's end knows are joined.
pub(crate) struct Together;

impl Join<Known> for Together {
    ghost both = { together };

    ghost spent = { nothing_known };
}
