//! What no turn changes of a member's ring.
use std::collections::LinkedList;
use tp_layout::RingRequest;

/// What no turn changes of a member's ring. No value of this type is made: only contracts speak of
/// it.
pub struct RingBase {
    /// The shape of its blocks.
    pub shape: RingRequest,
    /// How many CPUs put frames into it.
    pub cpus: u64,
    /// The id of the table of its words, as numbers.
    pub table: LinkedList<u64>,
}
