//! What happens to one ring, as far as its number of blocks matters.

/// One event of a ring.
#[derive(Clone, Copy, Debug, PartialEq, Eq)]
pub enum Event {
    /// A packet comes, which takes this many bytes of a block.
    Packet(u32),
    /// The clock comes to a moment, in milliseconds.
    Tick(u64),
    /// The reader reads a block, if one is retired and not yet released.
    Read,
    /// The reader reads all blocks that are retired and not yet released.
    ReadAll,
}
