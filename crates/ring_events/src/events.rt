//! What happens to a ring and its reader.
use ring_model::Offer;

/// One thing that happens to a ring or its reader.
#[derive(Debug, Drop)]
pub enum Happening {
    /// A packet comes, and is kept or dropped.
    Put(Offer),
    /// A packet comes, and is kept or handed back.
    Try(Offer),
    /// The clock comes to a moment, in milliseconds.
    Tick(u64),
    /// The reader reads a block, if one is retired and not yet released.
    Read,
    /// The reader reads all blocks that are retired and not yet released.
    ReadAll,
    /// The statistics are taken, and start anew.
    Count,
}
