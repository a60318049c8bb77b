//! What the rings of a run are made of.

/// What the rings of a run are made of.
#[derive(Clone, Copy, Debug, PartialEq, Eq)]
pub enum RingKind {
    /// Blocks, as TPACKET_V3 has them.
    Blocks,
    /// Slots, as TPACKET_V2 has them. Such a ring never freezes.
    Slots,
}
