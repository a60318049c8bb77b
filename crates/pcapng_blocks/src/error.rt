//! What can be wrong with the blocks of a capture.

/// What is wrong with the blocks of a capture, each place counted in bytes from the capture's
/// start.
#[derive(Clone, Copy, Debug, PartialEq, Eq)]
pub enum BlockError {
    /// A section header's byte-order magic isn't 0x1a2b3c4d in either byte order.
    BadMagic,
    /// A section header's major version isn't 1.
    BadVersion,
    /// An interface's link type isn't Ethernet; the link type.
    BadLink(u32),
    /// A length that the block must not have; the place of the block.
    BadLength(u64),
    /// A packet names an interface that its section doesn't have; the place of its block.
    BadInterface(u64),
    /// The capture ends within a block; the place of the block.
    Truncated(u64),
    /// The capture has more than 33,554,432 bytes.
    TooLarge,
}
