//! What can be wrong with a capture.
ghost use Rattle.std.specs.Prelude.{◌≡◌};
ghost use Rattle.capture_file.specs.declared.error.CaptureError.TheVariants.{Memory};

use frame_view::Memory;
use pcapng_blocks::BlockError;
use std::alloc::{AllocError, AllocFailed};

/// What is wrong with a capture, each place counted in bytes from its start; or that memory ran
/// out.
#[derive(Clone, Copy, Debug, PartialEq, Eq)]
pub enum CaptureError {
    /// The magic isn't one of pcap's four, or a pcapng section's byte-order magic isn't 0x1a2b3c4d
    /// in either byte order.
    BadMagic,
    /// The version isn't pcap's 2.4, or a pcapng section's major version isn't 1.
    BadVersion,
    /// The link type isn't Ethernet; the whole link field of pcap, or an interface's link type.
    BadLink(u32),
    /// A length that a record or block must not have; the place of that record or block.
    BadLength(u64),
    /// The capture ends within its header, a record or a block; the place where that begins.
    Truncated(u64),
    /// The capture has more than 33,554,432 bytes.
    TooLarge,
    /// An allocation failed. It says nothing about the capture.
    Memory,
    /// A packet names an interface that its section doesn't have; the place of its block.
    BadInterface(u64),
}

impl From<Memory> for CaptureError {
    ghost from_gives = { λ _ e. e ≡ Memory };

    fn from(_: Memory) -> CaptureError {
        CaptureError::Memory
    }
}

impl From<AllocError> for CaptureError {
    ghost from_gives = { λ _ e. e ≡ Memory };

    fn from(_: AllocError) -> CaptureError {
        CaptureError::Memory
    }
}

impl<T: Drop> From<AllocFailed<T>> for CaptureError {
    ghost from_gives = { λ _ e. e ≡ Memory };

    fn from(_: AllocFailed<T>) -> CaptureError {
        CaptureError::Memory
    }
}

impl From<BlockError> for CaptureError {
    ghost use Rattle.capture_file.specs.Capture.{error_from};

    ghost from_gives = { λ fault e. e ≡ error_from fault };

    fn from(fault: BlockError) -> CaptureError {
        match fault {
            BlockError::BadMagic => CaptureError::BadMagic,
            BlockError::BadVersion => CaptureError::BadVersion,
            BlockError::BadLink(link) => CaptureError::BadLink(link),
            BlockError::BadLength(place) => CaptureError::BadLength(place),
            BlockError::BadInterface(place) => CaptureError::BadInterface(place),
            BlockError::Truncated(place) => CaptureError::Truncated(place),
            BlockError::TooLarge => CaptureError::TooLarge,
        }
    }
}
