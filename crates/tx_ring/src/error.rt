//! Why a frame isn't placed, and why no more frames are sent.
ghost use Rattle.std.specs.Prelude.{Some};
ghost use Rattle.tx_ring.specs.Words.{place_words, send_words};

use frame_view::Memory;
use std::error::Error;
use std::fmt;

/// Why a frame isn't placed. The tests are made in this order, and the first that fails is
/// reported.
#[derive(Clone, Copy, Debug, PartialEq, Eq)]
pub enum TxError {
    /// There are more bytes than fit after a slot's header.
    TooLong,
    /// The ring stopped at this slot.
    Stopped(u32),
    /// All slots are requested.
    Full,
}

/// Why no more frames are sent.
#[derive(Clone, Copy, Debug, PartialEq, Eq)]
pub enum SendError {
    /// The request in the slot of this number can't be sent, and the ring stopped there.
    BadSlot(u32),
    /// An allocation failed.
    Memory,
}

impl fmt::Display for TxError {
    ghost output = { λ error. Some (place_words error) };

    fn fmt<W: fmt::Write>(&self, f: &mut fmt::Formatter<W>) -> fmt::Result {
        match self {
            TxError::TooLong => write!(f, "too long for a slot"),
            TxError::Stopped(slot) => write!(f, "stopped at slot {slot}"),
            TxError::Full => write!(f, "all slots are requested"),
        }
    }
}

impl Error for TxError {}

impl fmt::Display for SendError {
    ghost output = { λ error. Some (send_words error) };

    fn fmt<W: fmt::Write>(&self, f: &mut fmt::Formatter<W>) -> fmt::Result {
        match self {
            SendError::BadSlot(slot) => write!(f, "bad slot {slot}"),
            SendError::Memory => write!(f, "out of memory"),
        }
    }
}

impl Error for SendError {}

impl From<Memory> for SendError {
    ghost use Rattle.std.specs.Prelude.{◌≡◌};
    ghost use Rattle.tx_ring.specs.declared.error.SendError.TheVariants as errors;

    ghost from_gives = { λ _ error. error ≡ errors.Memory };

    fn from(_: Memory) -> SendError {
        SendError::Memory
    }
}
