//! Why a tick isn't done.
ghost use Rattle.std.specs.Prelude.{◌≡◌, Some};
ghost use Rattle.block_ring.specs.TickErrors.{tick_words};

use frame_view::Memory;
use std::error::Error;
use std::fmt;

/// Why a tick isn't done. The ring is then as it was.
#[derive(Clone, Copy, Debug, PartialEq, Eq)]
pub enum TickError {
    /// The moment is before that of the last tick, which is given here, in milliseconds.
    Backwards(u64),
    /// An allocation failed.
    Memory,
}

impl fmt::Display for TickError {
    ghost output = { λ error. Some (tick_words error) };

    fn fmt<W: fmt::Write>(&self, f: &mut fmt::Formatter<W>) -> fmt::Result {
        match self {
            TickError::Backwards(clock) => write!(f, "the clock stands at {clock} already"),
            TickError::Memory => write!(f, "out of memory"),
        }
    }
}

impl Error for TickError {}

impl From<Memory> for TickError {
    ghost use Rattle.block_ring.specs.declared.error.TickError.TheVariants as errors;

    ghost from_gives = { λ _ error. error ≡ errors.Memory };

    fn from(_: Memory) -> TickError {
        TickError::Memory
    }
}
