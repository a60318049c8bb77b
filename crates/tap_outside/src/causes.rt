//! Why a call to the outside fails.
ghost use Rattle.std.specs.Prelude.{◌≡◌, ◌↔◌, codes, Some};
ghost use Rattle.std.specs.IoError.{error_kind};
ghost use Rattle.std.specs.declared.io.ErrorKind.TheVariants.{OutOfMemory};
ghost use Rattle.tap_outside.specs.Words.{cause_words};
ghost use Rattle.tap_outside.specs.declared.causes.OutError.TheVariants.{Failed, Memory};

use std::alloc::{AllocError, AllocFailed};
use std::error::Error;
use std::{fmt, io};

/// The outside failed: a read, a write, a fetch or a save went wrong, and its object counted a
/// fault.
#[derive(Clone, Copy, Debug, PartialEq, Eq)]
pub struct Failed;

/// Why a call that allocates memory itself didn't do its work.
#[derive(Clone, Copy, Debug, PartialEq, Eq)]
pub enum OutError {
    /// The outside failed, and its object counted a fault.
    Failed,
    /// An allocation failed. Nothing has changed.
    Memory,
}

impl fmt::Display for Failed {
    ghost output = { λ _. Some (codes "input or output failed") };

    fn fmt<W: fmt::Write>(&self, f: &mut fmt::Formatter<W>) -> fmt::Result {
        f.write_str("input or output failed")
    }
}

impl Error for Failed {}

impl fmt::Display for OutError {
    ghost output = { λ error. Some (cause_words error) };

    fn fmt<W: fmt::Write>(&self, f: &mut fmt::Formatter<W>) -> fmt::Result {
        match self {
            OutError::Failed => f.write_str("input or output failed"),
            OutError::Memory => f.write_str("out of memory"),
        }
    }
}

impl Error for OutError {}

impl From<Failed> for OutError {
    ghost from_gives = { λ _ e. e ≡ Failed };

    fn from(_: Failed) -> OutError {
        OutError::Failed
    }
}

impl From<frame_view::Memory> for OutError {
    ghost from_gives = { λ _ e. e ≡ Memory };

    fn from(_: frame_view::Memory) -> OutError {
        OutError::Memory
    }
}

impl From<AllocError> for OutError {
    ghost from_gives = { λ _ e. e ≡ Memory };

    fn from(_: AllocError) -> OutError {
        OutError::Memory
    }
}

impl<T: Drop> From<AllocFailed<T>> for OutError {
    ghost from_gives = { λ _ e. e ≡ Memory };

    fn from(_: AllocFailed<T>) -> OutError {
        OutError::Memory
    }
}

impl From<io::Error> for OutError {
    ghost from_gives = { λ error e. (e ≡ Memory) ↔ (error_kind error ≡ OutOfMemory) };

    /// Out of memory if the system reports that, otherwise a fault. The caller that passes it on as
    /// a fault counts it.
    fn from(error: io::Error) -> OutError {
        match error.kind() {
            io::ErrorKind::OutOfMemory => OutError::Memory,
            _ => OutError::Failed,
        }
    }
}
