//! Why a filter is refused.
ghost use Rattle.std.specs.Prelude.{◌≡◌, Some};
ghost use Rattle.bpf_filter.specs.Words.{word_of};
ghost use Rattle.bpf_filter.specs.declared.error.FilterError.TheVariants.{Memory};

use std::alloc::{AllocError, AllocFailed};
use std::error::Error;
use std::fmt;

/// Why a text or a program is refused. Of several faults the first one is reported: all of the
/// text's come before all of the program's.
#[derive(Clone, Copy, Debug, PartialEq, Eq)]
pub enum FilterError {
    /// A line of the text of a wrong form, with its number from 1.
    BadLine(u32),
    /// The number of instructions is out of range, or isn't the one in the text's first line.
    BadCount,
    /// An instruction whose code isn't known, with its number from 0.
    BadCode(u32),
    /// A jump past the last instruction, with the jump's number from 0.
    BadJump(u32),
    /// A division by the constant 0, or a shift by a constant of 32 or more, with the instruction's
    /// number from 0.
    BadConstant(u32),
    /// A memory word that doesn't exist, with the instruction's number from 0.
    BadMemory(u32),
    /// A program without an instruction, or whose last one isn't a return.
    NoReturn,
    /// A place that is neither in the packet nor that of an ancillary number, with the
    /// instruction's number from 0.
    BadAncillary(u32),
    /// Out of memory.
    Memory,
    /// A text of more than 1,048,576 bytes.
    TooLarge,
}

impl FilterError {
    /// The word for the fault, as the program prints it.
    pub fn word(&self) -> &'static str
        ensures { result.now ≡ word_of self.now }
    {
        match self {
            FilterError::BadLine(_) => "bad_line",
            FilterError::BadCount => "bad_count",
            FilterError::BadCode(_) => "bad_code",
            FilterError::BadJump(_) => "bad_jump",
            FilterError::BadConstant(_) => "bad_constant",
            FilterError::BadMemory(_) => "bad_memory",
            FilterError::NoReturn => "no_return",
            FilterError::BadAncillary(_) => "bad_ancillary",
            FilterError::Memory => "memory",
            FilterError::TooLarge => "too_large",
        }
    }
}

impl fmt::Display for FilterError {
    ghost output = { λ error. Some (word_of error) };

    fn fmt<W: fmt::Write>(&self, f: &mut fmt::Formatter<W>) -> fmt::Result {
        f.write_str(self.word())
    }
}

impl Error for FilterError {}

impl From<AllocError> for FilterError {
    ghost from_gives = { λ _ e. e ≡ Memory };

    fn from(_: AllocError) -> FilterError {
        FilterError::Memory
    }
}

impl<T: Drop> From<AllocFailed<T>> for FilterError {
    ghost from_gives = { λ _ e. e ≡ Memory };

    fn from(_: AllocFailed<T>) -> FilterError {
        FilterError::Memory
    }
}
