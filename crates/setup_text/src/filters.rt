//! The filter of a run.
ghost use Rattle.std.specs.Prelude.{◌≡◌, ◌+◌, ◌<◌, ◌^◌};
ghost use Rattle.setup_text.specs.Answers.{IsOnlyWant, IsRight, filter_memory, is_text_want};
ghost use Rattle.setup_text.specs.FilterFaults.{line_of, place_of};
ghost use Rattle.setup_text.specs.Filters.{filter_fault, filter_of};

use crate::{TextError, TextKind, Which};
use bpf_filter::{FilterError, Program, read_ddd};
use std::alloc::Global;

/// Reads the program of a filter from a text as `tcpdump -ddd` writes it.
///
/// A fault has the line of the instruction that it is in, the first line for a wrong number of
/// instructions, the last instruction's for a missing return, and 0 for a text of more than
/// 1,048,576 bytes. All faults of the text come before those of the program. `Memory` of
/// `FilterError`, an allocation that failed, has line 0.
pub fn read_filter(alloc: Global, text: &[u8]) -> Result<Program, TextError>
    ensures right { IsRight is_text_want result (filter_of text.now) }
    ensures memory { IsOnlyWant is_text_want filter_memory result }
{
    let code = match read_ddd(alloc, text) {
        Ok(code) => code,
        Err(error) => return Err(fault(error, 0)),
    };
    let instructions = code.len();
    match Program::check(alloc, code) {
        Ok(program) => Ok(program),
        Err(error) => Err(fault(error, instructions as u32)),
    }
}

/// The fault of a filter whose text has `instructions` instructions.
fn fault(error: FilterError, instructions: u32) -> TextError
    requires few { instructions + 1 < 2 ^ 32 }
    requires place { place_of error + 2 < 2 ^ 32 }
    ensures { result ≡ filter_fault instructions error }
{
    let line = match error {
        FilterError::BadLine(line) => line,
        FilterError::BadCount => 1,
        FilterError::BadCode(at)
        | FilterError::BadJump(at)
        | FilterError::BadConstant(at)
        | FilterError::BadMemory(at)
        | FilterError::BadAncillary(at) => at + 2,
        FilterError::NoReturn => instructions + 1,
        FilterError::Memory | FilterError::TooLarge => 0,
    };
    TextError {
        which: Which::Filter,
        line,
        kind: TextKind::Filter(error),
    }
}
