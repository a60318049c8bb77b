//! Lines that are printed, and the one that says that memory ran out.
ghost use Rattle.std.specs.Prelude.{◌≤◌, ◌+◌, IfOk, OnErr};
ghost use Rattle.tap_running.specs.Prints.{IsLastLine, IsPrinted, PrintedSome};

use frame_view::Memory;
use tap_outside::{OutError, Sink, write_whole};

/// Prints lines, and returns whether all were printed.
#[tactic(auto, using(crate::proofs::LastLines::some_printed))]
pub fn print_lines<O: Sink>(out: &mut O, lines: &[u8]) -> Result<bool, Memory>
    ensures told { IfOk result (IsPrinted (O.seen out.old) (O.seen out.new) lines.now) }
    ensures cut { OnErr result (PrintedSome (O.seen out.old) (O.seen out.new) lines.now) }
{
    match write_whole(out, lines) {
        Ok(()) => Ok(true),
        Err(OutError::Failed) => Ok(false),
        Err(OutError::Memory) => Err(Memory),
    }
}

/// Prints once that memory ran out, whole unless a write failed or ran out of memory too.
pub fn print_memory<O: Sink>(out: &mut O)
    ensures line { IsLastLine (O.seen out.old) (O.seen out.old) (O.seen out.new) }
    ensures kept { (O.seen out.old).faults ≤ (O.seen out.new).faults }
    ensures one { (O.seen out.new).faults ≤ (O.seen out.old).faults + 1 }
{
    let _ = write_whole(out, b"out of memory\n");
}
