//! What the program does.
ghost use Rattle.std.specs.Prelude.{◌≡◌};
ghost use Rattle.tap_sizes.specs.SizeNumbers.{number_of};

use std::env::Env;
use std::process::ExitCode;
use std::rt::Files;
use std::thread::Threads;
use tap_outside::{DiskStore, History, StdSink};
use tap_running::{print_memory, words};
use tap_sizes::{SizeOutcome, SizeStatus, run_size};

/// Answers the two texts given by the program's arguments, over real files and standard output, and
/// returns the program's exit status.
pub(crate) fn run_program<R>(rt: &R) -> ExitCode
where
    R: Env + Files + Print + AllocGlobal + Threads + Sync,
    R::File: Send,
{
    let Ok(words) = words(rt, rt.alloc(), &mut History::new()) else {
        // Printed as `run_size` prints it: once, if standard output takes it.
        print_memory(&mut StdSink::new(rt));
        return ExitCode::from(SizeStatus::Memory.number());
    };
    let mut store = DiskStore::new(rt);
    let mut out = StdSink::new(rt);
    let outcome = run_size(rt, rt.alloc(), words.as_slice(), &mut store, &mut out);
    ExitCode::from(code_of(&outcome))
}

/// The number with which the program ends.
fn code_of(outcome: &SizeOutcome) -> u8
    ensures { result ≡ number_of outcome.now.status }
{
    outcome.status.number()
}
