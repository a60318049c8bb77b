//! What the program does.
ghost use Rattle.std.specs.Prelude.{◌≡◌};
ghost use Rattle.tap_engine.specs.Numbers.{number_of};

use cpu_feeders::NoGate;
use std::env::Env;
use std::mem;
use std::process::ExitCode;
use std::rt::Files;
use std::sync::Wait;
use std::thread::Threads;
use tap_engine::{Outcome, Status, run};
use tap_outside::{DiskStore, History, StdSink};
use tap_running::{print_memory, words};

/// Carries out the command given by the program's arguments, over real files and standard output,
/// and returns the program's exit status. A `capture` starts threads and may wait for them.
pub(crate) fn run_program<R>(rt: &R) -> ExitCode
where
    R: Env + Files + Print + AllocGlobal + Threads + Wait + Sync,
    R::File: Send,
{
    let Ok(words) = words(rt, rt.alloc(), &mut History::new()) else {
        // Printed as `run` prints it: once, if standard output takes it.
        print_memory(&mut StdSink::new(rt));
        return ExitCode::from(Status::Memory.number());
    };
    let mut store = DiskStore::new(rt);
    let mut out = StdSink::new(rt);
    let (store, out) = (&mut store, &mut out);
    let outcome = run(rt, rt.alloc(), words.as_slice(), store, out, &NoGate);
    let code = ExitCode::from(code_of(&outcome));
    // The process ends here, and its memory with it: freeing each frame of the report first would
    // be of no use.
    mem::forget(outcome);
    code
}

/// The number with which the program ends.
fn code_of(outcome: &Outcome) -> u8
    ensures { result ≡ number_of outcome.now.status }
{
    outcome.status.number()
}
