//! The top calls.
ghost use Rattle.std.specs.Prelude.{◌≡◌, ◌≢◌, ◌≤◌, ◌+◌, None, Option, IfOk, IsTrue, OnErr};
ghost use Rattle.std.specs.List.{AllByRecursion};
ghost use Rattle.tap_outside.specs.Seen.{StoreSeen};
ghost use Rattle.tap_engine.specs.inside.Answers.{IsAnswer};
ghost use Rattle.tap_engine.specs.Commands.{Named, command_of, plain_command};
ghost use Rattle.tap_engine.specs.Complete.{IsComplete};
ghost use Rattle.tap_engine.specs.Conclusions.{GivesUp, IsSearched, IsStopped, Tells};
ghost use Rattle.tap_running.specs.Prints.{IsLastLine};
ghost use Rattle.tap_engine.specs.Faults.{IsFaultless};
ghost use Rattle.tap_engine.specs.Findings.{IsReady, names_of};
ghost use Rattle.tap_engine.specs.Headline.{IsWorth};
ghost use Rattle.tap_engine.specs.InnerErrors.{HoldsNoMemory};
ghost use Rattle.tap_engine.specs.Names.{AreMeantToRead, AreMeantToSave};

use crate::command_runs::{find, find_plain};
use crate::conclusion::conclude;
use crate::findings::CommandResult;
use crate::{Outcome, Status};
use cpu_feeders::Gate;
use frame_view::Memory;
use std::alloc::Global;
use std::sync::Wait;
use std::thread::Threads;
use tap_outside::{Sink, Store, Word};
use tap_running::print_memory;

/// Carries out a command over a store and a sink.
///
/// - `capture CONF` reads the setup, and the filter and the moments that it names, and feeds the
///   captures of the setup on threads: a feeder for each capture, a reader for each member, and a
///   timer that reports the moments to the members. The threads call the gate at its points. The
///   call may wait; its promises hold when it returns.
/// - `forward CONF` does the same, and each reader sends the packets that it reads through a
///   transmit ring of its own. What a member sent is saved as a capture file after its other files,
///   and the numbers of packets that it sent and skipped are printed after its line.
/// - Every other command is carried out as `run_plain` does.
///
/// Any other words aren't a command. The commands, the texts and the printed lines are this
/// project's own choice; docs/reference.md lists them.
pub fn run<S: Store, O: Sink, G: Gate + Sync, R: Threads + Wait + Sync>(
    rt: &R,
    alloc: Global,
    words: &[Word],
    store: &mut S,
    out: &mut O,
    gate: &G,
) -> Outcome
    // Each file that the command reads is meant for reading, and each that it saves is meant for
    // saving.
    requires reads { AreMeantToRead (command_of words.now) (S.seen store.old) }
    requires saves { AreMeantToSave (command_of words.now) (S.seen store.old) }

    // A report holds each frame that was read and passes the filter once: kept or dropped. What was
    // read of a capture is all that its source gave, also where reading failed.
    ensures headline { IsWorth (command_of words.now) (S.seen store.old) (S.seen store.new)
        result.report }

    // Unless memory ran out: what the command found from what the outside gave, with the status,
    // the report, the lines and the files that follow from it.
    ensures told { result.status ≢ Status.Memory → Tells (command_of words.now) result
        (S.seen store.old) (S.seen store.new) (O.seen out.old) (O.seen out.new) }

    // If memory ran out: there is no report, only files of what was found have changed, and a
    // prefix of its lines was printed, followed by `out of memory`, whole unless a write failed or
    // ran out of memory too.
    ensures gave_up { result.status ≡ Status.Memory → GivesUp (command_of words.now) result
        (S.seen store.old) (S.seen store.new) (O.seen out.old) (O.seen out.new) }

    // No error within the status or the report says that memory ran out.
    ensures no_memory { HoldsNoMemory result }

    // If the store holds a sound command and no count of faults rose, the status is 0, or 7.
    ensures complete { IsComplete (command_of words.now)
        (S.seen store.old) (S.seen store.new) (O.seen out.old) (O.seen out.new) result.status }

    // Conversely, if an exact store or the sink counted a fault the status is 5, 6 or 7.
    ensures faultless { IsFaultless
        (S.seen store.old) (S.seen store.new) (O.seen out.old) (O.seen out.new) result.status }
{
    let found = find(rt, alloc, words, store, gate);
    finish(alloc, found, store, out)
}

/// Carries out a command over a store and a sink, on one thread.
///
/// - `check CONF` reads the setup, and the filter and the moments that it names, and prints `ok`.
/// - `replay CONF SCHED` replays the captures of the setup as the schedule says.
/// - `replay2 CONF SCHED` does the same over rings of TPACKET_V2, whose reader gets one frame at a
///   time.
/// - `make CONF` replays frames that are made from the setup's number, by a schedule of its own,
///   and reads no capture.
/// - `send CONF` sends the capture of CPU 0 through a transmit ring, and returns no report.
///
/// Any other words aren't a command here; that includes `capture CONF` and `forward CONF`, which
/// run on threads. The commands, the texts and the printed lines are this project's own choice;
/// docs/reference.md lists them.
pub fn run_plain<S: Store, O: Sink>(
    alloc: Global,
    words: &[Word],
    store: &mut S,
    out: &mut O,
) -> Outcome
    // Each file that the command reads is meant for reading, and each that it saves is meant for
    // saving.
    requires reads { AreMeantToRead (plain_command words.now) (S.seen store.old) }
    requires saves { AreMeantToSave (plain_command words.now) (S.seen store.old) }

    // A report holds each frame that was read and passes the filter once: kept or dropped. What was
    // read of a capture is all that its source gave, also where reading failed.
    ensures headline { IsWorth (plain_command words.now) (S.seen store.old) (S.seen store.new)
        result.report }

    // Unless memory ran out: what the command found from what the outside gave, with the status,
    // the report, the lines and the files that follow from it.
    ensures told { result.status ≢ Status.Memory → Tells (plain_command words.now) result
        (S.seen store.old) (S.seen store.new) (O.seen out.old) (O.seen out.new) }

    // If memory ran out: there is no report, only files of what was found have changed, and a
    // prefix of its lines was printed, followed by `out of memory`, whole unless a write failed or
    // ran out of memory too.
    ensures gave_up { result.status ≡ Status.Memory → GivesUp (plain_command words.now) result
        (S.seen store.old) (S.seen store.new) (O.seen out.old) (O.seen out.new) }

    // No error within the status or the report says that memory ran out.
    ensures no_memory { HoldsNoMemory result }

    // If the store holds a sound command and no count of faults rose, the status is 0, or 7.
    ensures complete { IsComplete (plain_command words.now)
        (S.seen store.old) (S.seen store.new) (O.seen out.old) (O.seen out.new) result.status }

    // Conversely, if an exact store or the sink counted a fault the status is 5, 6 or 7.
    ensures faultless { IsFaultless
        (S.seen store.old) (S.seen store.new) (O.seen out.old) (O.seen out.new) result.status }
{
    let found = find_plain(alloc, words, store);
    finish(alloc, found, store, out)
}

/// Ends a command: saves and prints what was found, or prints that memory ran out.
fn finish<S: Store, O: Sink>(
    alloc: Global,
    found: Result<CommandResult, Memory>,
    store: &mut S,
    out: &mut O,
) -> Outcome
    requires ready { IfOk found IsReady }
    requires meant { IfOk found (λ finding.
        AllByRecursion (λ name. IsTrue ((S.seen store.old).to_save name)) (names_of finding)) }
    ensures { (command : Option Named) (old : StoreSeen)
        → IsSearched command old (S.seen store.old) found
        → IsAnswer command result old (S.seen store.new) (O.seen out.old) (O.seen out.new) }
{
    match attempt(alloc, found, store, out) {
        Ok(outcome) => outcome,
        Err(_) => give_up(out),
    }
}

/// Saves and prints what was found, as far as memory suffices.
fn attempt<S: Store, O: Sink>(
    alloc: Global,
    found: Result<CommandResult, Memory>,
    store: &mut S,
    out: &mut O,
) -> Result<Outcome, Memory>
    requires ready { IfOk found IsReady }
    requires meant { IfOk found (λ finding.
        AllByRecursion (λ name. IsTrue ((S.seen store.old).to_save name)) (names_of finding)) }
    ensures told { IfOk result (λ outcome. (command : Option Named) (old : StoreSeen)
        → IsSearched command old (S.seen store.old) found
        → Tells command outcome old (S.seen store.new) (O.seen out.old) (O.seen out.new)) }
    ensures cut { OnErr result ((command : Option Named) (old : StoreSeen)
        → IsSearched command old (S.seen store.old) found
        → IsStopped command old (S.seen store.new) (O.seen out.old) (O.seen out.new)) }
{
    let finding = found?;
    conclude(alloc, finding, store, out)
}

/// Prints once that memory ran out, whole unless a write failed or ran out of memory too.
fn give_up<O: Sink>(out: &mut O) -> Outcome
    ensures status { result.status ≡ Status.Memory }
    ensures report { result.report ≡ None }
    ensures line { IsLastLine (O.seen out.old) (O.seen out.old) (O.seen out.new) }
    ensures kept { (O.seen out.old).faults ≤ (O.seen out.new).faults }
    ensures one { (O.seen out.new).faults ≤ (O.seen out.old).faults + 1 }
{
    print_memory(out);
    Outcome {
        status: Status::Memory,
        report: None,
    }
}
