//! The end of a command: its files are saved, its lines are printed, and it gets a status.
ghost use Rattle.std.specs.Prelude.{◌≡◌, ◌⊎◌, ◌&&◌, if◌then◌else◌, IfOk, IsTrue, OnErr};
ghost use Rattle.std.specs.List.{AllByRecursion};
ghost use Rattle.tap_saving.specs.Saves.{Saved, SavedSome, Touches};
ghost use Rattle.tap_engine.specs.Conclusions.{Concludes, IsDone, IsFailed};
ghost use Rattle.tap_running.specs.Prints.{IsPrinted, PrintedSome};
ghost use Rattle.tap_engine.specs.Findings.{IsReady, files_of, lines_of, names_of};

use crate::findings::CommandResult;
use crate::{Outcome, Status};
use frame_view::Memory;
use std::alloc::Global;
use tap_outside::{Sink, Store};
use tap_running::print_lines;
use tap_saving::{save_members, save_sent};

/// Saves the files of a finding and prints its lines. Each is tried even if the other fails.
pub(crate) fn conclude<S: Store, O: Sink>(
    alloc: Global,
    finding: CommandResult,
    store: &mut S,
    out: &mut O,
) -> Result<Outcome, Memory>
    requires ready { IsReady finding }
    requires meant { AllByRecursion (λ name. IsTrue ((S.seen store.old).to_save name))
        (names_of finding) }
    ensures concludes { IfOk result (λ outcome. Concludes finding outcome
        (S.seen store.old) (S.seen store.new) (O.seen out.old) (O.seen out.new)) }
    ensures touches { Touches (S.seen store.old) (S.seen store.new) (names_of finding) }
    ensures early { OnErr result
        (SavedSome (S.seen store.old) (S.seen store.new) (files_of finding)) }
    ensures printed { OnErr result
        (PrintedSome (O.seen out.old) (O.seen out.new) (lines_of finding)) }
{
    let status = save_and_print(alloc, &finding, store, out)?;
    Ok(Outcome {
        status,
        report: finding.into_report(),
    })
}

/// Saves the files of a finding and prints its lines, and returns the status that the command ends
/// with.
fn save_and_print<S: Store, O: Sink>(
    alloc: Global,
    finding: &CommandResult,
    store: &mut S,
    out: &mut O,
) -> Result<Status, Memory>
    requires ready { IsReady finding.now }
    requires meant { AllByRecursion (λ name. IsTrue ((S.seen store.old).to_save name))
        (names_of finding.now) }
    ensures ended { IfOk result (λ status.
        IsDone finding.now status
        (S.seen store.old) (S.seen store.new) (O.seen out.old) (O.seen out.new)
        ⊎ IsFailed finding.now status
        (S.seen store.old) (S.seen store.new) (O.seen out.old) (O.seen out.new)) }
    ensures touches { Touches (S.seen store.old) (S.seen store.new) (names_of finding.now) }
    ensures early { OnErr result
        (SavedSome (S.seen store.old) (S.seen store.new) (files_of finding.now)) }
    ensures printed { OnErr result
        (PrintedSome (O.seen out.old) (O.seen out.new) (lines_of finding.now)) }
{
    let lines = finding.lines(alloc)?;
    let saved = save(alloc, finding, store)?;
    let printed = print_lines(out, lines.as_slice())?;
    Ok(status_with(saved, printed, finding.status()))
}

/// Saves the files of a finding, and returns whether all were saved.
fn save<S: Store>(alloc: Global, finding: &CommandResult, store: &mut S) -> Result<bool, Memory>
    requires ready { IsReady finding.now }
    requires meant { AllByRecursion (λ name. IsTrue ((S.seen store.old).to_save name))
        (names_of finding.now) }
    ensures touches { Touches (S.seen store.old) (S.seen store.new) (names_of finding.now) }
    ensures saved { IfOk result
        (Saved (S.seen store.old) (S.seen store.new) (files_of finding.now)) }
    ensures early { OnErr result
        (SavedSome (S.seen store.old) (S.seen store.new) (files_of finding.now)) }
{
    match finding {
        CommandResult::Ran(_, setup, report, forwards) => {
            let members = report.members.as_slice();
            save_members(alloc, setup, members, forwards.as_ref(), store)
        }
        CommandResult::Sent(setup, sending) => save_sent(
            alloc,
            setup,
            &sending.sent.packets,
            store,
        ),
        _ => Ok(true),
    }
}

/// The status of a finding, unless saving or printing failed.
fn status_with(saved: bool, printed: bool, status: Status) -> Status
    ensures { result ≡ (if saved && printed then status else Status.WriteFault) }
{
    if saved && printed {
        status
    } else {
        Status::WriteFault
    }
}
