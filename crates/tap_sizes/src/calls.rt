//! The top call.
ghost use Rattle.std.specs.Prelude.{◌≡◌, ◌≢◌, ◌≤◌, ◌+◌, None, Option, IfOk, OnErr};
ghost use Rattle.tap_outside.specs.Seen.{StoreSeen};
ghost use Rattle.tap_running.specs.Prints.{IsLastLine, PrintedSome};
ghost use Rattle.tap_sizes.specs.Complete.{IsComplete};
ghost use Rattle.tap_sizes.specs.Endings.{GivesUp, IsConcluded, IsFaultless, IsSizeSearched};
ghost use Rattle.tap_sizes.specs.Endings.{IsStopped, IsWorth, Tells, status_with};
ghost use Rattle.tap_sizes.specs.SizeFindings.{lines_of};
ghost use Rattle.tap_sizes.specs.SizeNames.{AreMeantToSize};
ghost use Rattle.tap_sizes.specs.SizeWords.{SizeNamed, size_words};
ghost use Rattle.tap_sizes.specs.inside.SizeAnswers.{IsAnswer};

use crate::searches::search;
use crate::size_findings::SizeFinding;
use crate::{SizeOutcome, SizeStatus};
use frame_view::Memory;
use std::alloc::Global;
use std::thread::Threads;
use tap_outside::{Sink, Store, Word};
use tap_running::{print_lines, print_memory};

/// Answers which rings of a setup are never full, over a store and a sink.
///
/// The words are the names of a setup and of a reader's text. The setup, the filter that it names,
/// the reader's text and the files of each CPU, its capture and then its further ones, are read one
/// after another; then the smallest ring of each member and of the group is printed that never
/// finds a block still the reader's, whatever phase of the timer and whatever beginning of the
/// reader is tried. The phases are tried on as many threads as there are processors, at most eight.
/// docs/reference.md lists texts and lines, which are this project's own choice.
pub fn run_size<S: Store, O: Sink, R: Threads + Sync>(
    rt: &R,
    alloc: Global,
    words: &[Word],
    store: &mut S,
    out: &mut O,
) -> SizeOutcome
    // Each file that is read is meant for reading.
    requires { AreMeantToSize (size_words words.now) (S.seen store.old) }

    // A report has the answers for what the files of the CPUs gave.
    ensures headline { IsWorth (size_words words.now) (S.seen store.old) (S.seen store.new)
        result.report }

    // Unless memory ran out: what was found from what the outside gave, with the status, the report
    // and the lines that follow from it.
    ensures told { result.status ≢ SizeStatus.Memory → Tells (size_words words.now) result
        (S.seen store.old) (S.seen store.new) (O.seen out.old) (O.seen out.new) }

    // If memory ran out: there is no report, and a prefix of the lines was printed, followed by
    // `out of memory`, whole unless a write failed or ran out of memory too.
    ensures gave_up { result.status ≡ SizeStatus.Memory → GivesUp (size_words words.now) result
        (S.seen store.old) (S.seen store.new) (O.seen out.old) (O.seen out.new) }

    // If the store holds sound texts and files and no count of faults rose, the status is 0, or 7.
    ensures complete { IsComplete (size_words words.now)
        (S.seen store.old) (S.seen store.new) (O.seen out.old) (O.seen out.new) result.status }

    // If an exact store or the sink counted a fault the status is 5, 6 or 7.
    ensures faultless { IsFaultless
        (S.seen store.old) (S.seen store.new) (O.seen out.old) (O.seen out.new) result.status }
{
    let found = search(rt, alloc, words, store);
    finish(alloc, found, out)
}

/// Prints what was found, or that memory ran out.
fn finish<O: Sink>(alloc: Global, found: Result<SizeFinding, Memory>, out: &mut O) -> SizeOutcome
    ensures { (command : Option SizeNamed) (old new : StoreSeen)
        → IsSizeSearched command old new found
        → IsAnswer command result old new (O.seen out.old) (O.seen out.new) }
{
    match attempt(alloc, found, out) {
        Ok(outcome) => outcome,
        Err(_) => give_up(out),
    }
}

/// Prints what was found, as far as memory suffices.
fn attempt<O: Sink>(
    alloc: Global,
    found: Result<SizeFinding, Memory>,
    out: &mut O,
) -> Result<SizeOutcome, Memory>
    ensures told { IfOk result (λ outcome. (command : Option SizeNamed) (old new : StoreSeen)
        → IsSizeSearched command old new found
        → Tells command outcome old new (O.seen out.old) (O.seen out.new)) }
    ensures cut { OnErr result ((command : Option SizeNamed) (old new : StoreSeen)
        → IsSizeSearched command old new found
        → IsStopped command old new (O.seen out.old) (O.seen out.new)) }
{
    let finding = found?;
    conclude(alloc, finding, out)
}

/// Prints what was found.
fn conclude<O: Sink>(
    alloc: Global,
    finding: SizeFinding,
    out: &mut O,
) -> Result<SizeOutcome, Memory>
    ensures concluded { IfOk result (λ outcome.
        IsConcluded finding outcome (O.seen out.old) (O.seen out.new)) }
    ensures printed { OnErr result
        (PrintedSome (O.seen out.old) (O.seen out.new) (lines_of finding)) }
{
    let lines = finding.lines(alloc)?;
    let printed = print_lines(out, lines.as_slice())?;
    let status = status_with(printed, finding.status());
    Ok(SizeOutcome {
        status,
        report: finding.into_report(),
    })
}

/// The status of a finding, unless printing failed.
fn status_with(printed: bool, status: SizeStatus) -> SizeStatus
    ensures { result ≡ status_with printed status }
{
    if printed {
        status
    } else {
        SizeStatus::WriteFault
    }
}

/// Prints once that memory ran out.
fn give_up<O: Sink>(out: &mut O) -> SizeOutcome
    ensures status { result.status ≡ SizeStatus.Memory }
    ensures report { result.report ≡ None }
    ensures line { IsLastLine (O.seen out.old) (O.seen out.old) (O.seen out.new) }
    ensures kept { (O.seen out.old).faults ≤ (O.seen out.new).faults }
    ensures one { (O.seen out.new).faults ≤ (O.seen out.old).faults + 1 }
{
    print_memory(out);
    SizeOutcome {
        status: SizeStatus::Memory,
        report: None,
    }
}
