//! What a command finds: its texts, its captures and its run.
ghost use Rattle.std.specs.Prelude.{◌≡◌, false, true, Some, IfErr, IfOk};
ghost use Rattle.setup_text.specs.Setups.{request_fault};
ghost use Rattle.setup_text.specs.Sound.{IsSetup};
ghost use Rattle.tap_outside.specs.Seen.{OnlyReads, StoreSeen};
ghost use Rattle.tap_engine.specs.Commands.{command_of, is_threaded, named_by, plain_command};
ghost use Rattle.tap_engine.specs.Commands.{rings_of};
ghost use Rattle.tap_engine.specs.Conclusions.{IsSearched};
ghost use Rattle.tap_engine.specs.inside.Dones.{finding_by};
ghost use Rattle.tap_engine.specs.Findings.{IsFound, IsReady, command_result_of};
ghost use Rattle.tap_engine.specs.Given.{Texts};
ghost use Rattle.tap_engine.specs.Jobs.{HasJob, IsLoaded, Stops};
ghost use Rattle.tap_engine.specs.Names.{AreMeantToRead};

use crate::commands::{Asked, command_of, is_threaded, plain_command, rings_of, sends};
use crate::findings::CommandResult;
use crate::jobs::{load_job, load_moments};
use crate::replay_runs::{replay_made, replay_scheduled};
use crate::sent_captures::{Sending, send_capture};
use crate::threaded_runs::{ThreadedRun, run_timed};
use cpu_feeders::Gate;
use frame_view::Memory;
use run_reports::{RingKind, RunReport};
use setup_text::{Command, Job, Setup};
use std::alloc::Global;
use std::sync::Wait;
use std::thread::Threads;
use tap_outside::{Store, Word};
use tap_reading::LoadError;

/// Finds what the words ask for, on threads if they are `capture CONF` or `forward CONF`. The store
/// is only read.
pub(crate) fn find<S: Store, G: Gate + Sync, R: Threads + Wait + Sync>(
    rt: &R,
    alloc: Global,
    words: &[Word],
    store: &mut S,
    gate: &G,
) -> Result<CommandResult, Memory>
    requires reads { AreMeantToRead (command_of words.now) (S.seen store.old) }
    ensures found { IsSearched (command_of words.now) (S.seen store.old) (S.seen store.new)
        result }
    ensures ready { IfOk result IsReady }
{
    let Some(asked) = command_of(words) else {
        return Ok(CommandResult::NoCommand);
    };
    if is_threaded(asked.command) {
        command_result_of(run_threads(rt, alloc, asked, store, gate))
    } else {
        command_result_of(carry_out(alloc, asked, store))
    }
}

/// Finds what the words ask for on one thread. The store is only read.
pub(crate) fn find_plain<S: Store>(
    alloc: Global,
    words: &[Word],
    store: &mut S,
) -> Result<CommandResult, Memory>
    requires reads { AreMeantToRead (plain_command words.now) (S.seen store.old) }
    ensures found { IsSearched (plain_command words.now) (S.seen store.old) (S.seen store.new)
        result }
    ensures ready { IfOk result IsReady }
{
    let Some(asked) = plain_command(words) else {
        return Ok(CommandResult::NoCommand);
    };
    command_result_of(carry_out(alloc, asked, store))
}

/// What is found if a text stops the command.
fn command_result_of(answer: Result<CommandResult, LoadError>) -> Result<CommandResult, Memory>
    ensures { result ≡ command_result_of answer }
{
    match answer {
        Ok(finding) => Ok(finding),
        Err(LoadError::Unread) => Ok(CommandResult::Unread),
        Err(LoadError::Setup(error)) => Ok(CommandResult::BadSetup(error)),
        Err(LoadError::Text(error)) => Ok(CommandResult::BadText(error)),
        Err(LoadError::Memory) => Err(Memory),
    }
}

/// Reads the texts and the captures of a command, and carries out its run on one thread.
fn carry_out<S: Store>(
    alloc: Global,
    asked: Asked<'_>,
    store: &mut S,
) -> Result<CommandResult, LoadError>
    requires plain { is_threaded asked.command ≡ false }
    requires reads { AreMeantToRead
        (Some (named_by asked.command asked.setup.now asked.schedule.now)) (S.seen store.old) }
    ensures found { IfOk result (IsFound
        (Some (named_by asked.entry.command asked.entry.setup.now asked.entry.schedule.now))
        (S.seen store.old) (S.seen store.new)) }
    ensures stop { IfErr result (Stops (S.seen store.old) (S.seen store.new)
        (named_by asked.entry.command asked.entry.setup.now asked.entry.schedule.now)) }
    ensures ready { IfOk result IsReady }
    ensures store { OnlyReads (S.seen store.old) (S.seen store.new) }
{
    let job = load_job(alloc, asked, store)?;
    let done = work(alloc, asked, &job, store)?;
    Ok(done.into_finding(rings_of(asked.command), job.setup))
}

/// What a command does on one thread, after its setup and its filter.
#[derive(Drop)]
enum Done {
    /// There was nothing to run.
    Checked,
    /// A run was made, over rings of the command's kind.
    Ran(RunReport),
    /// A capture was sent.
    Sent(Sending),
}

impl Done {
    /// What that is, with the setup, as a finding.
    fn into_finding(self, rings: RingKind, setup: Setup) -> CommandResult
        ensures { result ≡ finding_by rings setup self }
    {
        match self {
            Done::Checked => CommandResult::Checked,
            Done::Ran(report) => CommandResult::Ran(rings, setup, report, None),
            Done::Sent(sending) => CommandResult::Sent(setup, sending),
        }
    }
}

/// Carries out a command on one thread, after its setup and its filter.
fn work<S: Store>(
    alloc: Global,
    asked: Asked<'_>,
    job: &Job,
    store: &mut S,
) -> Result<Done, LoadError>
    requires plain { is_threaded asked.command ≡ false }
    requires job { (texts : Texts) × HasJob (S.seen store.old).held
        (named_by asked.command asked.setup.now asked.schedule.now) texts job.now }
    requires setup { IsSetup job.now.setup }
    requires ring { request_fault asked.command job.now.setup.request ≡ None }
    requires reads { AreMeantToRead
        (Some (named_by asked.command asked.setup.now asked.schedule.now)) (S.seen store.old) }
    ensures found { IfOk result (λ done. (start : StoreSeen) (texts : Texts)
        → IsLoaded start (S.seen store.old)
        (named_by asked.entry.command asked.entry.setup.now asked.entry.schedule.now) texts job.now
        → IsFound
        (Some (named_by asked.entry.command asked.entry.setup.now asked.entry.schedule.now))
        start (S.seen store.new)
        (finding_by (rings_of asked.entry.command) job.now.setup done)) }
    ensures stop { IfErr result (λ stop. (start : StoreSeen) (texts : Texts)
        → IsLoaded start (S.seen store.old)
        (named_by asked.entry.command asked.entry.setup.now asked.entry.schedule.now) texts job.now
        → Stops start (S.seen store.new)
        (named_by asked.entry.command asked.entry.setup.now asked.entry.schedule.now) stop) }
    ensures ready { IfOk result (λ done.
        IsReady (finding_by (rings_of asked.entry.command) job.now.setup done)) }
    ensures store { OnlyReads (S.seen store.old) (S.seen store.new) }
{
    match asked.command {
        Command::Check => {
            load_moments(alloc, store, &job.setup.ticks)?;
            Ok(Done::Checked)
        }
        Command::Make => Ok(Done::Ran(replay_made(alloc, job)?)),
        Command::Replay | Command::Replay2 => {
            let report = replay_scheduled(alloc, asked.command, job, asked.schedule, store)?;
            Ok(Done::Ran(report))
        }
        Command::Send => Ok(Done::Sent(send_capture(alloc, &job.setup, store)?)),
        Command::Capture | Command::Forward => unreachable!(),
    }
}

/// Reads the texts and the captures of a `capture` or a `forward`, and carries out its run on
/// threads.
fn run_threads<S: Store, G: Gate + Sync, R: Threads + Wait + Sync>(
    rt: &R,
    alloc: Global,
    asked: Asked<'_>,
    store: &mut S,
    gate: &G,
) -> Result<CommandResult, LoadError>
    requires threaded { is_threaded asked.command ≡ true }
    requires reads { AreMeantToRead
        (Some (named_by asked.command asked.setup.now asked.schedule.now)) (S.seen store.old) }
    ensures found { IfOk result (IsFound
        (Some (named_by asked.entry.command asked.entry.setup.now asked.entry.schedule.now))
        (S.seen store.old) (S.seen store.new)) }
    ensures stop { IfErr result (Stops (S.seen store.old) (S.seen store.new)
        (named_by asked.entry.command asked.entry.setup.now asked.entry.schedule.now)) }
    ensures ready { IfOk result IsReady }
    ensures store { OnlyReads (S.seen store.old) (S.seen store.new) }
{
    let job = load_job(alloc, asked, store)?;
    let sends = sends(asked.command);
    let ThreadedRun { report, forwards } = run_timed(rt, alloc, &job, sends, store, gate)?;
    Ok(CommandResult::Ran(RingKind::Blocks, job.setup, report, forwards))
}
