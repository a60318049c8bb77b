//! Runs from their jobs to their reports: over the captures of a store, and over frames that are
//! made.
ghost use Rattle.std.specs.Prelude.{◌≡◌, ◌≤◌, ◌<◌, ◌^◌, true, ℕ, None, Some, length, map};
ghost use Rattle.std.specs.Prelude.{option_map, All, IfErr, IfOk, IsTrue};
ghost use Rattle.setup_text.specs.TickOrder.{IsSchedule};
ghost use Rattle.setup_text.specs.Setups.{request_fault};
ghost use Rattle.setup_text.specs.Sound.{IsSetup};
ghost use Rattle.setup_text.specs.declared.commands.Command.TheVariants.{Make};
ghost use Rattle.slot_layout.specs.SlotShapes.{IsSlotShape};
ghost use Rattle.tap_outside.specs.Seen.{OnlyReads, StoreSeen};
ghost use Rattle.tap_engine.specs.Commands.{Named, has_schedule};
ghost use Rattle.tap_running.specs.Counts.{IsCounted};
ghost use Rattle.tap_engine.specs.Given.{Texts};
ghost use Rattle.tap_engine.specs.Findings.{IsReported, IsSmall, faults_in};
ghost use Rattle.tap_engine.specs.Jobs.{HasLines, IsLoaded, IsRead, Stops};
ghost use Rattle.replay_machine.specs.Runs.{IsReplayed};
ghost use Rattle.run_reports.specs.RingRules.{rules_by};

use crate::commands::rings_of;
use crate::jobs::load_lines;
use crate::sources::{close_captures, fetch_captures};
use frame_view::Memory;
use made_captures::{made_schedule, made_sources};
use run_reports::{Ran, RingKind, RunReport};
use setup_text::{Command, Job, Schedule};
use std::alloc::Global;
use tap_outside::{Source, Store};
use tap_reading::LoadError;
use tap_replay::replay;
use v2_replay::replay_v2;

/// Replays a job over the captures that a store holds, by the schedule of a name, and over the
/// rings of a command.
pub(crate) fn replay_scheduled<S: Store>(
    alloc: Global,
    command: Command,
    job: &Job,
    name: &[u8],
    store: &mut S,
) -> Result<RunReport, LoadError>
    requires scheduled { has_schedule command ≡ true }
    requires setup { IsSetup job.now.setup }
    requires ring { request_fault command job.now.setup.request ≡ None }
    requires schedule { IsTrue ((S.seen store.old).to_read name.now) }
    requires captures { All (λ cpu. IsTrue ((S.seen store.old).to_read cpu.file))
        job.now.setup.cpus }
    ensures reported { IfOk result (λ report. (start : StoreSeen) (named : Named) (texts : Texts)
        → named.command ≡ command → named.schedule ≡ name.now
        → IsLoaded start (S.seen store.old) named texts job.now
        → IsReported start (S.seen store.new) named job.now.setup report) }
    ensures stop { IfErr result (λ stop. (start : StoreSeen) (named : Named) (texts : Texts)
        → named.command ≡ command → named.schedule ≡ name.now
        → IsLoaded start (S.seen store.old) named texts job.now
        → Stops start (S.seen store.new) named stop) }
    ensures faults { IfOk result (λ report. IsCounted (S.seen store.old) (S.seen store.new)
        (faults_in report.cpus)) }
    ensures small { IfOk result IsSmall }
    ensures store { OnlyReads (S.seen store.old) (S.seen store.new) }
{
    let schedule = load_lines(alloc, store, name, &job.setup)?;
    Ok(replay_captures(alloc, command, job, &schedule, store)?)
}

/// Replays a job over the captures that a store holds, and over the rings of a command.
fn replay_captures<S: Store>(
    alloc: Global,
    command: Command,
    job: &Job,
    schedule: &Schedule,
    store: &mut S,
) -> Result<RunReport, Memory>
    requires scheduled { has_schedule command ≡ true }
    requires setup { IsSetup job.now.setup }
    requires ring { request_fault command job.now.setup.request ≡ None }
    requires schedule { IsSchedule schedule.now }
    requires few { length schedule.now ≤ 1048576 }
    requires captures { All (λ cpu. IsTrue ((S.seen store.old).to_read cpu.file))
        job.now.setup.cpus }
    ensures reported { IfOk result (λ report. (start : StoreSeen) (named : Named) (texts : Texts)
        → named.command ≡ command → IsRead start (S.seen store.old) named texts job.now
        → HasLines start.held named job.now texts.last schedule.now
        → IsReported start (S.seen store.new) named job.now.setup report) }
    ensures faults { IfOk result (λ report. IsCounted (S.seen store.old) (S.seen store.new)
        (faults_in report.cpus)) }
    ensures small { IfOk result IsSmall }
    ensures store { OnlyReads (S.seen store.old) (S.seen store.new) }
{
    let sources = fetch_captures(alloc, store, &job.setup.cpus)?;
    let Ran { report, sources } = replay_over(alloc, rings_of(command), job, sources, schedule)?;
    close_captures(store, sources);
    Ok(report)
}

/// Replays a job over rings of a kind.
fn replay_over<I: Source>(
    alloc: Global,
    rings: RingKind,
    job: &Job,
    sources: Vec<Option<I>>,
    schedule: &Schedule,
) -> Result<Ran<I>, Memory>
    requires ring { rings ≡ RingKind.Slots → IsSlotShape job.now.setup.shape }
    requires sources { length sources.items ≡ length job.now.setup.cpus }
    requires schedule { IsSchedule schedule.now }
    requires few { length schedule.now < 2 ^ 32 }
    ensures ran { IfOk result (λ ran. IsReplayed (rules_by rings job.now.setup.shape)
        job.now schedule.now
        (map (option_map I.seen) sources.items)
        (map (option_map I.seen) ran.sources.items)
        ran.report) }
{
    match rings {
        RingKind::Blocks => replay(alloc, job, sources, schedule),
        RingKind::Slots => replay_v2(alloc, job, sources, schedule),
    }
}

/// Replays a job over the captures of the frames that its setup has made. No source fails.
pub(crate) fn replay_made(alloc: Global, job: &Job) -> Result<RunReport, Memory>
    requires setup { IsSetup job.now.setup }
    ensures reported { IfOk result (λ report. (old new : StoreSeen) (named : Named) (texts : Texts)
        → named.command ≡ Make → IsRead old new named texts job.now
        → IsReported old new named job.now.setup report) }
    ensures faults { IfOk result (λ report. faults_in report.cpus ≡ 0) }
    ensures small { IfOk result IsSmall }
{
    let setup = &job.setup;
    let cpus = setup.cpus.len() as u32;
    let sources = made_sources(alloc, setup.seed, setup.count, cpus)?;
    let schedule = made_schedule(alloc, setup.count, cpus, setup.plan.members())?;
    let Ran { report, sources: _ } = replay(alloc, job, sources, &schedule)?;
    Ok(report)
}
