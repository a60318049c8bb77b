//! Runs on threads, from their jobs to their reports, over the captures of a store.
ghost use Rattle.std.specs.Prelude.{◌≡◌, true, length, map, option_map};
ghost use Rattle.std.specs.Prelude.{All, IfErr, IfOk, IfSome, IsTrue};
ghost use Rattle.cpu_feeders.specs.Runs.{IsCaptureRun};
ghost use Rattle.setup_text.specs.Sound.{AreMoments, IsSetup};
ghost use Rattle.tap_outside.specs.Seen.{OnlyReads, StoreSeen};
ghost use Rattle.tap_saving.specs.Files.{CanBeOutput};
ghost use Rattle.tap_engine.specs.Commands.{Named, is_threaded};
ghost use Rattle.tap_running.specs.Counts.{IsCounted};
ghost use Rattle.tap_engine.specs.Given.{Texts};
ghost use Rattle.tap_engine.specs.Findings.{IsReported, IsSentBy, IsSmall, faults_in};
ghost use Rattle.tap_engine.specs.Jobs.{HasTicks, IsLoaded, IsRead, Stops};

use crate::jobs::load_moments;
use crate::sources::{close_captures, fetch_captures};
use block_pool::run_pool;
use cpu_feeders::{Gate, run_workers};
use frame_view::{ItemList, Memory, MomentList};
use run_reports::{Forwards, Ran, RunReport};
use setup_text::Job;
use std::alloc::Global;
use std::sync::Wait;
use std::thread::Threads;
use tap_forward::{ForwardRan, forward_workers};
use tap_outside::{Source, Store};
use tap_reading::LoadError;

/// The result of a run on threads.
#[derive(Drop)]
pub(crate) struct ThreadedRun {
    /// What it reports.
    pub report: RunReport,
    /// What its members sent, if they send.
    pub forwards: Option<Forwards>,
}

/// Runs a job on threads over the captures that a store holds, and reports the moments that its
/// setup names to its members. The members send what they read, or don't.
pub(crate) fn run_timed<S: Store, G: Gate + Sync, R: Threads + Wait + Sync>(
    rt: &R,
    alloc: Global,
    job: &Job,
    sends: bool,
    store: &mut S,
    gate: &G,
) -> Result<ThreadedRun, LoadError>
    requires setup { IsSetup job.now.setup }
    requires ticks { IfSome job.now.setup.ticks
        (λ name. IsTrue ((S.seen store.old).to_read name)) }
    requires captures { All (λ cpu. IsTrue ((S.seen store.old).to_read cpu.file))
        job.now.setup.cpus }
    ensures reported { IfOk result (λ run. (start : StoreSeen) (named : Named) (texts : Texts)
        → is_threaded named.command ≡ true → IsLoaded start (S.seen store.old) named texts job.now
        → IsReported start (S.seen store.new) named job.now.setup run.report) }
    ensures sent { IfOk result (λ run. IsSentBy sends job.now.setup run.report run.forwards) }
    ensures stop { IfErr result (λ stop. (start : StoreSeen) (named : Named) (texts : Texts)
        → is_threaded named.command ≡ true → IsLoaded start (S.seen store.old) named texts job.now
        → Stops start (S.seen store.new) named stop) }
    ensures faults { IfOk result (λ run. IsCounted (S.seen store.old) (S.seen store.new)
        (faults_in run.report.cpus)) }
    ensures small { IfOk result (λ run. IsSmall run.report) }
    ensures short { IfOk result (λ run.
        IfSome run.forwards (λ forwards. All CanBeOutput forwards.sent)) }
    ensures store { OnlyReads (S.seen store.old) (S.seen store.new) }
{
    let moments = load_moments(alloc, store, &job.setup.ticks)?;
    Ok(run_captures(rt, alloc, job, sends, &moments, store, gate)?)
}

/// Runs a job on threads over the captures that a store holds, with these moments.
fn run_captures<S: Store, G: Gate + Sync, R: Threads + Wait + Sync>(
    rt: &R,
    alloc: Global,
    job: &Job,
    sends: bool,
    moments: &MomentList,
    store: &mut S,
    gate: &G,
) -> Result<ThreadedRun, Memory>
    requires setup { IsSetup job.now.setup }
    requires moments { AreMoments moments.now }
    requires captures { All (λ cpu. IsTrue ((S.seen store.old).to_read cpu.file))
        job.now.setup.cpus }
    ensures reported { IfOk result (λ run. (start : StoreSeen) (named : Named) (texts : Texts)
        → is_threaded named.command ≡ true → IsRead start (S.seen store.old) named texts job.now
        → HasTicks start.held job.now.setup.ticks texts.last moments.now
        → IsReported start (S.seen store.new) named job.now.setup run.report) }
    ensures sent { IfOk result (λ run. IsSentBy sends job.now.setup run.report run.forwards) }
    ensures faults { IfOk result (λ run. IsCounted (S.seen store.old) (S.seen store.new)
        (faults_in run.report.cpus)) }
    ensures small { IfOk result (λ run. IsSmall run.report) }
    ensures short { IfOk result (λ run.
        IfSome run.forwards (λ forwards. All CanBeOutput forwards.sent)) }
    ensures store { OnlyReads (S.seen store.old) (S.seen store.new) }
{
    let sources = fetch_captures(alloc, store, &job.setup.cpus)?;
    let (ran, forwards) = run_sources(rt, alloc, job, sends, sources, moments, gate)?;
    let Ran { report, sources } = ran;
    close_captures(store, sources);
    Ok(ThreadedRun { report, forwards })
}

/// Runs a job on threads over the sources of its captures, with these moments.
fn run_sources<S: Source + Send, G: Gate + Sync, R: Threads + Wait + Sync>(
    rt: &R,
    alloc: Global,
    job: &Job,
    sends: bool,
    sources: Vec<Option<S>>,
    moments: &MomentList,
    gate: &G,
) -> Result<(Ran<S>, Option<Forwards>), Memory>
    requires setup { IsSetup job.now.setup }
    requires sources { length sources.items ≡ length job.now.setup.cpus }
    requires moments { AreMoments moments.now }
    ensures ran { IfOk result (λ run. IsCaptureRun job.now moments.now
        (map (option_map S.seen) sources.items)
        (map (option_map S.seen) run.0.sources.items)
        run.0.report) }
    ensures sent { IfOk result (λ run. IsSentBy sends job.now.setup run.0.report run.1) }
{
    if !sends {
        let ran = capture_sources(rt, alloc, job, sources, moments, gate)?;
        return Ok((ran, None));
    }
    let ran = forward_workers(rt, alloc, job, sources, moments, gate)?;
    let ForwardRan {
        report,
        sent,
        skipped,
        sources,
    } = ran;
    let forwards = Forwards {
        sent: ItemList::from_vec(sent),
        skipped: ItemList::from_vec(skipped),
    };
    Ok((Ran { report, sources }, Some(forwards)))
}

/// Runs a job on threads whose members send nothing, with these moments. If the setup has workers a
/// pool decodes the blocks, otherwise each reader decodes its own.
fn capture_sources<S: Source + Send, G: Gate + Sync, R: Threads + Wait + Sync>(
    rt: &R,
    alloc: Global,
    job: &Job,
    sources: Vec<Option<S>>,
    moments: &MomentList,
    gate: &G,
) -> Result<Ran<S>, Memory>
    requires setup { IsSetup job.now.setup }
    requires sources { length sources.items ≡ length job.now.setup.cpus }
    requires moments { AreMoments moments.now }
    ensures ran { IfOk result (λ ran. IsCaptureRun job.now moments.now
        (map (option_map S.seen) sources.items)
        (map (option_map S.seen) ran.sources.items)
        ran.report) }
{
    let workers = job.setup.workers;
    if workers == 0 {
        run_workers(rt, alloc, job, sources, moments, gate)
    } else {
        run_pool(rt, alloc, job, sources, moments, gate, workers)
    }
}
