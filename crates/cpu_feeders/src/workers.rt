//! The run of a job on threads.
ghost use Rattle.std.specs.Prelude.{◌≡◌, None, length, map, option_map, replicate, IfOk};
ghost use Rattle.std.specs.List.{AllByRecursion};
ghost use Rattle.cpu_feeders.specs.Runs.{IsCaptureRun};
ghost use Rattle.reader_walk.specs.Readers.{new_reader, outputs_of};
ghost use Rattle.setup_text.specs.Sound.{AreMoments};

use crate::{Gate, report_run, run_takers};
use frame_view::{Memory, MomentList};
use reader_walk::{Outputs, Reader};
use run_reports::Ran;
use setup_text::Job;
use std::alloc::Global;
use std::sync::Wait;
use std::thread::Threads;
use tap_outside::Source;
use tp_layout::Shape;

/// A reader for each member, which keeps the texts of its blocks if it is asked to.
fn readers_of(alloc: Global, members: u32, shape: &Shape, dump: bool) -> Result<Vec<Reader>, Memory>
    ensures { IfOk result (λ readers.
        readers.items ≡ replicate members (new_reader shape.now dump)) }
{
    let mut readers = Vec::with_capacity(alloc, members as usize)?;
    for _reader in 0..members {
        readers.push(Reader::new(alloc, *shape, dump))?;
    }
    Ok(readers)
}

/// What readers return, in order.
fn outputs_of_all(alloc: Global, readers: Vec<Reader>) -> Result<Vec<Outputs>, Memory>
    requires held { AllByRecursion (λ reader. reader.held ≡ None) readers.items }
    ensures { IfOk result (λ outputs. outputs.items ≡ map outputs_of readers.items) }
{
    let mut outputs = Vec::with_capacity(alloc, readers.len())?;
    for reader in readers {
        outputs.push(reader.outputs())?;
    }
    Ok(outputs)
}

/// Runs a job on threads: a reader for each member, a timer that reports the moments, and a feeder
/// for each CPU. The sources are one for each CPU, and come back less the bytes that they gave; a
/// CPU without one ends with a fault. The only error is that an allocation fails, and the sources
/// are dropped then.
pub fn run_workers<S: Source + Send, G: Gate + Sync, R: Threads + Wait + Sync>(
    rt: &R,
    alloc: Global,
    job: &Job,
    sources: Vec<Option<S>>,
    ticks: &MomentList,
    gate: &G,
) -> Result<Ran<S>, Memory>
    requires sources { length sources.items ≡ length job.now.setup.cpus }
    requires moments { AreMoments ticks.now }
    ensures ran { IfOk result (λ ran. IsCaptureRun job.now ticks.now
        (map (option_map S.seen) sources.items)
        (map (option_map S.seen) ran.sources.items)
        ran.report) }
{
    let setup = &job.setup;
    let readers = readers_of(alloc, setup.plan.members(), &setup.shape, setup.dump)?;
    let workers = run_takers(rt, alloc, job, sources, ticks, gate, readers)?;
    let outputs = outputs_of_all(alloc, workers.takers)?;
    let report = report_run(alloc, workers.cpus, workers.notes, workers.rings, outputs)?;
    Ok(Ran {
        report,
        sources: workers.sources,
    })
}
