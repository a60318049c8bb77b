//! The run of a job on threads whose readers send.
ghost use Rattle.std.specs.Prelude.{◌≡◌, None, length, map, option_map, replicate, IfOk};
ghost use Rattle.cpu_feeders.specs.Runs.{IsCaptureRun};
ghost use Rattle.setup_text.specs.Sound.{AreMoments};
ghost use Rattle.tap_forward.specs.Bridges.{sent_for, skipped_for, tx_request};
ghost use Rattle.tap_forward.specs.Forwarders.{forwarded_of, new_forwarder};
ghost use Rattle.tp_layout.specs.Requests.{receive_fault, transmit_fault};
ghost use Rattle.tx_ring.specs.Rings.{room_of};

use crate::Forwarder;
use cpu_feeders::{Gate, report_run, run_takers};
use frame_view::{Memory, MomentList, Packets};
use reader_walk::Outputs;
use run_reports::RunReport;
use setup_text::Job;
use std::alloc::Global;
use std::sync::Wait;
use std::thread::Threads;
use tap_outside::Source;
use tp_layout::{RingRequest, Shape};

/// What a run whose readers send returns.
#[derive(Drop)]
pub struct ForwardRan<S: Drop> {
    /// What it reports, as a run whose readers keep their packets.
    pub report: RunReport,
    /// The packets that were sent for each member, from 0 up.
    pub sent: Vec<Packets>,
    /// The number of packets that were skipped of each member, from 0 up.
    pub skipped: Vec<u64>,
    /// The source of each CPU, from 0 up, less the bytes that it gave; nothing if none was handed
    /// in.
    pub sources: Vec<Option<S>>,
}

/// What forwarders leave: that of each in its place.
#[derive(Drop)]
struct ForwardersEnd {
    /// What a reader of the same blocks returns.
    outputs: Vec<Outputs>,
    /// The packets that were sent.
    sent: Vec<Packets>,
    /// The number of packets that were skipped.
    skipped: Vec<u64>,
}

/// The shape of the transmit ring beside a receive ring: that of the same request without a
/// time-out, a private area and features, which a transmit ring doesn't have.
fn tx_shape(request: &RingRequest) -> Shape
    requires { receive_fault request.now ≡ None }
    ensures shape { result ≡ tx_request request.now }
    ensures transmit { transmit_fault result ≡ None }
{
    let plain = RingRequest {
        tov: 0,
        sizeof_priv: 0,
        features: 0,
        ..*request
    };
    match plain.check_tx() {
        Ok(shape) => shape,
        Err(_) => unreachable!(),
    }
}

/// A forwarder for each member.
fn forwarders_of(
    alloc: Global,
    members: u32,
    shape: &Shape,
    tx: &Shape,
    dump: bool,
) -> Result<Vec<Forwarder>, Memory>
    requires { transmit_fault tx.now ≡ None }
    ensures { IfOk result (λ forwarders.
        forwarders.items ≡ replicate members (new_forwarder shape.now tx.now dump)) }
{
    let mut forwarders = Vec::with_capacity(alloc, members as usize)?;
    for _forwarder in 0..members {
        forwarders.push(Forwarder::new(alloc, *shape, *tx, dump)?)?;
    }
    Ok(forwarders)
}

/// Ends forwarders, and returns what they leave.
fn end_all(alloc: Global, forwarders: Vec<Forwarder>) -> Result<ForwardersEnd, Memory>
    ensures outputs { IfOk result (λ ended. ended.outputs.items
        ≡ map (λ forwarder. (forwarded_of forwarder).outputs) forwarders.items) }
    ensures sent { IfOk result (λ ended. ended.sent.items
        ≡ map (λ forwarder. (forwarded_of forwarder).sent) forwarders.items) }
    ensures skipped { IfOk result (λ ended. ended.skipped.items
        ≡ map (λ forwarder. (forwarded_of forwarder).skipped) forwarders.items) }
{
    let mut ended = ForwardersEnd {
        outputs: Vec::new(alloc),
        sent: Vec::new(alloc),
        skipped: Vec::new(alloc),
    };
    for forwarder in forwarders {
        let forwarded = forwarder.end()?;
        ended.outputs.push(forwarded.outputs)?;
        ended.sent.push(forwarded.sent)?;
        ended.skipped.push(forwarded.skipped)?;
    }
    Ok(ended)
}

/// Runs a job on threads as `run_workers` does, with a reader for each member that also sends the
/// packets that it reads through a transmit ring of its own: the ring of the setup's request
/// without a time-out, a private area and features.
///
/// Of each packet the frame is sent, with its tag put back. A packet whose frame has fewer than 14
/// bytes, or more than fit after the header of a slot (`frame_size - 48`), is skipped. No slot is
/// refused. The only error is that an allocation fails, and the sources are dropped then. It isn't
/// promised that anything is sent before the run ends.
pub fn forward_workers<S: Source + Send, G: Gate + Sync, R: Threads + Wait + Sync>(
    rt: &R,
    alloc: Global,
    job: &Job,
    sources: Vec<Option<S>>,
    ticks: &MomentList,
    gate: &G,
) -> Result<ForwardRan<S>, Memory>
    requires request { receive_fault job.now.setup.request ≡ None }
    requires shape { job.now.setup.shape ≡ job.now.setup.request }
    requires sources { length sources.items ≡ length job.now.setup.cpus }
    requires moments { AreMoments ticks.now }

    // The report is that of a run with readers.
    ensures ran { IfOk result (λ ran. IsCaptureRun job.now ticks.now
        (map (option_map S.seen) sources.items)
        (map (option_map S.seen) ran.sources.items)
        ran.report) }

    // Of each member's packets those that fit were sent, in order, and the others were counted.
    ensures sent { IfOk result (λ ran. ran.sent.items
        ≡ map (sent_for (room_of job.now.setup.shape)) ran.report.members) }
    ensures skipped { IfOk result (λ ran. ran.skipped.items
        ≡ map (skipped_for (room_of job.now.setup.shape)) ran.report.members) }
{
    let setup = &job.setup;
    let tx = tx_shape(&setup.request);
    let forwarders = forwarders_of(alloc, setup.plan.members(), &setup.shape, &tx, setup.dump)?;
    let workers = run_takers(rt, alloc, job, sources, ticks, gate, forwarders)?;
    let ended = end_all(alloc, workers.takers)?;
    let report = report_run(
        alloc,
        workers.cpus,
        workers.notes,
        workers.rings,
        ended.outputs,
    )?;
    Ok(ForwardRan {
        report,
        sent: ended.sent,
        skipped: ended.skipped,
        sources: workers.sources,
    })
}
