//! The report of a run on threads.
ghost use Rattle.std.specs.Prelude.{◌≡◌, ℕ, List, length, IfOk};
ghost use Rattle.std.specs.List.{AllZip};
ghost use Rattle.capture_file.specs.declared.cpu_end.CpuEnd.{CpuEnd};
ghost use Rattle.capture_reports.specs.Reported.{IsCaptured, IsGroupRun};
ghost use Rattle.cpu_feeders.specs.Reports.{AreOutputsOf, member_reports, report_of};
ghost use Rattle.run_reports.specs.Reports.{IsRunReport};
ghost use Rattle.run_reports.specs.RingRules.{block_rules};
ghost use Rattle.setup_text.specs.declared.jobs.Job.{Job};

use crate::list_ends::first_of;
use capture_reports::{threads_report_a_capture, threads_report_a_run};
use fanout_group::CpuLogList;
use frame_view::Memory;
use reader_walk::Outputs;
use ring_model::Notes;
use ring_words::Pending;
use run_reports::{MemberList, MemberReport, RunReport};
use std::alloc::Global;
use std::collections::VecDeque;
use tp_layout::Block;

/// The reports of members, with the ring of each and what was read of its blocks.
fn members_of(
    alloc: Global,
    notes: Vec<Notes>,
    rings: Vec<Pending<Block>>,
    outputs: Vec<Outputs>,
) -> Result<MemberList, Memory>
    requires rings { length rings.items ≡ length notes.items }
    requires outputs { length outputs.items ≡ length notes.items }
    ensures { IfOk result (λ members.
        members ≡ member_reports notes.items rings.items outputs.items) }
{
    let mut members = MemberList::new(alloc);
    let mut rings = VecDeque::from(rings);
    let mut outputs = VecDeque::from(outputs);
    for notes in notes {
        let ring = first_of(&mut rings);
        let read = first_of(&mut outputs);
        members.push(MemberReport {
            notes,
            walked: read.walked,
            dump: read.dump,
            blocks: read.blocks,
            ring: Some(ring),
        })?;
    }
    Ok(members)
}

/// Reports what a run on threads leaves: what is logged of each CPU, and of each member, from 0 up,
/// its notes, its ring and what was read of its blocks. The only error is that an allocation fails.
pub fn report_run(
    alloc: Global,
    cpus: CpuLogList,
    notes: Vec<Notes>,
    rings: Vec<Pending<Block>>,
    outputs: Vec<Outputs>,
) -> Result<RunReport, Memory>
    requires rings { length rings.items ≡ length notes.items }
    requires outputs { length outputs.items ≡ length notes.items }
    ensures report { IfOk result (λ report.
        report ≡ report_of cpus notes.items rings.items outputs.items) }

    // If these are what a job left, and the outputs those of all blocks, the report is the job's.
    ensures ran { IfOk result (λ report.
        (job : Job) (moments : List ℕ) (bytes : List (List ℕ)) (ends : List CpuEnd)
        → IsGroupRun job moments bytes ends cpus notes.items rings.items
        → AllZip (AreOutputsOf job.setup.shape job.setup.dump) notes.items outputs.items
        → IsRunReport (block_rules job.setup.shape) job bytes ends report
        × IsCaptured job.setup.shape moments report) }
{
    threads_report_a_run();
    threads_report_a_capture();
    let members = members_of(alloc, notes, rings, outputs)?;
    Ok(RunReport { cpus, members })
}
