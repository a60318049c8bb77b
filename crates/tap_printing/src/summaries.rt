//! The lines of a whole run.
ghost use Rattle.std.specs.Prelude.{◌≡◌, IfOk, option_copied, string_bytes};
ghost use Rattle.ring_model.specs.Ring.{AtEachSize};
ghost use Rattle.tap_printing.specs.Lines.{summary_of, total_line};

use crate::cpu_lines::{arrivals_in, filtered_in, push_cpus};
use crate::lines::push_line;
use crate::member_lines::{Passed, push_members};
use frame_view::{ByteList, Memory};
use run_reports::{Forwards, RingKind, RunReport};
use std::alloc::Global;

/// The lines of a run, each ended by a line feed: those of the CPUs from 0 up, those of the
/// members, each with what it sent if members send, and the sums. `kind` is what the rings are made
/// of, and `tov` their time-out in milliseconds, which rings of slots don't have. The lines are
/// this project's own choice. They depend neither on the size of a block nor on the number of
/// blocks.
#[tactic(auto, unfolding(crate::specs::Lines::summary_of))]
pub fn summary(
    alloc: Global,
    kind: RingKind,
    tov: u64,
    report: &RunReport,
    forwards: Option<&Forwards>,
) -> Result<ByteList, Memory>
    ensures { IfOk result (λ text. AtEachSize tov
        (λ size. text ≡ summary_of kind size (option_copied forwards.entry) report.now)) }
{
    let mut text = Vec::new(alloc);
    let cpus = report.cpus.as_slice();
    push_cpus(alloc, &mut text, cpus)?;
    let members = report.members.as_slice();
    let passed = push_members(alloc, &mut text, kind, tov, members, forwards)?;
    push_line(
        &mut text,
        total_line(alloc, arrivals_in(cpus), filtered_in(cpus), passed)?,
    )?;
    Ok(ByteList::from_vec(text))
}

/// The line of a run's sums.
#[tactic(auto, unfolding(crate::specs::Lines::total_line))]
fn total_line(
    alloc: Global,
    arrivals: u128,
    filtered: u128,
    passed: Passed,
) -> Result<String, Memory>
    ensures { IfOk result
        (λ line. string_bytes line ≡ total_line arrivals filtered passed.kept passed.drops) }
{
    let Passed { kept, drops } = passed;
    Ok(format!(in alloc;
        "total arrivals {arrivals} filtered {filtered} kept {kept} drops {drops}\n"
    )?)
}
