//! The lines of members, and the sums over them.
ghost use Rattle.std.specs.Prelude.{◌≡◌, ◌+◌, ◌-◌, ◌^◌, ◌<◌, ◌++◌, ◌≤◌, IfOk, OnOk, flat_map};
ghost use Rattle.std.specs.Prelude.{option_copied, string_bytes};
ghost use Rattle.ring_model.specs.Ring.{AtEachSize};
ghost use Rattle.tap_printing.specs.Lines.{count_line, drops_in, forward_line, forward_text};
ghost use Rattle.tap_printing.specs.Lines.{kept_in, lines_at, member_line, member_lines};
ghost use Rattle.tap_printing.specs.Lines.{member_text, stats_text};
ghost use Rattle.tap_printing.specs.Statistics.{seen_by, totals_by};

use crate::kind_stats::seen;
use crate::lines::push_line;
use frame_view::Memory;
use ring_model::{Stats, Tally, tally_notes};
use run_reports::{Forwards, MemberReport, RingKind};
use std::alloc::Global;

/// Numbers of packets over several members.
#[derive(Clone, Copy)]
pub(crate) struct Passed {
    pub(crate) kept: u128,
    pub(crate) drops: u128,
}

impl Passed {
    /// Adds the packets of a member.
    fn add(&mut self, stats: Stats)
        requires fewer { stats.drops ≤ stats.packets }
        requires small_kept { self.old.kept < 2 ^ 127 }
        requires small_drops { self.old.drops < 2 ^ 127 }
        ensures kept { self.new.kept ≡ self.old.kept + (stats.packets - stats.drops) }
        ensures drops { self.new.drops ≡ self.old.drops + stats.drops }
    {
        self.kept += u128::from(stats.packets - stats.drops);
        self.drops += u128::from(stats.drops);
    }
}

/// Appends the lines of members, from 0 up, and returns how many packets they kept and dropped. If
/// members send, the line of what a member sent comes after its own.
pub(crate) fn push_members(
    alloc: Global,
    text: &mut Vec<u8>,
    kind: RingKind,
    tov: u64,
    members: &[MemberReport],
    forwards: Option<&Forwards>,
) -> Result<Passed, Memory>
    ensures lines { OnOk result (AtEachSize tov (λ size. text.new.items
        ≡ text.old.items
        ++ member_lines kind size (option_copied forwards.entry) 0 members.now)) }
    ensures kept { IfOk result
        (λ passed. AtEachSize tov
        (λ size. passed.kept ≡ kept_in (totals_by kind size) members.now)) }
    ensures drops { IfOk result
        (λ passed. AtEachSize tov
        (λ size. passed.drops ≡ drops_in (totals_by kind size) members.now)) }
{
    let mut passed = Passed { kept: 0, drops: 0 };
    for (member, report) in members.iter().enumerate() {
        let stats = push_lines(alloc, text, kind, tov, member, report, forwards)?;
        passed.add(stats);
    }
    Ok(passed)
}

/// Appends the lines of a member and that of what it sent, and returns its statistics over the
/// whole run.
#[tactic(auto, unfolding(crate::specs::Lines::lines_at))]
fn push_lines(
    alloc: Global,
    text: &mut Vec<u8>,
    kind: RingKind,
    tov: u64,
    member: usize,
    report: &MemberReport,
    forwards: Option<&Forwards>,
) -> Result<Stats, Memory>
    ensures lines { OnOk result (AtEachSize tov (λ size. text.new.items
        ≡ text.old.items ++ lines_at kind size (option_copied forwards.entry) member report.now)) }
    ensures stats { IfOk result
        (λ stats. AtEachSize tov (λ size. stats ≡ totals_by kind size report.now.notes)) }
    ensures fewer { IfOk result (λ stats. stats.drops ≤ stats.packets) }
{
    let stats = push_member(alloc, text, kind, tov, member, report)?;
    push_forward(alloc, text, member, forwards)?;
    Ok(stats)
}

/// Appends the lines of a member, and returns its statistics over the whole run.
#[tactic(auto, unfolding(crate::specs::Lines::member_text))]
fn push_member(
    alloc: Global,
    text: &mut Vec<u8>,
    kind: RingKind,
    tov: u64,
    member: usize,
    report: &MemberReport,
) -> Result<Stats, Memory>
    ensures lines { OnOk result (AtEachSize tov
        (λ size. text.new.items ≡ text.old.items ++ member_text kind size member report.now)) }
    ensures stats { IfOk result
        (λ stats. AtEachSize tov (λ size. stats ≡ totals_by kind size report.now.notes)) }
    ensures fewer { IfOk result (λ stats. stats.drops ≤ stats.packets) }
{
    let tally = tally_notes(alloc, tov, &report.notes)?;
    let totals = seen(kind, tally.totals);
    push_line(text, member_line(alloc, member, totals, report.blocks)?)?;
    push_counts(alloc, text, kind, member, tally.counts.as_slice())?;
    Ok(totals)
}

/// Appends the line of what a member sent, if members send.
#[tactic(auto, unfolding(crate::specs::Lines::forward_text))]
fn push_forward(
    alloc: Global,
    text: &mut Vec<u8>,
    member: usize,
    forwards: Option<&Forwards>,
) -> Result<(), Memory>
    ensures { OnOk result (text.new.items
        ≡ text.old.items ++ forward_text (option_copied forwards.entry) member) }
{
    let Some(forwards) = forwards else {
        return Ok(());
    };
    let (sent, skipped) = (forwards.sent.get(member), forwards.skipped.get(member));
    if let (Some(sent), Some(skipped)) = (sent, skipped) {
        push_line(text, forward_line(alloc, member, sent.len(), *skipped)?)?;
    }
    Ok(())
}

/// The line of how many packets a member sent, and how many it skipped.
#[tactic(auto, unfolding(crate::specs::Lines::forward_line))]
fn forward_line(alloc: Global, member: usize, sent: usize, skipped: u64) -> Result<String, Memory>
    ensures { IfOk result (λ line. string_bytes line ≡ forward_line member sent skipped) }
{
    Ok(format!(in alloc; "forward {member} sent {sent} skipped {skipped}\n")?)
}

/// Appends the lines of the statistics that a member's notes took, each as a ring of its kind has
/// them.
fn push_counts(
    alloc: Global,
    text: &mut Vec<u8>,
    kind: RingKind,
    member: usize,
    counts: &[Stats],
) -> Result<(), Memory>
    ensures { OnOk result (text.new.items ≡ text.old.items
        ++ flat_map (λ stats. count_line member (seen_by kind stats)) counts.now) }
{
    for stats in counts {
        push_line(text, count_line(alloc, member, seen(kind, *stats))?)?;
    }
    Ok(())
}

/// The line of a member.
#[tactic(auto, unfolding(crate::specs::Lines::member_line))]
fn member_line(alloc: Global, member: usize, stats: Stats, blocks: u64) -> Result<String, Memory>
    ensures { IfOk result (λ line. string_bytes line ≡ member_line member stats blocks) }
{
    let numbers = stats_text(alloc, stats)?;
    Ok(format!(in alloc; "member {member}{numbers} blocks {blocks}\n")?)
}

/// The line of statistics that a member's notes took.
#[tactic(auto, unfolding(crate::specs::Lines::count_line))]
fn count_line(alloc: Global, member: usize, stats: Stats) -> Result<String, Memory>
    ensures { IfOk result (λ line. string_bytes line ≡ count_line member stats) }
{
    let numbers = stats_text(alloc, stats)?;
    Ok(format!(in alloc; "count {member}{numbers}\n")?)
}

/// The numbers of statistics.
#[tactic(auto, unfolding(crate::specs::Lines::stats_text))]
fn stats_text(alloc: Global, stats: Stats) -> Result<String, Memory>
    ensures { IfOk result (λ text. string_bytes text ≡ stats_text stats) }
{
    let Stats {
        packets,
        drops,
        freezes,
    } = stats;
    Ok(format!(in alloc; " packets {packets} drops {drops} freezes {freezes}")?)
}
