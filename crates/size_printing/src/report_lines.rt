//! All lines of what is found out about the rings of a group.
ghost use Rattle.std.specs.Prelude.{◌≡◌, ◌++◌, IfOk, OnOk, string_bytes};
ghost use Rattle.size_printing.specs.SizeLines.{file_lines, member_drops_lines, member_ring_lines};
ghost use Rattle.size_printing.specs.SizeLines.{size_lines, total_lines};

use crate::ring_lines::{group_line, member_drops_line, member_ring_line, total_drops_line};
use crate::{ReadFile, SizeReport};
use frame_view::{ByteList, Memory};
use ring_sizes::{DropRange, Reached};
use run_reports::RingKind;
use std::alloc::Global;
use tap_printing::{cpu_text, push_line};

/// The lines of what is found out about the rings of a group, each ended by a line feed: those of
/// the files, of the members' rings and of the group's, and then of what the setup's own rings
/// drop, each and all together. `kind` is what the rings are made of, and `unit` the bytes of a
/// block, or of a slot. The lines are this project's own choice.
#[tactic(auto, unfolding(crate::specs::SizeLines::size_lines))]
pub fn size_lines(
    alloc: Global,
    kind: RingKind,
    unit: u32,
    report: &SizeReport,
) -> Result<ByteList, Memory>
    ensures { IfOk result (λ text. text ≡ size_lines kind unit report.now) }
{
    let mut text = Vec::new(alloc);
    push_files(alloc, &mut text, report.files.as_slice())?;
    push_rings(alloc, &mut text, kind, unit, report.members.as_slice())?;
    push_line(&mut text, group_line(alloc, kind, unit, report.group)?)?;
    push_drops(alloc, &mut text, report.drops.as_slice())?;
    push_total(alloc, &mut text, report.total)?;
    Ok(ByteList::from_vec(text))
}

/// Appends the line of each file that was read, ended by a line feed.
pub fn push_files(alloc: Global, text: &mut Vec<u8>, files: &[ReadFile]) -> Result<(), Memory>
    ensures { OnOk result (text.new.items ≡ text.old.items ++ file_lines files.now) }
{
    for file in files {
        let cpu = file.cpu as usize;
        let arrivals = file.arrivals as usize;
        push_line(text, cpu_text(alloc, cpu, file.frames, arrivals, file.end)?)?;
    }
    Ok(())
}

/// Appends the lines of the members' rings, from member 0 up.
fn push_rings(
    alloc: Global,
    text: &mut Vec<u8>,
    kind: RingKind,
    unit: u32,
    members: &[Reached],
) -> Result<(), Memory>
    ensures { OnOk result (text.new.items
        ≡ text.old.items ++ member_ring_lines kind unit 0 members.now) }
{
    for (member, found) in members.iter().enumerate() {
        push_line(text, member_ring_line(alloc, kind, unit, member, *found)?)?;
    }
    Ok(())
}

/// Appends the lines of the members' drops, from member 0 up.
fn push_drops(alloc: Global, text: &mut Vec<u8>, members: &[DropRange]) -> Result<(), Memory>
    ensures { OnOk result (text.new.items
        ≡ text.old.items ++ member_drops_lines 0 members.now) }
{
    for (member, drops) in members.iter().enumerate() {
        push_line(text, member_drops_line(alloc, member, *drops)?)?;
    }
    Ok(())
}

/// Appends the line of what all members together drop, if it was found out.
fn push_total(alloc: Global, text: &mut Vec<u8>, total: Option<DropRange>) -> Result<(), Memory>
    ensures { OnOk result (text.new.items ≡ text.old.items ++ total_lines total) }
{
    if let Some(drops) = total {
        push_line(text, total_drops_line(alloc, drops)?)?;
    }
    Ok(())
}
