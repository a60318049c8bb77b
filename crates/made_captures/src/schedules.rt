//! The schedule that replays made captures.
ghost use Rattle.std.specs.Prelude.{◌≡◌, ◌<◌, ◌++◌, IfOk, OnOk};
ghost use Rattle.made_captures.specs.Made.{made_lines, feed_lines, read_lines};

use frame_view::Memory;
use setup_text::{Line, Schedule};
use std::alloc::Global;

/// The schedule of `count` made frames: CPU i modulo the number of CPUs is fed for each i, and
/// after every 64th feed each member from 0 up is read twice. The only error is that an allocation
/// fails. The schedule is this project's own choice.
#[tactic(auto, using(crate::proofs::Scheduled::steps), unfolding(crate::specs::Made::made_lines))]
pub fn made_schedule(alloc: Global, count: u32, cpus: u32, members: u32) -> Result<Schedule, Memory>
    requires { 0 < cpus }
    ensures lines { IfOk result (λ lines. lines ≡ made_lines count cpus members) }
{
    let mut lines = Vec::new(alloc);
    for index in 0..count {
        push_feed(&mut lines, index, cpus, members)?;
    }
    Ok(Schedule::from_vec(lines))
}

/// Appends a feed, and the reads that follow it if its number is a multiple of 64.
#[tactic(auto, unfolding(crate::specs::Made::feed_lines))]
fn push_feed(lines: &mut Vec<Line>, index: u32, cpus: u32, members: u32) -> Result<(), Memory>
    requires { 0 < cpus }
    ensures { OnOk result (lines.new.items ≡ lines.old.items ++ feed_lines cpus members index) }
{
    lines.push(Line::Feed(index % cpus))?;
    if index % 64 == 63 {
        push_reads(lines, members)?;
    }
    Ok(())
}

/// Appends two reads of each member from 0 up.
#[tactic(auto, using(crate::proofs::Scheduled::steps), unfolding(crate::specs::Made::read_lines))]
fn push_reads(lines: &mut Vec<Line>, members: u32) -> Result<(), Memory>
    ensures { OnOk result (lines.new.items ≡ lines.old.items ++ read_lines members) }
{
    for member in 0..members {
        lines.extend_from_slice(&[Line::Read(member); 2])?;
    }
    Ok(())
}
