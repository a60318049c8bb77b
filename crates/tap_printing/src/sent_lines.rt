//! The lines of a capture that was sent.
ghost use Rattle.std.specs.Prelude.{◌≡◌, IfOk, string_bytes};
ghost use Rattle.tap_printing.specs.Lines.{send_lines, sent_cpu_line, sent_line, stop_text};

use crate::cpu_lines::end_text;
use capture_file::CpuEnd;
use frame_view::Memory;
use std::alloc::Global;
use tx_ring::Transmitted;

/// The lines of a capture of `frames` frames that was sent, with its end, each ended by a line
/// feed: that of the capture, and that of its frames' result. The lines are this project's own
/// choice.
#[tactic(auto, unfolding(crate::specs::Lines::send_lines))]
pub fn send_lines(
    alloc: Global,
    frames: usize,
    end: CpuEnd,
    sent: &Transmitted,
) -> Result<String, Memory>
    ensures { IfOk result (λ text. string_bytes text ≡ send_lines frames end sent.now) }
{
    let mut text = sent_cpu_line(alloc, frames, end)?;
    text.push_str(&sent_line(alloc, sent)?)?;
    Ok(text)
}

/// The line of a capture that was sent.
#[tactic(auto, unfolding(crate::specs::Lines::sent_cpu_line))]
fn sent_cpu_line(alloc: Global, frames: usize, end: CpuEnd) -> Result<String, Memory>
    ensures { IfOk result (λ line. string_bytes line ≡ sent_cpu_line frames end) }
{
    let end = end_text(alloc, end)?;
    Ok(format!(in alloc; "cpu 0 frames {frames} end {end}\n")?)
}

/// The line of the result for a capture's frames.
#[tactic(auto, unfolding(crate::specs::Lines::sent_line))]
fn sent_line(alloc: Global, told: &Transmitted) -> Result<String, Memory>
    ensures { IfOk result (λ line. string_bytes line ≡ sent_line told.now) }
{
    let (sent, skipped) = (told.sent, told.skipped);
    let stop = stop_text(alloc, told.stop)?;
    Ok(format!(in alloc; "send sent {sent} skipped {skipped} stop {stop}\n")?)
}

/// The frame at which a transmit ring stopped.
#[tactic(auto, unfolding(crate::specs::Lines::stop_text))]
fn stop_text(alloc: Global, stop: Option<u32>) -> Result<String, Memory>
    ensures { IfOk result (λ text. string_bytes text ≡ stop_text stop) }
{
    match stop {
        None => Ok(format!(in alloc; "none")?),
        Some(index) => Ok(format!(in alloc; "{index}")?),
    }
}
