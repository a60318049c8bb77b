//! The lines of CPUs, and the sums over them.
ghost use Rattle.std.specs.Prelude.{◌≡◌, ◌++◌, IfOk, OnOk, string_bytes};
ghost use Rattle.tap_printing.specs.Lines.{arrivals_in, cpu_line, cpu_lines, cpu_text, damage_text};
ghost use Rattle.tap_printing.specs.Lines.{end_text};
ghost use Rattle.tap_printing.specs.Lines.{filtered_in};

use crate::lines::push_line;
use capture_file::{CaptureError, CpuEnd};
use fanout_group::CpuLog;
use frame_view::Memory;
use std::alloc::Global;

/// Appends the lines of CPUs, from 0 up.
pub(crate) fn push_cpus(alloc: Global, text: &mut Vec<u8>, logs: &[CpuLog]) -> Result<(), Memory>
    ensures { OnOk result (text.new.items ≡ text.old.items ++ cpu_lines 0 logs.now) }
{
    for (cpu, log) in logs.iter().enumerate() {
        push_line(text, cpu_line(alloc, cpu, log)?)?;
    }
    Ok(())
}

/// The line of a CPU.
fn cpu_line(alloc: Global, cpu: usize, log: &CpuLog) -> Result<String, Memory>
    ensures { IfOk result (λ line. string_bytes line ≡ cpu_line cpu log.now) }
{
    cpu_text(alloc, cpu, log.frames, log.arrivals.len(), log.end)
}

/// The line of a CPU, or of one of its files, ended by a line feed: with so many frames, with so
/// many of which a frame arrived, and this end. The words are this project's own choice.
#[tactic(auto, unfolding(crate::specs::Lines::cpu_text))]
pub fn cpu_text(
    alloc: Global,
    cpu: usize,
    frames: u32,
    arrivals: usize,
    end: CpuEnd,
) -> Result<String, Memory>
    ensures { IfOk result (λ line. string_bytes line ≡ cpu_text cpu frames arrivals end) }
{
    let end = end_text(alloc, end)?;
    Ok(format!(in alloc; "cpu {cpu} frames {frames} arrivals {arrivals} end {end}\n")?)
}

/// How the frames of a CPU ended.
#[tactic(auto, unfolding(crate::specs::Lines::end_text))]
pub(crate) fn end_text(alloc: Global, end: CpuEnd) -> Result<String, Memory>
    ensures { IfOk result (λ text. string_bytes text ≡ end_text end) }
{
    match end {
        CpuEnd::Whole => Ok(format!(in alloc; "ok")?),
        CpuEnd::Fault => Ok(format!(in alloc; "fault")?),
        CpuEnd::Damaged(error) => damage_text(alloc, error),
    }
}

/// What is wrong with a capture, and where.
#[tactic(auto, unfolding(crate::specs::Lines::damage_text))]
fn damage_text(alloc: Global, error: CaptureError) -> Result<String, Memory>
    ensures { IfOk result (λ text. string_bytes text ≡ damage_text error) }
{
    let text = match error {
        CaptureError::BadMagic => String::from_str(alloc, "bad_magic 0")?,
        CaptureError::BadVersion => String::from_str(alloc, "bad_version 0")?,
        CaptureError::BadLink(_) => String::from_str(alloc, "bad_link 0")?,
        CaptureError::BadLength(place) => format!(in alloc; "bad_length {place}")?,
        CaptureError::Truncated(place) => format!(in alloc; "truncated {place}")?,
        CaptureError::TooLarge => String::from_str(alloc, "too_large 33554432")?,
        CaptureError::BadInterface(place) => format!(in alloc; "bad_interface {place}")?,
        CaptureError::Memory => String::new(alloc),
    };
    Ok(text)
}

/// The number of all arrivals.
pub(crate) fn arrivals_in(logs: &[CpuLog]) -> u128
    ensures { result ≡ arrivals_in logs.now }
{
    let mut arrivals = 0;
    for log in logs {
        arrivals += log.arrivals.len() as u128;
    }
    arrivals
}

/// The number of arrivals that the filter refused.
pub(crate) fn filtered_in(logs: &[CpuLog]) -> u128
    ensures { result ≡ filtered_in logs.now }
{
    let mut filtered = 0;
    for log in logs {
        let entries = log.arrivals.as_slice();
        filtered += entries.iter().filter(|entry| entry.verdict == 0).count() as u128;
    }
    filtered
}
