//! A report as text: the tickets and tries of each CPU, and the notes of each member.
use fanout_group::{ArrivalLog, CpuLog, Fate, Try};
use frame_view::Memory;
use ring_model::{Found, Note};
use run_reports::{MemberReport, RunReport};
use std::alloc::Global;

/// One of the letters for what was found of the next block: it wasn't looked at, it was free, or it
/// was still the reader's; and the number of the block that was the reader's, else 1.
fn found_letter(letters: [&'static str; 3], found: Found) -> (&'static str, u64) {
    let [unasked, free, held] = letters;
    match found {
        Found::NotAsked => (unasked, 1),
        Found::Free => (free, 1),
        Found::Held(number) => (held, number),
    }
}

/// Appends the letter of a note: `k` for a packet kept without looking at the next block, `n` for
/// one that opened it, `r` for one refused and `d` for one dropped; for a tick `t` if the next
/// block wasn't looked at, `T` if it was free and `H` if it was still the reader's; `c` if
/// statistics were taken, and a point at the end. After `r`, `d` and `H` comes the number of the
/// block that was still the reader's, if it isn't 1.
fn push_note(text: &mut String, note: &Note) -> Result<(), Memory> {
    let (letter, number) = match note {
        Note::Kept { found, .. } => found_letter(["k", "n", "?"], *found),
        Note::Refused { number, .. } => ("r", *number),
        Note::Dropped { number, .. } => ("d", *number),
        Note::Ticked { found, .. } => found_letter(["t", "T", "H"], *found),
        Note::Counted => ("c", 1),
        Note::Finished => (".", 1),
    };
    text.push_str(letter)?;
    if number != 1 {
        write!(text, "{number}")?;
    }
    Ok(())
}

/// Appends the line of a member: its notes, and the numbers of the packets and of the blocks that
/// its reader walked.
fn push_member(text: &mut String, member: &MemberReport) -> Result<(), Memory> {
    for note in member.notes.as_slice() {
        push_note(text, note)?;
    }
    write!(text, " {} {}\n", member.walked.len(), member.blocks)?;
    Ok(())
}

/// Appends the letter of a try's result, and its member.
fn push_try(text: &mut String, tried: Try) -> Result<(), Memory> {
    let letter = match tried.fate {
        Fate::Kept => "k",
        Fate::Refused => "r",
        Fate::Dropped => "d",
    };
    write!(text, "{letter}{}", tried.member)?;
    Ok(())
}

/// Appends an arrival: its index if that isn't the expected one, its ticket if it has one, its
/// tries, and a point.
fn push_arrival(text: &mut String, arrival: &ArrivalLog, due: usize) -> Result<(), Memory> {
    if arrival.index as usize != due {
        write!(text, "@{} ", arrival.index)?;
    }
    if let Some(ticket) = arrival.ticket {
        write!(text, "{ticket}")?;
    }
    for tried in arrival.tries.as_slice() {
        push_try(text, *tried)?;
    }
    Ok(text.push_str(".")?)
}

/// Appends the line of a CPU: its arrivals, and how many bytes its capture gave.
fn push_cpu(text: &mut String, log: &CpuLog) -> Result<(), Memory> {
    for (due, arrival) in log.arrivals.as_slice().iter().enumerate() {
        push_arrival(text, arrival, due)?;
    }
    write!(text, " {}\n", log.given)?;
    Ok(())
}

/// The text of a report: a line for each CPU and then one for each member. A CPU's line is its
/// arrivals, each with its index if that isn't the expected one, its ticket if it has one, and its
/// tries with the result and the member of each; and how many bytes its capture gave. A member's is
/// the letters of its notes, and the numbers of the packets and of the blocks that its reader
/// walked.
pub(crate) fn report_text(alloc: Global, report: &RunReport) -> Result<String, Memory> {
    let mut text = String::new(alloc);
    for log in report.cpus.as_slice() {
        push_cpu(&mut text, log)?;
    }
    for member in report.members.as_slice() {
        push_member(&mut text, member)?;
    }
    Ok(text)
}
