//! What a reader answers, as the line that the program prints for it.
use frame_view::Memory;
use setup_text::{Command, TextError, Which, read_filter, read_schedule, read_setup, read_ticks};
use std::alloc::Global;
use std::process::Abort;
use tap_printing::{setup_refusal, text_refusal};

/// A setup with the lines that each one needs, five of them.
pub(crate) const NEEDED: &str =
    "block_size 4096\nblock_nr 2\nframe_size 2048\nframe_nr 4\ncpu a.pcap\n";

/// Two texts, one after another.
pub(crate) fn joined(alloc: Global, first: &str, second: &str) -> Result<Vec<u8>, Memory> {
    let mut text = first.as_bytes().to_vec(alloc)?;
    text.extend_from_slice(second.as_bytes())?;
    Ok(text)
}

/// The line that refuses a setup for a command; empty if it is accepted.
pub(crate) fn setup_answer(alloc: Global, text: &[u8], command: Command) -> Result<String, Memory> {
    match read_setup(alloc, text, command) {
        Ok(_) => Ok(String::new(alloc)),
        Err(error) => setup_refusal(alloc, &error),
    }
}

/// The line that refuses a setup of the five lines that are needed and others after them.
fn answer_to_added(alloc: Global, lines: &str, command: Command) -> Result<String, Memory> {
    let text = joined(alloc, NEEDED, lines)?;
    setup_answer(alloc, &text, command)
}

/// The first fault of a text, if it has one: of a schedule for two CPUs and three members.
fn text_fault(alloc: Global, which: Which, text: &[u8]) -> Option<TextError> {
    match which {
        Which::Filter => read_filter(alloc, text).err(),
        Which::Ticks => read_ticks(alloc, text).err(),
        Which::Schedule => read_schedule(alloc, text, 2, 3).err(),
    }
}

/// The line that refuses such a text; empty if it is accepted.
fn text_answer(alloc: Global, which: Which, text: &[u8]) -> Result<String, Memory> {
    match text_fault(alloc, which, text) {
        None => Ok(String::new(alloc)),
        Some(error) => text_refusal(alloc, &error),
    }
}

/// What a text is read as.
#[derive(Clone, Copy, Debug)]
pub(crate) enum Reading {
    /// The whole setup of a command.
    Setup(Command),
    /// Lines after the five that each setup needs.
    Added(Command),
    /// A filter, moments or a schedule.
    Side(Which),
}

/// A text, and the line that refuses it; empty if it is accepted.
pub(crate) type Row = (&'static str, &'static str);

/// The line that refuses a text; empty if it is accepted.
fn answer(alloc: Global, reading: Reading, text: &str) -> Result<String, Memory> {
    match reading {
        Reading::Setup(command) => setup_answer(alloc, text.as_bytes(), command),
        Reading::Added(command) => answer_to_added(alloc, text, command),
        Reading::Side(which) => text_answer(alloc, which, text.as_bytes()),
    }
}

/// Compares the answer to each text with its row.
pub(crate) fn check_rows(
    rt: &impl Abort,
    alloc: Global,
    reading: Reading,
    rows: &[Row],
) -> Result<(), Memory> {
    for (text, line) in rows {
        let found = answer(alloc, reading, text)?;
        assert_eq!(rt; found.as_str(), *line, "{reading:?} {text}");
    }
    Ok(())
}
