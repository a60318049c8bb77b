//! A reader's text as a whole.
ghost use Rattle.std.specs.Prelude.{◌≡◌, false, length, IfOk, ◌≤◌, true};
ghost use Rattle.setup_text.specs.Answers.{IsOnlyWant, IsRight};
ghost use Rattle.reader_pace.specs.Answers.{is_reader_want, is_want, reader_memory};
ghost use Rattle.reader_pace.specs.Readers.{beginnings_after, draft_of, phases_after, reader_after};
ghost use Rattle.reader_pace.specs.Readers.{reader_of};
ghost use Rattle.reader_pace.specs.ReaderWords.{begins_with_slots, says_slots};
ghost use Rattle.reader_pace.specs.ReaderWords.{some_begin_with_slots};
ghost use Rattle.reader_pace.specs.Sound.{IsReader};
ghost use Rattle.text_lines.specs.Lines.{lines_of};
ghost use Rattle.text_lines.specs.Words.{words_of};

use crate::drafts::{Bounds, ReaderDraft};
use crate::reader_words::ReaderWord;
use crate::{Beginnings, MoreFiles, Pace, Phases, ReaderError, ReaderKind, StallList};
use std::alloc::Global;
use text_lines::{LARGEST_TEXT, is_passed_over, next_line, next_word};

/// How the members of a group are read, and whenever the timer and the reader may have begun.
#[derive(Debug, Drop)]
pub struct PacedReader {
    /// When the members are read.
    pub pace: Pace,
    /// The times in which no reader reads.
    pub stalls: StallList,
    /// The phases of the timer; with `slots` there is no timer, and the only phase is 0.
    pub phases: Phases,
    /// The beginnings of the reader; with `Poll` the only one is 0.
    pub beginnings: Beginnings,
    /// The further capture files of the CPUs.
    pub more: MoreFiles,
    /// Whether the ring is one of TPACKET_V2, which has slots and no timer.
    pub slots: bool,
}

/// Reads a reader's text for a setup of so many CPUs with this time-out, in milliseconds.
/// docs/reference.md says what its lines are.
///
/// Returns `TooLarge` for more than 1,048,576 bytes, with line 0. Then the first line with a fault
/// is reported, with its number from 1. If no line has one, `Missing` if no line says the pace,
/// then `BadPhase` and then `BadFrom`, each with line 0. `Memory`, an allocation that failed, has
/// line 0 too. A reader that is accepted has the kind of rings that `says_slots` reports.
pub fn read_reader(
    alloc: Global,
    text: &[u8],
    cpus: u32,
    tov: u32,
) -> Result<PacedReader, ReaderError>
    ensures right { IsRight is_reader_want result (reader_of cpus tov text.now) }
    ensures memory { IsOnlyWant is_reader_want reader_memory result }
    ensures sound { IfOk result (IsReader cpus tov) }
    ensures slots { IfOk result (λ reader. reader.slots ≡ says_slots text.now) }
{
    if text.len() > LARGEST_TEXT {
        return Err(ReaderError {
            line: 0,
            kind: ReaderKind::TooLarge,
        });
    }
    let draft = draft_of(alloc, Bounds { cpus, tov }, text)?;
    match complete(draft) {
        Ok(reader) => Ok(reader),
        Err(kind) => Err(ReaderError { line: 0, kind }),
    }
}

/// Whether a reader's text says that the rings are of slots: whether a line of it begins with the
/// word `slots`. A text of more than 1,048,576 bytes says nothing. Nothing else is tested, so that
/// a setup can be read as `replay2` takes it before the text is accepted for that setup.
pub fn says_slots(text: &[u8]) -> bool
    ensures { result ≡ says_slots text.now }
{
    if text.len() > LARGEST_TEXT {
        return false;
    }
    some_begin_with_slots(text)
}

/// Whether a line of a text begins with the word `slots`.
fn some_begin_with_slots(text: &[u8]) -> bool
    ensures { result ≡ some_begin_with_slots (lines_of text.now) }
{
    let mut rest = text;
    while let Some((line, behind)) = next_line(rest) {
        if begins_with_slots(line) {
            return true;
        }
        rest = behind;
    }
    false
}

/// Whether a line begins with the word `slots`.
fn begins_with_slots(line: &[u8]) -> bool
    ensures { result ≡ begins_with_slots (words_of line.now) }
{
    match next_word(line) {
        Some((first, _)) => matches!(ReaderWord::named(first), Some(ReaderWord::Slots)),
        None => false,
    }
}

/// What the lines of a text say.
fn draft_of(alloc: Global, bounds: Bounds, text: &[u8]) -> Result<ReaderDraft, ReaderError>
    requires { length text.now ≤ 1048576 }
    ensures right { IsRight is_reader_want result (draft_of bounds text.now) }
    ensures memory { IsOnlyWant is_reader_want reader_memory result }
{
    let mut draft = ReaderDraft::new(alloc);
    let mut rest = text;
    let mut number: u32 = 1;
    while let Some((line, behind)) = next_line(rest) {
        if !is_passed_over(line) {
            if let Err(kind) = draft.read(alloc, bounds, line) {
                return Err(at_line(number, kind));
            }
        }
        rest = behind;
        number += 1;
    }
    Ok(draft)
}

/// A fault of a line. A failed allocation isn't a fault of any line.
#[tactic(auto, using(crate::proofs::MemoryErrors::wants))]
fn at_line(number: u32, kind: ReaderKind) -> ReaderError
    ensures fault { is_want kind ≡ false → result ≡ record { line = number; kind = kind } }
    ensures memory { is_want kind ≡ true → result ≡ reader_memory }
    ensures kind { result.kind ≡ kind }
{
    match kind {
        ReaderKind::Memory => ReaderError { line: 0, kind },
        _ => ReaderError { line: number, kind },
    }
}

/// The reader of lines without a fault in any of them, or what is wrong with them together.
#[tactic(auto, unfolding(crate::specs::Readers::reader_after))]
fn complete(draft: ReaderDraft) -> Result<PacedReader, ReaderKind>
    ensures { result ≡ reader_after draft }
{
    let Some(pace) = draft.pace else {
        return Err(ReaderKind::Missing);
    };
    let phases = phases_of(draft.slots, draft.phases)?;
    let beginnings = beginnings_of(pace, draft.beginnings)?;
    Ok(PacedReader {
        pace,
        stalls: draft.stalls,
        phases,
        beginnings,
        more: draft.more,
        slots: draft.slots,
    })
}

/// The phases of a timer, of which slots have none.
#[tactic(auto, unfolding(crate::specs::Readers::phases_after))]
fn phases_of(slots: bool, said: Option<Phases>) -> Result<Phases, ReaderKind>
    ensures { result ≡ phases_after slots said }
{
    match (slots, said) {
        (true, None) => Ok(Phases::One(0)),
        (true, Some(_)) => Err(ReaderKind::BadPhase),
        (false, None) => Ok(Phases::All),
        (false, Some(phases)) => Ok(phases),
    }
}

/// The beginnings of a reader, which are below its period.
#[tactic(auto, unfolding(crate::specs::Readers::beginnings_after))]
fn beginnings_of(pace: Pace, said: Option<Beginnings>) -> Result<Beginnings, ReaderKind>
    ensures { result ≡ beginnings_after pace said }
{
    match (pace, said) {
        (Pace::Poll(_), None) => Ok(Beginnings::One(0)),
        (Pace::Poll(_), Some(_)) => Err(ReaderKind::BadFrom),
        (_, Some(Beginnings::One(from))) if !pace.has_beginning(from) => Err(ReaderKind::BadFrom),
        (_, said) => Ok(said.unwrap_or(Beginnings::All)),
    }
}
