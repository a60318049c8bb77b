//! What is done in a replay, line by line.
ghost use Rattle.std.specs.Prelude.{◌≡◌, false, IfOk};
ghost use Rattle.text_lines.specs.Words.{words_of};
ghost use Rattle.setup_text.specs.Answers.{IsOnlyWant, IsRight, is_kind_want, is_text_want, leaves};
ghost use Rattle.setup_text.specs.Answers.{schedule_memory};
ghost use Rattle.setup_text.specs.Moments.{only_of, with_one};
ghost use Rattle.setup_text.specs.Sound.{IsScheduleFor};
ghost use Rattle.setup_text.specs.Schedules.{clock_after, clock_of, line_in, line_with};
ghost use Rattle.setup_text.specs.Schedules.{schedule_of, valued, verb_named};

use crate::lines::{Line, Schedule};
use crate::moments::only_word;
use crate::{TextError, TextKind, Which};
use std::alloc::Global;
use text_lines::{LARGEST_TEXT, is_passed_over, is_plain, next_line, next_word, number};

/// Reads a schedule for these numbers of CPUs and members. Its lines are `feed C`, `read M`, `tick
/// MS` and `stats M`.
///
/// Returns `TooLarge` for more than 1,048,576 bytes, with line 0. Then the first line with a fault
/// is reported, with its number from 1. Within a line it is the first of these: `BadLine` for a
/// byte that is neither printable ASCII nor space nor tab, `UnknownWord` for its first word,
/// `BadLine` for no value or more than one, `BadNumber` for a value that isn't a number,
/// `NoSuchCpu` and `NoSuchMember` for a number that isn't below the counts, and `NotAscending` for
/// a moment less than the one before. `Memory`, an allocation that failed, has line 0.
pub fn read_schedule(
    alloc: Global,
    text: &[u8],
    cpus: u32,
    members: u32,
) -> Result<Schedule, TextError>
    ensures right { IsRight is_text_want result (schedule_of cpus members text.now) }
    ensures memory { IsOnlyWant is_text_want schedule_memory result }
    ensures sound { IfOk result (IsScheduleFor cpus members) }
{
    if text.len() > LARGEST_TEXT {
        return Err(fault(0, TextKind::TooLarge));
    }
    let mut lines = Schedule::new(alloc);
    let mut clock = 0;
    let mut rest = text;
    let mut number: u32 = 1;
    while let Some((line, behind)) = next_line(rest) {
        if !is_passed_over(line) {
            match add_line(&mut lines, clock, line, cpus, members) {
                Ok(after) => clock = after,
                Err(kind) => return Err(fault(number, kind)),
            }
        }
        rest = behind;
        number += 1;
    }
    Ok(lines)
}

/// A fault of the schedule. A failed allocation isn't a fault of any line.
fn fault(line: u32, kind: TextKind) -> TextError
    ensures fault { is_kind_want kind ≡ false
        → result ≡ record { which = Which.Schedule; line = line; kind = kind } }
    ensures memory { kind ≡ TextKind.Memory → result ≡ schedule_memory }
    ensures kind { result.kind ≡ kind }
{
    let which = Which::Schedule;
    match kind {
        TextKind::Memory => TextError {
            which,
            line: 0,
            kind,
        },
        _ => TextError { which, line, kind },
    }
}

/// Adds what a line says, and returns the clock after it.
fn add_line(
    lines: &mut Schedule,
    clock: u64,
    text: &[u8],
    cpus: u32,
    members: u32,
) -> Result<u64, TextKind>
    requires { clock ≡ clock_of lines.old }
    ensures line { IsRight is_kind_want (leaves lines.new result)
        (with_one lines.old (line_in cpus members (clock_of lines.old) text.now)) }
    ensures clock { IfOk result (λ clock. clock ≡ clock_of lines.new) }
    ensures memory { IsOnlyWant is_kind_want TextKind.Memory result }
{
    let line = line_of(clock, text, cpus, members)?;
    lines.push(line)?;
    match line {
        Line::Tick(moment) => Ok(moment),
        Line::Feed(_) | Line::Read(_) | Line::Stats(_) => Ok(clock),
    }
}

/// What a line says, given the clock before it.
#[tactic(auto, unfolding(crate::specs::Schedules::line_in))]
fn line_of(clock: u64, text: &[u8], cpus: u32, members: u32) -> Result<Line, TextKind>
    ensures line { result ≡ line_in cpus members clock text.now }
    ensures memory { IsOnlyWant is_kind_want TextKind.Memory result }
{
    if !is_plain(text) {
        return Err(TextKind::BadLine);
    }
    let Some((first, values)) = next_word(text) else {
        return Err(TextKind::BadLine);
    };
    let Some(verb) = Verb::named(first) else {
        return Err(TextKind::UnknownWord);
    };
    let Some(word) = only_word(values) else {
        return Err(TextKind::BadLine);
    };
    match number(word) {
        Some(number) => verb.with(number, cpus, members, clock),
        None => Err(TextKind::BadNumber),
    }
}

/// A word with which a line of a schedule begins.
#[derive(Clone, Copy)]
enum Verb {
    /// A CPU gets its next frame.
    Feed,
    /// A member's reader makes one step.
    Read,
    /// The clock goes on.
    Tick,
    /// A member's statistics are taken.
    Stats,
}

impl Verb {
    /// The word with this spelling.
    #[tactic(auto, unfolding(crate::specs::Schedules::verb_named))]
    fn named(word: &[u8]) -> Option<Verb>
        ensures { result ≡ verb_named word.now }
    {
        if word == b"feed".as_slice() {
            Some(Verb::Feed)
        } else if word == b"read".as_slice() {
            Some(Verb::Read)
        } else if word == b"tick".as_slice() {
            Some(Verb::Tick)
        } else if word == b"stats".as_slice() {
            Some(Verb::Stats)
        } else {
            None
        }
    }

    /// The step for a number, which has to be below the count of what it names, or not before the
    /// clock.
    #[tactic(auto, unfolding(crate::specs::Schedules::line_with))]
    fn with(self, number: u32, cpus: u32, members: u32, clock: u64) -> Result<Line, TextKind>
        ensures line { result ≡ line_with cpus members clock self number }
        ensures memory { IsOnlyWant is_kind_want TextKind.Memory result }
    {
        match self {
            Verb::Feed if number < cpus => Ok(Line::Feed(number)),
            Verb::Feed => Err(TextKind::NoSuchCpu),
            Verb::Read if number < members => Ok(Line::Read(number)),
            Verb::Stats if number < members => Ok(Line::Stats(number)),
            Verb::Read | Verb::Stats => Err(TextKind::NoSuchMember),
            Verb::Tick if u64::from(number) < clock => Err(TextKind::NotAscending),
            Verb::Tick => Ok(Line::Tick(u64::from(number))),
        }
    }
}
