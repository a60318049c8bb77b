//! The moments of the ticks, which every member gets.
ghost use Rattle.std.specs.Prelude.{◌≡◌, false, option_copied, IfOk};
ghost use Rattle.text_lines.specs.Words.{words_of};
ghost use Rattle.setup_text.specs.Answers.{IsOnlyWant, IsRight, is_kind_want, is_text_want, leaves};
ghost use Rattle.setup_text.specs.Answers.{ticks_memory};
ghost use Rattle.setup_text.specs.Sound.{AreMoments};
ghost use Rattle.setup_text.specs.Moments.{latest, moment_in, moments_of, only_of, with_one};

use crate::{TextError, TextKind, Which};
use frame_view::MomentList;
use std::alloc::Global;
use text_lines::{LARGEST_TEXT, is_passed_over, is_plain, next_line, next_word, number};

/// Reads moments in milliseconds, one a line, each at most 4,294,967,295 and none less than the one
/// before.
///
/// Returns `TooLarge` for more than 1,048,576 bytes, with line 0. Then the first line with a fault
/// is reported, with its number from 1: `BadLine` for a byte that is neither printable ASCII nor
/// space nor tab and for more than one word, `BadNumber` for a word that isn't a number, and
/// `NotAscending`. `Memory`, an allocation that failed, has line 0.
pub fn read_ticks(alloc: Global, text: &[u8]) -> Result<MomentList, TextError>
    ensures right { IsRight is_text_want result (moments_of text.now) }
    ensures memory { IsOnlyWant is_text_want ticks_memory result }
    ensures sound { IfOk result AreMoments }
{
    if text.len() > LARGEST_TEXT {
        return Err(fault(0, TextKind::TooLarge));
    }
    let mut moments = MomentList::new(alloc);
    let mut rest = text;
    let mut number: u32 = 1;
    while let Some((line, behind)) = next_line(rest) {
        if !is_passed_over(line) {
            if let Err(kind) = add_moment(&mut moments, line) {
                return Err(fault(number, kind));
            }
        }
        rest = behind;
        number += 1;
    }
    Ok(moments)
}

/// A fault of the moments. A failed allocation isn't a fault of any line.
fn fault(line: u32, kind: TextKind) -> TextError
    ensures fault { is_kind_want kind ≡ false
        → result ≡ record { which = Which.Ticks; line = line; kind = kind } }
    ensures memory { kind ≡ TextKind.Memory → result ≡ ticks_memory }
    ensures kind { result.kind ≡ kind }
{
    let which = Which::Ticks;
    match kind {
        TextKind::Memory => TextError {
            which,
            line: 0,
            kind,
        },
        _ => TextError { which, line, kind },
    }
}

/// Adds the moment of a line.
fn add_moment(moments: &mut MomentList, line: &[u8]) -> Result<(), TextKind>
    ensures moment { IsRight is_kind_want (leaves moments.new result)
        (with_one moments.old (moment_in (latest moments.old) line.now)) }
    ensures memory { IsOnlyWant is_kind_want TextKind.Memory result }
{
    let before = moments.as_slice().last().copied().unwrap_or(0);
    let moment = moment(before, line)?;
    moments.push(moment)?;
    Ok(())
}

/// The moment of a line, given the one before.
#[tactic(auto, unfolding(crate::specs::Moments::moment_in))]
fn moment(before: u64, line: &[u8]) -> Result<u64, TextKind>
    ensures moment { result ≡ moment_in before line.now }
    ensures memory { IsOnlyWant is_kind_want TextKind.Memory result }
{
    if !is_plain(line) {
        return Err(TextKind::BadLine);
    }
    let Some(word) = only_word(line) else {
        return Err(TextKind::BadLine);
    };
    match number(word) {
        None => Err(TextKind::BadNumber),
        Some(moment) if u64::from(moment) < before => Err(TextKind::NotAscending),
        Some(moment) => Ok(u64::from(moment)),
    }
}

/// The word of a line that has only one.
pub(crate) fn only_word(line: &[u8]) -> Option<&[u8]>
    ensures { option_copied result ≡ only_of (words_of line.now) }
{
    let (word, rest) = next_word(line)?;
    match next_word(rest) {
        None => Some(word),
        Some(_) => None,
    }
}
