//! The numbers and names that follow a reader's word.
ghost use Rattle.std.specs.Prelude.{◌≡◌};
ghost use Rattle.setup_text.specs.Answers.{IsRight};
ghost use Rattle.reader_pace.specs.Answers.{is_want};
ghost use Rattle.reader_pace.specs.Values.{any_number, count_in, cpu_in, name_in, number_below};

use crate::ReaderKind;
use std::alloc::Global;
use tap_outside::Word;

/// The most bytes that the name of a file may have, by this project's own choice.
const LONGEST_NAME: usize = 255;

/// A number of 32 bits.
#[tactic(auto, unfolding(crate::specs::Values::any_number))]
pub(crate) fn any_number(word: &[u8]) -> Result<u32, ReaderKind>
    ensures { result ≡ any_number word.now }
{
    match text_lines::number(word) {
        Some(number) => Ok(number),
        None => Err(ReaderKind::BadNumber),
    }
}

/// A number of at least 1.
#[tactic(auto, unfolding(crate::specs::Values::count_in))]
pub(crate) fn count(word: &[u8]) -> Result<u32, ReaderKind>
    ensures { result ≡ count_in word.now }
{
    match any_number(word)? {
        0 => Err(ReaderKind::BadNumber),
        number => Ok(number),
    }
}

/// A number below `bound`.
#[tactic(auto, unfolding(crate::specs::Values::number_below))]
pub(crate) fn number_below(bound: u32, word: &[u8]) -> Result<u32, ReaderKind>
    ensures { result ≡ number_below bound word.now }
{
    let number = any_number(word)?;
    if number < bound {
        Ok(number)
    } else {
        Err(ReaderKind::BadNumber)
    }
}

/// The number of one of `cpus` CPUs.
#[tactic(auto, unfolding(crate::specs::Values::cpu_in))]
pub(crate) fn cpu(cpus: u32, word: &[u8]) -> Result<u32, ReaderKind>
    ensures { result ≡ cpu_in cpus word.now }
{
    let number = any_number(word)?;
    if number < cpus {
        Ok(number)
    } else {
        Err(ReaderKind::NoSuchCpu)
    }
}

/// The name of a file.
#[tactic(auto, unfolding(crate::specs::Values::name_in))]
pub(crate) fn name(alloc: Global, word: &[u8]) -> Result<Word, ReaderKind>
    ensures { IsRight is_want result (name_in word.now) }
{
    if word.len() > LONGEST_NAME {
        return Err(ReaderKind::BadNumber);
    }
    Ok(Word::from_bytes(alloc, word)?)
}
