//! The text of `tcpdump -ddd`.
ghost use Rattle.std.specs.Prelude.{◌≡◌, ◌+◌, ◌≤◌, [], ◌∷◌, length, MatchOption, None};
ghost use Rattle.text_lines.specs.Lines.{lines_of};
ghost use Rattle.text_lines.specs.Words.{words_of};
ghost use Rattle.bpf_filter.specs.Answers.{Gives};
ghost use Rattle.bpf_filter.specs.Listings.{are_blank, count_of, is_count, fields_of};
ghost use Rattle.bpf_filter.specs.Listings.{instruction_of, instructions_from, instructions_of};
ghost use Rattle.bpf_filter.specs.Listings.{number_to, without_blank_end};

use crate::error::FilterError;
use crate::insn::Insn;
use crate::program::LARGEST_PROGRAM;
use std::alloc::Global;
use text_lines::{LARGEST_TEXT, next_line, next_word, number};

/// Reads the instructions of a text as `tcpdump -ddd` writes it: a line with their number, 1 to
/// 4096, then for each a line with code, jt, jf and k in decimal. Nothing more is checked here:
/// `Program::check` does that.
///
/// Returns `TooLarge` for more than 1,048,576 bytes. Then `BadLine` with the first line, from 1,
/// that has another form; blank lines are allowed only at the end. Last, `BadCount` for a number
/// that is out of its range or isn't that of the instructions, and for a text with only blank lines
/// or no line.
pub fn read_ddd(alloc: Global, text: &[u8]) -> Result<Vec<Insn>, FilterError>
    ensures { Gives (λ code. code.items) result (instructions_of text.now) }
{
    if text.len() > LARGEST_TEXT {
        return Err(FilterError::TooLarge);
    }
    let Some((first, rest)) = next_line(text) else {
        return Err(FilterError::BadCount);
    };
    let Some(count) = count(first) else {
        return Err(if is_blank(text) {
            FilterError::BadCount
        } else {
            FilterError::BadLine(1)
        });
    };
    let code = instructions(alloc, rest)?;
    if !is_count(count as usize, code.len()) {
        return Err(FilterError::BadCount);
    }
    Ok(code)
}

/// Whether a count is in its range, and is the number of instructions.
fn is_count(count: usize, instructions: usize) -> bool
    ensures { result ≡ is_count count instructions }
{
    1 <= count && count <= LARGEST_PROGRAM && count == instructions
}

/// The instructions of the lines after the first one.
fn instructions(alloc: Global, text: &[u8]) -> Result<Vec<Insn>, FilterError>
    requires { length text.now ≤ 1048576 }
    ensures { Gives (λ code. code.items) result
        (instructions_from 2 (without_blank_end (lines_of text.now))) }
{
    let mut code = Vec::new(alloc);
    let mut rest = text;
    let mut number = 2;
    while let Some((line, behind)) = next_line(rest) {
        match instruction(line) {
            Some(insn) => code.push(insn)?,
            None if is_blank(rest) => break,
            None => return Err(FilterError::BadLine(number)),
        }
        rest = behind;
        number += 1;
    }
    Ok(code)
}

/// Whether no line of a text has a word.
fn is_blank(text: &[u8]) -> bool
    ensures { result ≡ are_blank (lines_of text.now) }
{
    let mut rest = text;
    while let Some((line, behind)) = next_line(rest) {
        if next_word(line).is_some() {
            return false;
        }
        rest = behind;
    }
    true
}

/// The number that is the only word of a line.
fn count(line: &[u8]) -> Option<u32>
    ensures { result ≡ count_of (words_of line.now) }
{
    let (word, rest) = next_word(line)?;
    match next_word(rest) {
        None => number(word),
        Some(_) => None,
    }
}

/// The instruction of a line.
fn instruction(line: &[u8]) -> Option<Insn>
    ensures { result ≡ instruction_of (words_of line.now) }
{
    let (code, jt, jf, k) = four_words(line)?;
    fields(code, jt, jf, k)
}

/// The words of a line that has four.
fn four_words(line: &[u8]) -> Option<(&[u8], &[u8], &[u8], &[u8])>
    ensures { MatchOption result (instruction_of (words_of line.now) ≡ None)
        (λ w. words_of line.now ≡ w.0.now ∷ w.1.now ∷ w.2.now ∷ w.3.now ∷ []) }
{
    let (first, rest) = next_word(line)?;
    let (second, rest) = next_word(rest)?;
    let (third, rest) = next_word(rest)?;
    let (fourth, rest) = next_word(rest)?;
    match next_word(rest) {
        None => Some((first, second, third, fourth)),
        Some(_) => None,
    }
}

/// The instruction of four words.
#[tactic(auto, unfolding(crate::specs::Listings::fields_of))]
fn fields(code: &[u8], jt: &[u8], jf: &[u8], k: &[u8]) -> Option<Insn>
    ensures { result ≡ fields_of code.now jt.now jf.now k.now }
{
    Some(Insn {
        code: half(code)?,
        jt: byte(jt)?,
        jf: byte(jf)?,
        k: number(k)?,
    })
}

/// A number of 16 bits.
#[tactic(auto, unfolding(crate::specs::Listings::number_to))]
fn half(word: &[u8]) -> Option<u16>
    ensures { result ≡ number_to 65535 word.now }
{
    u16::try_from(number(word)?).ok()
}

/// A number of 8 bits.
#[tactic(auto, unfolding(crate::specs::Listings::number_to))]
fn byte(word: &[u8]) -> Option<u8>
    ensures { result ≡ number_to 255 word.now }
{
    u8::try_from(number(word)?).ok()
}
