//! The arguments of the program, as words.
ghost use Rattle.std.specs.Prelude.{◌≡◌, ◌≤◌, ◌+◌, [], ◌∷◌, ◌++◌, length, map, All, IfOk, IfSome};
ghost use Rattle.std.specs.Prelude.{IsUtf8, None, Some};

use frame_view::Memory;
use std::alloc::Global;
use std::env::{Env, FillError};
use std::str;
use tap_outside::{History, Word};

/// The binary logarithms of the first and of the last buffer that an argument is read into: 256
/// bytes to 32 MiB.
const FIRST_SIZE: u32 = 8;

const LAST_SIZE: u32 = 25;

/// The arguments after the program's name, in order. One that isn't UTF-8, or has more than 32 MiB,
/// is the empty word, which is neither a command nor the name of a file; so is an empty argument.
/// `told` is what the system answers, from its first argument to the answer that there is no more.
pub fn words<R: Env>(
    rt: &R,
    alloc: Global,
    told: &mut History<Option<Word>>,
) -> Result<Vec<Word>, Memory>
    requires { told.old.items ≡ [] }
    ensures all { IfOk result (λ words. told.new.items ≡ map Some words.items ++ None ∷ []) }
    ensures utf8 { IfOk result (λ words. All IsUtf8 words.items) }
    ensures size { IfOk result (λ words. All (λ word. length word ≤ 33554432) words.items) }
{
    let mut words = Vec::new(alloc);
    for index in 1..usize::MAX {
        match next_word(rt, alloc, index, told)? {
            Some(word) => words.push(word)?,
            None => return Ok(words),
        }
    }
    // No memory holds so many.
    Err(Memory)
}

/// The argument of a number, if there is one: the next one after those that were asked for.
fn next_word<R: Env>(
    rt: &R,
    alloc: Global,
    index: usize,
    told: &mut History<Option<Word>>,
) -> Result<Option<Word>, Memory>
    requires { index ≡ length told.old.items + 1 }
    ensures told { IfOk result (λ word. told.new.items ≡ told.old.items ++ word ∷ []) }
    ensures utf8 { IfOk result (λ word. IfSome word IsUtf8) }
    ensures size { IfOk result (λ word. IfSome word (λ word. length word ≤ 33554432)) }
{
    let word = word_at(rt, alloc, index)?;
    told.push(&word);
    Ok(word)
}

/// The argument of a number, if there is one. It is read into buffers that double until one holds
/// it.
fn word_at<R: Env>(rt: &R, alloc: Global, index: usize) -> Result<Option<Word>, Memory>
    ensures utf8 { IfOk result (λ word. IfSome word IsUtf8) }
    ensures size { IfOk result (λ word. IfSome word (λ word. length word ≤ 33554432)) }
{
    for size in FIRST_SIZE..LAST_SIZE + 1 {
        let mut buffer = vec![in alloc; 0u8; 1usize << size]?;
        match rt.arg(index, &mut buffer) {
            Ok(length) => return Ok(Some(word_of(alloc, &buffer[..length])?)),
            Err(FillError::NotPresent) => return Ok(None),
            Err(FillError::TooLong) => {}
        }
    }
    Ok(Some(word_of(alloc, &[])?))
}

/// The word of an argument's bytes: these bytes if they are UTF-8, otherwise none.
fn word_of(alloc: Global, bytes: &[u8]) -> Result<Word, Memory>
    ensures text { IsUtf8 bytes.now → IfOk result (λ word. word ≡ bytes.now) }
    ensures other { ¬ (IsUtf8 bytes.now) → IfOk result (λ word. word ≡ []) }
    ensures utf8 { IfOk result IsUtf8 }
    ensures size { IfOk result (λ word. length word ≤ length bytes.now) }
{
    match str::from_utf8(bytes) {
        Ok(text) => Word::new(alloc, text),
        Err(_) => Word::from_bytes(alloc, &[]),
    }
}
