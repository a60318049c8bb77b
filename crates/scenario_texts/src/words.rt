//! The words of lines: numbers, bytes, and words that are repeated.
use frame_view::Memory;
use std::alloc::Global;

/// The most that a word is repeated.
pub const MOST: usize = 2_000_000;

/// The most that a line is repeated.
pub(crate) const MOST_LINES: usize = 4096;

/// The first of some words, and the others.
pub fn parted(words: &str) -> (&str, &str) {
    let (first, rest) = words.split_once(' ').unwrap_or((words, ""));
    (first, rest.trim())
}

/// Whether a word is one of these.
pub fn is_among(words: &str, word: &str) -> bool {
    for other in words.split_whitespace() {
        if other == word {
            return true;
        }
    }
    false
}

/// A number; the greatest if a word isn't one.
pub fn number(word: &str) -> usize {
    word.parse::<usize>().unwrap_or(usize::MAX)
}

/// A number of a call; 0 if a word isn't one.
pub fn call_number(word: &str) -> u64 {
    word.parse::<u64>().unwrap_or(0)
}

/// A word that may end with `xN`: what comes before, and how often it is repeated.
pub fn repeated(word: &str) -> (&str, usize) {
    match word.split_once('x') {
        Some((front, times)) => (front, number(times).min(MOST)),
        None => (word, 1),
    }
}

/// A line, and how often it is repeated: as often as its last word says, if that is `xN`.
pub fn repeated_line(line: &str) -> (&str, usize) {
    let (front, last) = line.rsplit_once(' ').unwrap_or(("", line));
    match last.strip_prefix("x").unwrap_or("").parse::<usize>() {
        Ok(times) => (front.trim(), times.min(MOST_LINES)),
        Err(_) => (line, 1),
    }
}

/// The number of words, each repeated as often as it says.
pub fn count_of(words: &str) -> usize {
    let mut count: usize = 0;
    for word in words.split_whitespace() {
        let (_, times) = repeated(word);
        count = count.saturating_add(times);
    }
    count
}

/// The word at an index, each repeated as often as it says; empty after the last one.
pub fn word_at(words: &str, index: usize) -> &str {
    let mut left = index;
    for word in words.split_whitespace() {
        let (front, times) = repeated(word);
        if left < times {
            return front;
        }
        left -= times;
    }
    ""
}

/// Appends the bytes of digits that may be repeated; none where they aren't hexadecimal.
fn push_digits(alloc: Global, bytes: &mut Vec<u8>, word: &str) -> Result<(), Memory> {
    let (digits, times) = repeated(word);
    if let Ok(part) = hex::decode(alloc, digits) {
        for _ in 0..times {
            bytes.extend_from_slice(part.as_slice())?;
        }
    }
    Ok(())
}

/// The bytes of words of digits.
pub fn bytes_of(alloc: Global, words: &str) -> Result<Vec<u8>, Memory> {
    let mut bytes = Vec::new(alloc);
    for word in words.split_whitespace() {
        push_digits(alloc, &mut bytes, word)?;
    }
    Ok(bytes)
}

/// The capture, the first and the last index, and the most bytes of a word such as `1.3-5/96`; no
/// capture if none is given.
pub fn kept_of(word: &str) -> (&str, usize, usize, usize) {
    let (frames, most) = word.split_once('/').unwrap_or((word, ""));
    let (capture, indices) = frames.split_once('.').unwrap_or(("", frames));
    let (first, last) = indices.split_once('-').unwrap_or((indices, indices));
    (capture, number(first), number(last), number(most))
}

/// The parts of a member's line after its number: its notes, and the words of the frames and of the
/// blocks that it kept.
pub fn member_of(value: &str) -> (&str, &str, &str) {
    let (front, blocks) = value.split_once(" blocks ").unwrap_or((value, ""));
    let (notes, kept) = front.split_once(" kept ").unwrap_or((front, ""));
    (notes.trim(), kept, blocks)
}
