//! Whether the value of a line has the form of its word.
use crate::fields::{STRUCTS, field_of};
use crate::mistakes::Slip;
use crate::words::{MOST, MOST_LINES, is_among, member_of, number, parted};

/// The words with which a line may begin.
pub(crate) const WORDS: &str = "> absent base bytes conf cpu cut endless fail faults fields file \
    filter frames half hold like member part pcap pieces plain poor raw report run sched sent \
    status tail taken ticks with";

/// The words with which a line of a setup may begin.
pub(crate) const SETUP_WORDS: &str = "block_size block_nr frame_size frame_nr cpu tov priv \
    features members mode flag key mac filter ticks out dump skip_bad make workers";

/// The most bytes that a frame has.
const LONGEST: usize = 262_144;

/// A kind of words.
#[derive(Clone, Copy)]
pub enum WordForm {
    /// A decimal number.
    Number,
    /// Bytes in hexadecimal digits, which may be repeated.
    Bytes,
    /// Frames of a capture.
    Frame,
    /// Frames that are kept.
    Kept,
    /// Blocks of a dump.
    Block,
    /// Tries of a CPU.
    Tries,
    /// Notes of a member.
    Notes,
    /// A point at which a thread waits.
    Point,
    /// How often a line is repeated.
    Times,
}

/// Whether a word is a decimal number.
fn is_number(word: &str) -> bool {
    word.parse::<usize>().is_ok()
}

/// Whether a word is a number that isn't greater than another.
fn is_up_to(word: &str, greatest: usize) -> bool {
    is_number(word) && number(word) <= greatest
}

/// Whether each letter of a word is one of these.
fn is_of(word: &str, letters: &str) -> bool {
    for letter in word.chars() {
        if !letters.contains(letter) {
            return false;
        }
    }
    true
}

/// What comes before the times that a word is repeated; `None` where these can't be read.
fn front_of(word: &str) -> Option<&str> {
    match word.split_once('x') {
        Some((front, times)) if is_up_to(times, MOST) => Some(front),
        Some(_) => None,
        None => Some(word),
    }
}

/// Whether a word is pairs of hexadecimal digits, which may be repeated.
fn is_bytes(word: &str) -> bool {
    match front_of(word) {
        Some(digits) => {
            let is_even = digits.len() % 2 == 0 && !digits.is_empty();
            is_even && is_of(digits, "0123456789abcdefABCDEF")
        }
        None => false,
    }
}

/// Whether a word is `[BYTES:]LENGTH[xN]`.
fn is_frame(word: &str) -> bool {
    match front_of(word) {
        Some(front) => {
            let (_, length) = front.split_once(':').unwrap_or(("", front));
            is_up_to(length, LONGEST)
        }
        None => false,
    }
}

/// Whether a word is `[CAPTURE.]INDEX[-INDEX][/BYTES]`.
fn is_kept(word: &str) -> bool {
    let (frames, most) = word.split_once('/').unwrap_or((word, "0"));
    let (capture, indices) = frames.split_once('.').unwrap_or(("0", frames));
    let (first, last) = indices.split_once('-').unwrap_or((indices, indices));
    is_number(most) && is_number(capture) && is_number(last) && is_up_to(first, number(last))
}

/// Whether a word is `STATUS:LENGTH[xN]`.
fn is_block(word: &str) -> bool {
    match front_of(word) {
        Some(front) => {
            let (status, length) = front.split_once(':').unwrap_or(("", front));
            is_number(status) && is_number(length)
        }
        None => false,
    }
}

/// Whether words are `frame CPU.INDEX`, `block MEMBER.NUMBER`, `decode MEMBER.NUMBER` or
/// `moment MS`, of the first eight CPUs and members.
fn is_point(words: &str) -> bool {
    let (kind, place) = parted(words);
    let (line, at) = place.split_once('.').unwrap_or(("", place));
    if kind == "moment" {
        return is_number(place);
    }
    is_among("frame block decode", kind) && is_up_to(line, 7) && is_number(at)
}

/// Whether a word doesn't say that its line is repeated, or says so less often than is allowed.
fn is_times(word: &str) -> bool {
    match word.strip_prefix("x") {
        Some(times) => !is_number(times) || is_up_to(times, MOST_LINES),
        None => true,
    }
}

impl WordForm {
    /// Whether a word is of this kind.
    fn is(self, word: &str) -> bool {
        match self {
            WordForm::Number => is_number(word),
            WordForm::Bytes => is_bytes(word),
            WordForm::Frame => is_frame(word),
            WordForm::Kept => is_kept(word),
            WordForm::Block => is_block(word),
            WordForm::Tries => is_of(word, "0123456789krd.@-"),
            WordForm::Notes => is_of(word, "0123456789knrdtTHc.-"),
            WordForm::Point => is_point(word),
            WordForm::Times => is_times(word),
        }
    }

    /// What a word of this kind is, with its form.
    pub(crate) fn what(self) -> &'static str {
        match self {
            WordForm::Number => "number",
            WordForm::Bytes => "bytes: HEX[xN]",
            WordForm::Frame => "frame: [BYTES:]LENGTH[xN]",
            WordForm::Kept => "frame that is kept: [CAPTURE.]INDEX[-INDEX][/BYTES]",
            WordForm::Block => "block: STATUS:LENGTH[xN]",
            WordForm::Tries => "tries: digits, k, r, d and points, or -",
            WordForm::Notes => "notes: digits, k, n, r, d, t, T, H, c and points, or -",
            WordForm::Point => "point: frame CPU.N, block or decode MEMBER.N, moment MS",
            WordForm::Times => "number of times up to 4096",
        }
    }
}

/// A word is of a kind.
fn one<'a>(kind: WordForm, word: &'a str) -> Result<(), Slip<'a>> {
    if word.is_empty() {
        return Err(Slip::Lacking(kind));
    }
    if kind.is(word) {
        Ok(())
    } else {
        Err(Slip::Value(word, kind))
    }
}

/// There is one word, and it is of a kind.
fn only<'a>(kind: WordForm, words: &'a str) -> Result<(), Slip<'a>> {
    let (first, rest) = parted(words);
    one(kind, first)?;
    none(rest)
}

/// There is no further word.
fn none(words: &str) -> Result<(), Slip<'_>> {
    match words {
        "" => Ok(()),
        _ => Err(Slip::Further(words)),
    }
}

/// Each word is of a kind.
fn each<'a>(kind: WordForm, words: &'a str) -> Result<(), Slip<'a>> {
    for word in words.split_whitespace() {
        one(kind, word)?;
    }
    Ok(())
}

/// There are words, and each is of a kind.
fn some<'a>(kind: WordForm, words: &'a str) -> Result<(), Slip<'a>> {
    if words.is_empty() {
        return Err(Slip::Lacking(kind));
    }
    each(kind, words)
}

/// A word is one of these.
fn among<'a>(words: &'static str, word: &'a str) -> Result<(), Slip<'a>> {
    if is_among(words, word) {
        Ok(())
    } else {
        Err(Slip::Other(word, words))
    }
}

/// The parts of a CPU after its number: tries, and how many bytes its capture gave.
fn check_cpu(value: &str) -> Result<(), Slip<'_>> {
    match value.split_once(" given ") {
        Some((tries, given)) => {
            some(WordForm::Tries, tries)?;
            only(WordForm::Number, given)
        }
        None => some(WordForm::Tries, value),
    }
}

/// The parts of a member after its number: notes, frames that are kept, and blocks.
fn check_member(value: &str) -> Result<(), Slip<'_>> {
    let (notes, kept, blocks) = member_of(value);
    only(WordForm::Notes, notes)?;
    each(WordForm::Kept, kept)?;
    each(WordForm::Block, blocks)
}

/// A thread waits at a point until another one.
fn check_hold(value: &str) -> Result<(), Slip<'_>> {
    let (held, until) = value.split_once(" until ").unwrap_or((value, ""));
    one(WordForm::Point, held.trim())?;
    one(WordForm::Point, until.trim())
}

/// The number of a call, and how many bytes it leaves.
fn check_half(value: &str) -> Result<(), Slip<'_>> {
    let (call, left) = parted(value);
    one(WordForm::Number, call)?;
    only(WordForm::Number, left)
}

/// Bytes at a place.
fn check_place(value: &str) -> Result<(), Slip<'_>> {
    let (at, bytes) = parted(value);
    one(WordForm::Number, at)?;
    some(WordForm::Bytes, bytes)
}

/// A field of a struct and its number.
fn check_field<'a>(layout: &'a str, name: &'a str, value: &'a str) -> Result<(), Slip<'a>> {
    let Some(field) = field_of(layout, name) else {
        return Err(Slip::Field(layout, name));
    };
    if value.is_empty() {
        return Err(Slip::Valueless(name));
    }
    one(WordForm::Number, value)?;
    if number(value) as u64 > field.greatest() {
        return Err(Slip::TooGreat(name, field.size, value));
    }
    Ok(())
}

/// Fields of a struct at a place.
fn check_fields(value: &str) -> Result<(), Slip<'_>> {
    let (at, rest) = parted(value);
    one(WordForm::Number, at)?;
    let (layout, pairs) = parted(rest);
    if !is_among(STRUCTS, layout) {
        return Err(Slip::Struct(layout));
    }
    let mut words = pairs.split_whitespace();
    while let Some(name) = words.next() {
        check_field(layout, name, words.next().unwrap_or(""))?;
    }
    Ok(())
}

/// A line that may be repeated.
fn check_times(value: &str) -> Result<(), Slip<'_>> {
    let (_, last) = value.rsplit_once(' ').unwrap_or(("", value));
    one(WordForm::Times, last)
}

/// What follows a word and a name.
fn check_named<'a>(word: &str, name: &'a str, rest: &'a str) -> Result<(), Slip<'a>> {
    match word {
        "cut" | "endless" | "pieces" | "part" => only(WordForm::Number, rest),
        "pcap" => each(WordForm::Frame, rest),
        "bytes" | "tail" | "raw" => each(WordForm::Bytes, rest),
        "fail" => some(WordForm::Number, rest),
        "sent" => each(WordForm::Kept, rest),
        "file" => check_place(rest),
        "fields" => check_fields(rest),
        _ => check_counted(word, name, rest),
    }
}

/// What follows a word and a number, or the name of calls.
fn check_counted<'a>(word: &str, first: &'a str, rest: &'a str) -> Result<(), Slip<'a>> {
    match word {
        "faults" => {
            among("save", first)?;
            only(WordForm::Number, rest)
        }
        "poor" => {
            among("call write", first)?;
            some(WordForm::Number, rest)
        }
        "half" => {
            among("save", first)?;
            check_half(rest)
        }
        "cpu" => {
            one(WordForm::Number, first)?;
            check_cpu(rest)
        }
        "member" => {
            one(WordForm::Number, first)?;
            check_member(rest)
        }
        _ => one(WordForm::Number, first),
    }
}

/// The value of a line, or a part of it between bars, has the form of the line's word.
pub(crate) fn check_value<'a>(word: &str, value: &'a str) -> Result<(), Slip<'a>> {
    let (first, rest) = parted(value);
    match word {
        _ if value.is_empty() => Ok(()),
        "like" | "run" | "absent" => Ok(()),
        "conf" | "with" | "sched" | "filter" | "ticks" | ">" => check_times(value),
        "base" => none(value),
        "plain" => among("yes", value),
        "report" => among("any", value),
        "taken" => only(WordForm::Number, value),
        "frames" => each(WordForm::Frame, value),
        "hold" => check_hold(value),
        _ => check_named(word, first, rest),
    }
}
