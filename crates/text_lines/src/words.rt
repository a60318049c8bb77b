//! The words of a line.
ghost use Rattle.std.specs.Prelude.{◌≡◌, ◌<◌, [], ◌∷◌, length, not, MatchOption, IfSome};
ghost use Rattle.std.specs.List.{position};
ghost use Rattle.text_lines.specs.Words.{is_blank, is_comment, is_passed_over, is_plain, words_of};

/// Whether a line has only printable ASCII bytes, spaces and tabs.
pub fn is_plain(line: &[u8]) -> bool
    ensures { result ≡ is_plain line.now }
{
    line.iter().all(|byte| matches!(*byte, b' '..=b'~' | b'\t'))
}

/// Takes the first word off a line: the word, and the line after it. `None` means that no word is
/// left. Words are separated by spaces or tabs, which may also come before the first and after the
/// last.
pub fn next_word(line: &[u8]) -> Option<(&[u8], &[u8])>
    ensures word { MatchOption result (words_of line.now ≡ [])
        (λ cut. words_of line.now ≡ cut.0.now ∷ words_of cut.1.now) }
    ensures shorter { IfSome result (λ cut. length cut.1.now < length line.now) }
{
    let start = word_start(line)?;
    let (_, rest) = line.split_at(start);
    let end = blank_place(rest).unwrap_or(rest.len());
    Some(rest.split_at(end))
}

/// Whether a line is skipped: it has no word, or its first word begins with `#`.
pub fn is_passed_over(line: &[u8]) -> bool
    ensures { result ≡ is_passed_over (words_of line.now) }
{
    match next_word(line) {
        None => true,
        Some((word, _)) => is_comment(word),
    }
}

/// Whether a word begins with `#`.
fn is_comment(word: &[u8]) -> bool
    ensures { result ≡ is_comment word.now }
{
    match word {
        [first, ..] => *first == b'#',
        [] => false,
    }
}

/// The place of the first byte that isn't a blank.
fn word_start(line: &[u8]) -> Option<usize>
    ensures { result ≡ position (λ b. not (is_blank b)) line.now }
{
    line.iter().position(|byte| !is_blank(*byte))
}

/// The place of the first blank.
fn blank_place(line: &[u8]) -> Option<usize>
    ensures { result ≡ position is_blank line.now }
{
    line.iter().position(|byte| is_blank(*byte))
}

/// Whether a byte is a space or a tab.
fn is_blank(byte: u8) -> bool
    ensures { result ≡ is_blank byte }
{
    byte == b' ' || byte == b'\t'
}
