//! The lines of a text.
ghost use Rattle.std.specs.Prelude.{◌≡◌, ℕ, ◌<◌, ◌==◌, List, [], ◌∷◌, length, MatchOption, IfNone};
ghost use Rattle.std.specs.Prelude.{IfSome};
ghost use Rattle.std.specs.List.{position};
ghost use Rattle.std.specs.Str.Lines.{lines, strip_carriage_return};
ghost use Rattle.text_lines.specs.Lines.{lines_of};

/// The most bytes that a text may have, by this project's own choice.
pub const LARGEST_TEXT: usize = 1_048_576;

/// Takes the first line off a text: the line, and the text after it. `None` is the end of the text.
///
/// A line feed ends a line, and the last line may lack it. One carriage return before a line feed
/// is dropped; a last line without a line feed keeps its carriage return. A text of n bytes is read
/// in n steps by repeated calls.
pub fn next_line(text: &[u8]) -> Option<(&[u8], &[u8])>
    ensures line { MatchOption result (lines_of text.now ≡ [])
        (λ cut. lines_of text.now ≡ cut.0.now ∷ lines_of cut.1.now) }
    ensures end { IfNone result (text.now ≡ []) }
    ensures shorter { IfSome result (λ cut. length cut.1.now < length text.now) }
{
    if text.is_empty() {
        return None;
    }
    match line_feed(text) {
        None => Some(text.split_at(text.len())),
        Some(end) => {
            let (line, rest) = text.split_at(end);
            let (_, rest) = rest.split_at(1);
            Some((without_carriage_return(line), rest))
        }
    }
}

/// The place of the first line feed.
fn line_feed(text: &[u8]) -> Option<usize>
    ensures { result ≡ position (λ b. b == 10) text.now }
{
    text.iter().position(|byte| *byte == b'\n')
}

/// The line without the one carriage return at its end, if it has one.
fn without_carriage_return(line: &[u8]) -> &[u8]
    ensures { result.now ≡ strip_carriage_return line.now }
{
    match line {
        [front @ .., b'\r'] => front,
        _ => line,
    }
}

/// A law: the lines of a text are those that Rust's `str::lines` gives.
pub fn lines_are_those_of_str()
    ensures { (text : List ℕ) → lines_of text ≡ lines text }
{}
