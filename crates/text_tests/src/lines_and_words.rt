//! Texts with their lines and words, and words with their numbers.
use frame_view::Memory;
use std::alloc::Global;
use text_lines::{is_passed_over, is_plain, next_line, next_word, number};

/// Appends bytes between angle brackets.
fn push_part(shown: &mut Vec<u8>, part: &[u8]) -> Result<(), Memory> {
    shown.push(b'<')?;
    shown.extend_from_slice(part)?;
    shown.push(b'>')?;
    Ok(())
}

/// The lines of a text, each between angle brackets.
fn shown_lines(alloc: Global, text: &[u8]) -> Result<Vec<u8>, Memory> {
    let mut shown = Vec::new(alloc);
    let mut rest = text;
    while let Some((line, behind)) = next_line(rest) {
        push_part(&mut shown, line)?;
        rest = behind;
    }
    Ok(shown)
}

/// The words of a line, each between angle brackets.
fn shown_words(alloc: Global, line: &[u8]) -> Result<Vec<u8>, Memory> {
    let mut shown = Vec::new(alloc);
    let mut rest = line;
    while let Some((word, behind)) = next_word(rest) {
        push_part(&mut shown, word)?;
        rest = behind;
    }
    Ok(shown)
}

#[test]
fn takes_lines(rt: HostRuntime) -> Result<(), Memory> {
    for (text, lines) in &[
        ("", ""),
        ("\n", "<>"),
        ("a", "<a>"),
        ("a\n", "<a>"),
        ("a\n\nb", "<a><><b>"),
        ("a\r\nb\r\n", "<a><b>"),
        // a last line keeps its carriage return, and two before a line feed lose one
        ("a\r", "<a\r>"),
        ("a\r\r\n\r\nb\rc\n", "<a\r><><b\rc>"),
    ] {
        let shown = shown_lines(rt.alloc(), text.as_bytes())?;
        assert_eq!(rt; shown.as_slice(), lines.as_bytes(), "{text}");
    }
    Ok(())
}

#[test]
fn takes_words(rt: HostRuntime) -> Result<(), Memory> {
    for (line, words) in &[
        ("", ""),
        (" \t ", ""),
        ("feed 0", "<feed><0>"),
        ("\t feed\t\t0 ", "<feed><0>"),
        ("a\rb c\r", "<a\rb><c\r>"),
    ] {
        let shown = shown_words(rt.alloc(), line.as_bytes())?;
        assert_eq!(rt; shown.as_slice(), words.as_bytes(), "{line}");
    }
    Ok(())
}

#[test]
fn reads_numbers(rt: HostRuntime) {
    for (word, value) in &[
        ("0", Some(0)),
        ("8", Some(8)),
        ("0000000008", Some(8)),
        ("4294967295", Some(4_294_967_295)),
        ("4294967296", None),
        ("9999999999", None),
        ("00000000008", None),
        ("", None),
        ("-1", None),
        ("+1", None),
        ("1a", None),
        ("1 ", None),
    ] {
        assert_eq!(rt; (*word, number(word.as_bytes())), (*word, *value));
    }
}

#[test]
fn knows_plain_lines(rt: HostRuntime) {
    for (line, plain) in &[
        ("tov\t8 ~", true),
        ("tov 8\r", false),
        ("tov 8\x7f", false),
        ("tov 8\x00", false),
        ("tov \u{e9}", false),
    ] {
        assert_eq!(rt; (*line, is_plain(line.as_bytes())), (*line, *plain));
    }
}

#[test]
fn knows_lines_that_are_skipped(rt: HostRuntime) {
    for (line, skipped) in &[
        ("", true),
        (" \t", true),
        ("# a remark", true),
        ("\t#\u{e9}", true),
        ("feed 0 # first", false),
        ("\r", false),
    ] {
        let found = is_passed_over(line.as_bytes());
        assert_eq!(rt; (*line, found), (*line, *skipped));
    }
}
