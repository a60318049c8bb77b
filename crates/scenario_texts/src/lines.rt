//! The lines of a text, with their numbers.
ghost use Rattle.std.specs.Prelude.{◌≡◌, ◌==◌, map, IfOk};
ghost use Rattle.std.specs.List.{slice_split};

use crate::words::parted;
use frame_view::Memory;
use std::alloc::Global;

/// What a line of a text says, or a part of it between bars.
#[derive(Clone, Copy)]
pub struct ScenarioLine<'a> {
    /// The number of the line in the text, from 1.
    pub number: usize,
    /// The word with which the line begins; empty for the name of a scenario.
    pub word: &'a str,
    /// What follows the word, or the name.
    pub text: &'a str,
}

/// What the lines of a text say that are neither blank nor comments. The first line and each line
/// after a blank one is the name of a scenario; a comment is a line whose first word begins with
/// `#`. A line feed ends a line.
pub fn numbered_lines<'a>(alloc: Global, text: &'a str) -> Result<Vec<ScenarioLine<'a>>, Memory> {
    let mut lines = Vec::new(alloc);
    let mut is_name = true;
    for (index, line) in lines_of(alloc, text)?.as_slice().iter().enumerate() {
        is_name = push_line(&mut lines, index.saturating_add(1), line, is_name)?;
    }
    Ok(lines)
}

/// The lines of a text: what stands between its line feeds.
fn lines_of<'a>(alloc: Global, text: &'a str) -> Result<Vec<&'a str>, Memory>
    ensures { IfOk result (λ lines.
        map (λ x. x.now) lines.items ≡ slice_split (λ b. b == 10) text.now) }
{
    let mut lines = Vec::new(alloc);
    let mut rest = text;
    while let Some((front, behind)) = rest.split_once('\n') {
        lines.push(front)?;
        rest = behind;
    }
    lines.push(rest)?;
    Ok(lines)
}

/// Appends what a line says; gives whether the next line is a name.
fn push_line<'a>(
    lines: &mut Vec<ScenarioLine<'a>>,
    number: usize,
    line: &'a str,
    is_name: bool,
) -> Result<bool, Memory> {
    let text = line.trim();
    if text.starts_with('#') {
        return Ok(is_name);
    }
    if text.is_empty() {
        return Ok(true);
    }
    if is_name {
        let (word, text) = ("", line.trim_end());
        lines.push(ScenarioLine { number, word, text })?;
    } else {
        push_parts(lines, number, text)?;
    }
    Ok(false)
}

/// Appends the parts of a line between bars, each after the word of the line. A part in which
/// nothing stands is left out, if it isn't the whole line.
fn push_parts<'a>(
    lines: &mut Vec<ScenarioLine<'a>>,
    number: usize,
    line: &'a str,
) -> Result<(), Memory> {
    let (word, values) = parted(line);
    for part in values.split(" | ") {
        let text = part.trim();
        if !text.is_empty() || values.is_empty() {
            lines.push(ScenarioLine { number, word, text })?;
        }
    }
    Ok(())
}
