//! What is expected beside what is found, line by line.
use frame_view::Memory;

/// The place of the first line that is a given one, from a place on.
fn place_of(lines: &str, from: usize, line: &str) -> Option<usize> {
    for (at, other) in lines.lines().enumerate() {
        if at >= from && other == line {
            return Some(at);
        }
    }
    None
}

/// Appends a line with the number of the line that says it, if one does, and a sign.
fn push_row(text: &mut String, number: usize, sign: char, line: &str) -> Result<(), Memory> {
    if number == 0 {
        write!(text, "           {sign} {line}\n")?;
    } else {
        write!(text, "    {number:>6} {sign} {line}\n")?;
    }
    Ok(())
}

/// Appends the lines from a place up to another one, each after a plus.
fn push_more(text: &mut String, lines: &str, from: usize, until: usize) -> Result<(), Memory> {
    for (at, line) in lines.lines().enumerate() {
        if at >= from && at < until {
            push_row(text, 0, '+', line)?;
        }
    }
    Ok(())
}

/// Appends the lines of two texts: those that both have after a blank, those that only the first
/// has after a minus and those that only the second has after a plus. `numbers` has the numbers of
/// the first one's lines; lines after these have none, nor do those with 0.
pub fn push_diff(
    text: &mut String,
    numbers: &[usize],
    wanted: &str,
    found: &str,
) -> Result<(), Memory> {
    let mut shown: usize = 0;
    for (index, line) in wanted.lines().enumerate() {
        let number = numbers.get(index).copied().unwrap_or(0);
        match place_of(found, shown, line) {
            Some(place) => {
                push_more(text, found, shown, place)?;
                push_row(text, number, ' ', line)?;
                shown = place.saturating_add(1);
            }
            None => push_row(text, number, '-', line)?,
        }
    }
    push_more(text, found, shown, usize::MAX)
}
