//! Words that differ in one letter.
ghost use Rattle.std.specs.Prelude.{◌≡◌, ◌==◌, ◌&&◌, nat_lt, IfOk, length};
ghost use Rattle.scenario_texts.specs.Edits.{edits};

use frame_view::Memory;
use std::alloc::Global;
use strsim::osa_distance;

/// Whether one letter differs: another one, one more, one less, or two beside each other that have
/// changed places. The word that is known has more than two.
pub fn is_near(alloc: Global, word: &str, known: &str) -> Result<bool, Memory>
    ensures { IfOk result (λ near.
        near ≡ (nat_lt 2 (length known.now) && (edits word.now known.now == 1))) }
{
    Ok(known.len() > 2 && osa_distance(alloc, word, known)? == 1)
}

/// Appends a question after a word that isn't known, if this one is near; gives whether it is.
pub(crate) fn push_meant(
    alloc: Global,
    text: &mut String,
    word: &str,
    known: &str,
) -> Result<bool, Memory> {
    let is_meant = is_near(alloc, word, known)?;
    if is_meant {
        write!(text, "; \"{known}\" is meant?")?;
    }
    Ok(is_meant)
}

/// Appends a question that names the first of these words that is near, where one is.
pub(crate) fn push_near(
    alloc: Global,
    text: &mut String,
    word: &str,
    known: &str,
) -> Result<(), Memory> {
    for other in known.split_whitespace() {
        if push_meant(alloc, text, word, other)? {
            return Ok(());
        }
    }
    Ok(())
}
