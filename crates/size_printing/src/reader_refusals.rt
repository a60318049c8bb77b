//! The line that says why a reader's text is refused.
ghost use Rattle.std.specs.Prelude.{◌≡◌, IfOk, string_bytes};
ghost use Rattle.size_printing.specs.SizeLines.{reader_refusal};

use frame_view::Memory;
use reader_pace::ReaderError;
use std::alloc::Global;

/// The line that says why a reader's text is refused, ended by a line feed. The words are this
/// project's own choice.
#[tactic(auto, unfolding(crate::specs::SizeLines::reader_refusal))]
pub fn reader_refusal(alloc: Global, error: &ReaderError) -> Result<String, Memory>
    ensures { IfOk result (λ line. string_bytes line ≡ reader_refusal error.now) }
{
    let line = error.line;
    let kind = error.kind.word();
    Ok(format!(in alloc; "reader line {line}: {kind}\n")?)
}
