//! The lines that say why a text is refused.
ghost use Rattle.std.specs.Prelude.{◌≡◌, IfOk, string_bytes};
ghost use Rattle.tap_printing.specs.Refusals.{setup_kind_text, setup_refusal, text_refusal};

use frame_view::Memory;
use setup_text::{SetupError, SetupKind, TextError};
use std::alloc::Global;

/// The line that says why a setup is refused, ended by a line feed. The words are this project's
/// own choice.
#[tactic(auto, unfolding(crate::specs::Refusals::setup_refusal))]
pub fn setup_refusal(alloc: Global, error: &SetupError) -> Result<String, Memory>
    ensures { IfOk result (λ line. string_bytes line ≡ setup_refusal error.now) }
{
    let line = error.line;
    let kind = setup_kind_text(alloc, error.kind)?;
    Ok(format!(in alloc; "setup line {line}: {kind}\n")?)
}

/// What is wrong with a setup.
#[tactic(auto, unfolding(crate::specs::Refusals::setup_kind_text))]
fn setup_kind_text(alloc: Global, kind: SetupKind) -> Result<String, Memory>
    ensures { IfOk result (λ text. string_bytes text ≡ setup_kind_text kind) }
{
    match kind {
        SetupKind::Missing(needed) => Ok(format!(in alloc; "missing {}", needed.word())?),
        SetupKind::Request(error) => Ok(format!(in alloc; "request {}", error.word())?),
        SetupKind::Group(error) => Ok(format!(in alloc; "group {}", error.word())?),
        _ => Ok(String::from_str(alloc, kind.word())?),
    }
}

/// The line that says why a filter, moments or a schedule are refused, ended by a line feed. The
/// words are this project's own choice.
#[tactic(auto, unfolding(crate::specs::Refusals::text_refusal))]
pub fn text_refusal(alloc: Global, error: &TextError) -> Result<String, Memory>
    ensures { IfOk result (λ line. string_bytes line ≡ text_refusal error.now) }
{
    let text = error.which.word();
    let line = error.line;
    let kind = error.kind.word();
    Ok(format!(in alloc; "{text} line {line}: {kind}\n")?)
}
