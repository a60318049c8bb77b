//! Why a command isn't carried out.
ghost use Rattle.std.specs.Prelude.{◌≡◌};
ghost use Rattle.setup_text.specs.Answers.{is_setup_want, is_text_want};
ghost use Rattle.tap_reading.specs.Readers.{stop_of_setup, stop_of_text, stop_of_unread};

use crate::texts::Unread;
use bpf_filter::FilterError;
use frame_view::Memory;
use setup_text::{SetupError, SetupKind, TextError, TextKind};

/// Why a command isn't carried out.
#[derive(Clone, Copy, Debug, PartialEq, Eq)]
pub enum LoadError {
    /// A text can't be read.
    Unread,
    /// The setup was read and is refused.
    Setup(SetupError),
    /// Another text was read and is refused.
    Text(TextError),
    /// An allocation failed.
    Memory,
}

impl From<Unread> for LoadError {
    ghost from_gives = { λ unread stop. stop ≡ stop_of_unread unread };

    fn from(unread: Unread) -> LoadError {
        match unread {
            Unread::Failed => LoadError::Unread,
            Unread::Memory => LoadError::Memory,
        }
    }
}

impl From<Memory> for LoadError {
    ghost use Rattle.tap_reading.specs.declared.stops.LoadError.TheVariants.{Memory};

    ghost from_gives = { λ _ stop. stop ≡ Memory };

    fn from(_: Memory) -> LoadError {
        LoadError::Memory
    }
}

impl From<SetupError> for LoadError {
    ghost from_gives = { λ error stop. stop ≡ stop_of_setup error };

    fn from(error: SetupError) -> LoadError {
        if is_setup_want(&error) {
            LoadError::Memory
        } else {
            LoadError::Setup(error)
        }
    }
}

impl From<TextError> for LoadError {
    ghost from_gives = { λ error stop. stop ≡ stop_of_text error };

    fn from(error: TextError) -> LoadError {
        if is_text_want(&error) {
            LoadError::Memory
        } else {
            LoadError::Text(error)
        }
    }
}

/// Whether a setup wasn't read because memory ran out.
fn is_setup_want(error: &SetupError) -> bool
    ensures { result ≡ is_setup_want error.now }
{
    matches!(error.kind, SetupKind::Memory)
}

/// Whether a text wasn't read because memory ran out.
fn is_text_want(error: &TextError) -> bool
    ensures { result ≡ is_text_want error.now }
{
    matches!(
        error.kind,
        TextKind::Memory | TextKind::Filter(FilterError::Memory)
    )
}
