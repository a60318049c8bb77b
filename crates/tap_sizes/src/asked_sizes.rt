//! The words of the program.
ghost use Rattle.std.specs.Prelude.{◌≡◌, [], ◌∷◌, option_map};
ghost use Rattle.tap_sizes.specs.SizeWords.{size_named, size_words};

use tap_outside::Word;

/// The names of the texts.
#[derive(Clone, Copy)]
pub(crate) struct AskedSizes<'a> {
    /// The name of the setup.
    pub setup: &'a [u8],
    /// The name of the reader's text.
    pub reader: &'a [u8],
}

/// The names that the words are, if they are two.
pub(crate) fn size_words(words: &[Word]) -> Option<AskedSizes<'_>>
    ensures { option_map (λ asked. size_named asked.setup.now asked.reader.now) result
        ≡ size_words words.now }
{
    match words {
        [setup, reader] => names_of(setup, reader),
        _ => None,
    }
}

/// The two names, if neither is empty.
fn names_of<'a>(setup: &'a Word, reader: &'a Word) -> Option<AskedSizes<'a>>
    ensures { option_map (λ asked. size_named asked.setup.now asked.reader.now) result
        ≡ size_words (setup.now ∷ reader.now ∷ []) }
{
    let (setup, reader) = (setup.bytes(), reader.bytes());
    if setup.is_empty() || reader.is_empty() {
        return None;
    }
    Some(AskedSizes { setup, reader })
}
