//! The words of a command, which may be names of files.
ghost use Rattle.std.specs.Prelude.{◌≡◌, IfOk};

use frame_view::{ByteList, Memory};
use std::alloc::Global;
use std::marker::Model;

/// A word of a command, as its bytes. Contracts see it as the list of them.
#[derive(Debug, Drop)]
pub struct Word {
    bytes: ByteList,
}

impl Model for Word {
    ghost use Rattle.std.specs.Prelude.{List, ℕ};

    ghost Value = { List ℕ };

    ghost view = { λ word. word.bytes };
}

impl Word {
    /// The word of a text, in UTF-8.
    pub fn new(alloc: Global, text: &str) -> Result<Word, Memory>
        ensures { IfOk result (λ word. word ≡ text.now) }
    {
        Word::from_bytes(alloc, text.as_bytes())
    }

    /// The word of these bytes, whatever they are.
    pub fn from_bytes(alloc: Global, bytes: &[u8]) -> Result<Word, Memory>
        ensures { IfOk result (λ word. word ≡ bytes.now) }
    {
        let bytes = ByteList::from_vec(bytes.to_vec(alloc)?);
        Ok(Word { bytes })
    }

    /// The bytes of the word, borrowed.
    pub fn bytes(&self) -> &[u8]
        ensures { result.now ≡ self.now }
    {
        self.bytes.as_slice()
    }
}
