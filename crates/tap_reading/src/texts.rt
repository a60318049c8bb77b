//! Texts, read to their end or past their greatest size.
ghost use Rattle.std.specs.Prelude.{◌≡◌, ◌<◌, ◌≤◌, ◌∷◌, [], length, IfOk, IsErrOf, IsTrue};
ghost use Rattle.std.specs.Prelude.{OnOk, vec_len};
ghost use Rattle.std.specs.Io.KnownBytes.{IsAtEnd};
ghost use Rattle.tap_outside.specs.Seen.{OnlyReads};
ghost use Rattle.tap_reading.specs.Fronts.{CantRead, GaveFew, GaveText, IsTextOf, RanOut};
ghost use Rattle.tap_reading.specs.Fronts.{ReadTexts};
ghost use Rattle.tap_reading.specs.Fronts.{text_entry};

use frame_view::{ByteList, PIECE};
use std::alloc::{AllocError, Global};
use tap_outside::{OutError, Source, Store};
use text_lines::LARGEST_TEXT;

/// Why a text can't be read.
#[derive(Clone, Copy, Debug, PartialEq, Eq)]
pub enum Unread {
    /// Reading failed.
    Failed,
    /// An allocation failed.
    Memory,
}

impl From<AllocError> for Unread {
    ghost use Rattle.tap_reading.specs.declared.texts.Unread.TheVariants.{Memory};

    ghost from_gives = { λ _ e. e ≡ Memory };

    fn from(_: AllocError) -> Unread {
        Unread::Memory
    }
}

/// Reads the text of a name to its end, or until it has more than 1,048,576 bytes; then it has
/// 1,048,577, and no more is read. One source is opened for it, and closed: the store records the
/// text under the name, as what this source gave. Where a read fails the answer is `Failed`; else
/// an exact store counts no fault. Also where memory runs out no source is left open.
pub fn read_text<S: Store>(alloc: Global, store: &mut S, name: &[u8]) -> Result<ByteList, Unread>
    requires { IsTrue ((S.seen store.old).to_read name.now) }
    ensures text { IfOk result (λ text. IsTextOf (S.seen store.old).held name.now text) }

    ensures store { OnlyReads (S.seen store.old) (S.seen store.new) }
    ensures texts { IfOk result (λ text.
        ReadTexts (S.seen store.old) (S.seen store.new) (text_entry name.now text ∷ [])) }
    ensures failed { IsErrOf result Unread.Failed
        → CantRead (S.seen store.old) (S.seen store.new) name.now }
    ensures memory { IsErrOf result Unread.Memory
        → RanOut (S.seen store.old) (S.seen store.new) }
{
    let mut input = match store.fetch(name) {
        Ok(input) => input,
        Err(OutError::Failed) => return Err(Unread::Failed),
        Err(OutError::Memory) => return Err(Unread::Memory),
    };
    let text = read_source(alloc, &mut input);
    store.close(input);
    text
}

/// Reads a source to its end, or until it gave more bytes than a text may have. A read that fails
/// is `Failed` only before that; later none is made.
fn read_source<I: Source>(alloc: Global, input: &mut I) -> Result<ByteList, Unread>
    requires fresh { (I.seen input.old).faults ≡ 0 }
    requires unread { (I.seen input.old).given ≡ [] }
    ensures gave { IfOk result (GaveText (I.seen input.old) (I.seen input.new)) }
    ensures end { IfOk result (λ text. length text ≤ 1048576 → IsAtEnd (I.seen input.new).left) }
    ensures few { IfOk result (λ text. length text ≤ 1048577) }

    ensures faultless { OnOk result ((I.seen input.new).faults ≡ 0) }
    ensures failed { IsErrOf result Unread.Failed → 0 < (I.seen input.new).faults }
    ensures early { IsErrOf result Unread.Failed
        → GaveFew (I.seen input.old) (I.seen input.new) }
    ensures memory { IsErrOf result Unread.Memory → (I.seen input.new).faults ≡ 0 }
    ensures named { (I.seen input.new).name ≡ (I.seen input.old).name }
{
    let mut text = Vec::new(alloc);
    let mut buffer = zeros(alloc, PIECE)?;
    while text.len() <= LARGEST_TEXT {
        let room = (LARGEST_TEXT + 1 - text.len()).min(PIECE);
        let piece = &mut buffer[..room];
        let Ok(count) = input.read(piece) else {
            return Err(Unread::Failed);
        };
        if count == 0 {
            return Ok(ByteList::from_vec(text));
        }
        text.extend_from_slice(&piece[..count])?;
    }
    Ok(ByteList::from_vec(text))
}

/// A buffer of `size` bytes.
pub(crate) fn zeros(alloc: Global, size: usize) -> Result<Vec<u8>, AllocError>
    ensures { IfOk result (λ buffer. vec_len buffer ≡ size) }
{
    vec![in alloc; 0u8; size]
}
