//! Blocks as a reader sees them.
ghost use Rattle.std.specs.Prelude.{◌≡◌, ◌<◌, ◌⊎◌, ℕ, false, List};

use frame_view::Memory;
use ring_words::WalkerEnd;
use tp_layout::Block;

/// The number, the status and the end of a block.
pub(crate) type Seen = (u32, u32, u32);

/// The four bytes from a place as a number, the lowest first.
fn u32_at(bytes: &[u8], at: usize) -> Option<u32>
    requires { at < 100 }
{
    match bytes.get(at..at + 4)? {
        [a, b, c, d] => Some(u32::from_le_bytes([*a, *b, *c, *d])),
        _ => None,
    }
}

/// The number that a block was retired with, its status and the place after its packets.
fn seen(block: &Block) -> Option<Seen> {
    let bytes = block.bytes();
    Some((u32_at(bytes, 24)?, u32_at(bytes, 8)?, u32_at(bytes, 20)?))
}

/// Takes a block, if one waits, and releases it.
pub(crate) fn read<W: WalkerEnd<Block>>(end: &mut W, read: &mut Vec<Seen>) -> Result<(), Memory>
    requires { (W.walk end.old).in_hand ≡ false }
    ensures hand { (W.walk end.new).in_hand ≡ false }
    ensures took { ((content : List ℕ) × W.took end.old end.new content) ⊎ W.stays end.old end.new }
{
    let Some(block) = end.take() else {
        return Ok(());
    };
    let seen = seen(&block);
    end.release(block, 0);
    if let Some(seen) = seen {
        read.push(seen)?;
    }
    Ok(())
}
