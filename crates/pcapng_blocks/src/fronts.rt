//! The block at the start of bytes.
ghost use Rattle.std.specs.Prelude.{◌≡◌, ◌≤◌, length};
ghost use Rattle.pcapng_blocks.specs.Blocks.{front_of, front_behind, HasBlock};
ghost use Rattle.pcapng_blocks.specs.Heads.{IsHead};

use crate::bodies::{Meaning, read_block};
use crate::heads::{Head, Look, look_at};
use crate::interfaces::Interface;
use crate::{BlockError, Order};

/// What bytes begin with, as far as they show it.
#[derive(Clone, Copy)]
pub(crate) enum Front {
    /// A part of a block that fails no test yet, or nothing.
    Part,
    /// A block that fails a test.
    Fault(BlockError),
    /// A whole block, and what it says.
    Block(Head, Meaning),
}

/// What bytes begin with at a place of a capture, in a section of this byte order with these
/// interfaces.
#[tactic(auto, unfolding(crate::specs::Blocks::front_of))]
pub(crate) fn front_of(order: Order, interfaces: &[Interface], place: usize, bytes: &[u8]) -> Front
    ensures front { result ≡ front_of order interfaces.now place bytes.now }
    ensures block { HasBlock result (length bytes.now) }
{
    match look_at(order, place, bytes) {
        Look::Short => Front::Part,
        Look::Bad(error) => Front::Fault(error),
        Look::Headed(head) => front_behind(interfaces, place, head, bytes),
    }
}

/// What bytes begin with, given this head.
fn front_behind(interfaces: &[Interface], place: usize, head: Head, bytes: &[u8]) -> Front
    requires head { IsHead head }
    ensures front { result ≡ front_behind interfaces.now place head bytes.now }
    ensures block { HasBlock result (length bytes.now) }
{
    let size = head.total as usize;
    if bytes.len() < size {
        return Front::Part;
    }
    let (block, _) = bytes.split_at(size);
    match read_block(interfaces, place, head, block) {
        Ok(meaning) => Front::Block(head, meaning),
        Err(error) => Front::Fault(error),
    }
}
