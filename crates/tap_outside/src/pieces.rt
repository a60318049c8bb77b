//! Bytes that are made a piece at a time.
ghost use Rattle.std.specs.Prelude.{◌≡◌, ◌<◌, ◌≤◌, ◌+◌, ◌++◌, length, true, false, IfOk, OnOk};
ghost use Rattle.std.specs.Prelude.{IsTrue, ℕ, List, []};
ghost use Rattle.std.specs.Io.KnownBytes.{Appends};
ghost use Rattle.std.specs.Vec.{vec_capacity};

use crate::{OutError, Sink, write_whole};
use frame_view::{Memory, PIECE};
use std::alloc::Global;

/// Bytes that are made as they are taken, from the front, so that all of them need not be in memory
/// at once. Contracts see those that are left.
pub trait Pieces {
    ghost left: { Self → List ℕ };

    /// Appends the next bytes to a buffer, no more than it has room for, and returns whether there
    /// were any: it returns false only if none was left, and then the buffer is as before. The
    /// buffer has room for 64 bytes at least. It takes no memory.
    fn append_to(&mut self, buffer: &mut Vec<u8>) -> bool
        requires { length buffer.old.items + 64 ≤ vec_capacity buffer.old }
        ensures moved { buffer.new.items ++ left self.new ≡ buffer.old.items ++ left self.old }
        ensures fits { length buffer.new.items ≤ vec_capacity buffer.old }
        ensures room { vec_capacity buffer.old ≤ vec_capacity buffer.new }
        ensures some { IsTrue result → length (left self.new) < length (left self.old) }
        ensures end { result ≡ false → left self.old ≡ [] }
        ensures none { result ≡ false → buffer.new.items ≡ buffer.old.items };
}

/// All bytes that are left.
pub fn gathered<P: Pieces + Drop>(alloc: Global, pieces: P) -> Result<Vec<u8>, Memory>
    ensures { IfOk result (λ bytes. bytes.items ≡ P.left pieces) }
{
    let mut pieces = pieces;
    let mut bytes = Vec::with_capacity(alloc, PIECE)?;
    while pieces.append_to(&mut bytes) {
        bytes.reserve(PIECE)?;
    }
    Ok(bytes)
}

/// Writes all bytes that are left to a sink, in pieces as large as the buffer.
pub(crate) fn write_each<S: Sink, P: Pieces + Drop>(
    to: &mut S,
    buffer: Vec<u8>,
    pieces: P,
) -> Result<(), OutError>
    requires { 64 ≤ vec_capacity buffer }
    ensures { OnOk result
        (Appends (S.seen to.old).written (S.seen to.new).written (P.left pieces)) }
{
    let (mut buffer, mut pieces) = (buffer, pieces);
    buffer.clear();
    while pieces.append_to(&mut buffer) {
        write_whole(to, buffer.as_slice())?;
        buffer.clear();
    }
    Ok(())
}
