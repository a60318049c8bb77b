//! Single reads and writes of the system, tried again if a signal interrupts them.
ghost use Rattle.std.specs.Prelude.{◌≡◌, ◌<◌, ◌≤◌, length, IfOk};
ghost use Rattle.std.specs.Io.{ReadsAtMost};
ghost use Rattle.std.specs.Io.KnownBytes.{ReadConsumes, WriteAppends};

use crate::OutError;
use std::io;
use std::io::{ErrorKind, Read, Write};

/// How often a read or a write is tried if a signal interrupts it.
const TRIES: u32 = 16;

/// One read, tried again if a signal interrupts it. After an error nothing was read.
#[tactic(auto, using(crate::proofs::Tries::keeps_none, crate::proofs::Tries::keeps_then, crate::proofs::Tries::reads_after))]
fn read_some<F: Read>(from: &mut F, into: &mut [u8]) -> io::Result<usize>
    ensures bound { ReadsAtMost result into.new }
    ensures bytes { ReadConsumes (F.remaining from.old) (F.remaining from.new) result into.new }
{
    for _ in 1..TRIES {
        match from.read(into) {
            Err(error) if error.kind() == ErrorKind::Interrupted => {}
            result => return result,
        }
    }
    from.read(into)
}

/// One read of at most so many bytes, into the front of a buffer.
#[tactic(auto, using(crate::proofs::Consumed::front_read))]
pub(crate) fn read_front<F: Read>(from: &mut F, buffer: &mut [u8], most: usize) -> io::Result<usize>
    requires some { 0 < most }
    requires room { most ≤ length buffer.old }
    ensures bound { IfOk result (λ n. n ≤ most) }
    ensures bytes { ReadConsumes (F.remaining from.old) (F.remaining from.new) result buffer.new }
{
    let (front, _) = buffer.split_at_mut(most);
    read_some(from, front)
}

/// One write of at least a byte, tried again if a signal interrupts it. After an error nothing was
/// written; a write that takes nothing is a fault.
#[tactic(auto, using(crate::proofs::Tries::keeps_none, crate::proofs::Tries::keeps_empty, crate::proofs::Tries::keeps_then, crate::proofs::Tries::writes_after))]
pub(crate) fn write_some<W: Write>(to: &mut W, from: &[u8]) -> Result<usize, OutError>
    ensures bound { IfOk result (λ n. (0 < n) × (n ≤ length from.now)) }
    ensures bytes { WriteAppends (W.contents to.old) (W.contents to.new) result from.now }
{
    for _ in 0..TRIES {
        match to.write(from) {
            Ok(0) => return Err(OutError::Failed),
            Ok(taken) => return Ok(taken),
            Err(error) if error.kind() == ErrorKind::Interrupted => {}
            Err(error) => return Err(OutError::from(error)),
        }
    }
    Err(OutError::Failed)
}
