//! A file that is written.
ghost use Rattle.std.specs.Prelude.{◌≡◌};

use crate::system_calls::write_some;
use crate::{OutError, Sink};
use std::io::Write;

/// A file that was opened for writing, and has no old bytes any more. Contracts see what it tells
/// of the bytes that it holds: one of the system tells nothing.
#[derive(Drop)]
pub(crate) struct WrittenFile<W> {
    /// What takes the bytes.
    to: W,
    /// How many writes failed; it saturates at `u64::MAX`.
    faults: u64,
}

impl<W: Write> WrittenFile<W> {
    /// A file to which nothing was written yet.
    pub(crate) fn new(to: W) -> WrittenFile<W>
        ensures { ⟦<WrittenFile<W> as Sink>⟧.seen result
            ≡ record { written = W.contents to; faults = 0; refused = 0 } }
    {
        WrittenFile { to, faults: 0 }
    }
}

impl<W: Write> Sink for WrittenFile<W> {
    ghost seen = { λ file. record {
      written = W.contents file.to;
      faults = file.faults;
      refused = 0;
    } };

    /// Every error is a fault, out of memory too: the file may hold anything.
    fn write(&mut self, from: &[u8]) -> Result<usize, OutError> {
        match write_some(&mut self.to, from) {
            Ok(count) => Ok(count),
            Err(_) => {
                self.faults = self.faults.saturating_add(1);
                Err(OutError::Failed)
            }
        }
    }
}
