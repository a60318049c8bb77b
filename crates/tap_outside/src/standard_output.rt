//! Standard output. Only the system knows what it has taken, so contracts say nothing about that.
ghost use Rattle.std.specs.Prelude.{◌≡◌, None};

use crate::system_calls::write_some;
use crate::{OutError, Sink};
use std::io;

/// Standard output. Each write goes to the system at once.
#[derive(Drop)]
pub struct StdSink<'a, R> {
    /// What prints.
    rt: &'a R,
    /// How many writes failed; it saturates at `u64::MAX`.
    faults: u64,
    /// How many writes ran out of memory; it saturates at `u64::MAX`.
    refused: u64,
}

impl<'a, R: Print> StdSink<'a, R> {
    /// The standard output of this system, with no fault so far. It takes no memory.
    pub fn new(rt: &'a R) -> StdSink<'a, R>
        ensures { ⟦<StdSink<'a, R> as Sink>⟧.seen result
            ≡ record { written = None; faults = 0; refused = 0 } }
    {
        StdSink {
            rt,
            faults: 0,
            refused: 0,
        }
    }

    /// The number of faults so far; it saturates at `u64::MAX`.
    pub fn faults(&self) -> u64
        ensures { result ≡ (⟦<StdSink<'a, R> as Sink>⟧.seen self.now).faults }
    {
        self.faults
    }
}

impl<'a, R: Print> Sink for StdSink<'a, R> {
    ghost seen = { λ sink. record {
      written = None;
      faults = sink.faults;
      refused = sink.refused;
    } };

    /// A write that a signal interrupts is tried again, 16 times at most. Every other error is a
    /// fault, except that memory ran out; so is a write that takes nothing.
    fn write(&mut self, from: &[u8]) -> Result<usize, OutError> {
        let written = write_some(&mut io::writer(self.rt), from);
        match written {
            Ok(_) => {}
            Err(OutError::Failed) => self.faults = self.faults.saturating_add(1),
            Err(OutError::Memory) => self.refused = self.refused.saturating_add(1),
        }
        written
    }
}
