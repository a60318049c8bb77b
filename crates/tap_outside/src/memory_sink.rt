//! A sink that keeps its bytes in memory, and fails when it is told to.
ghost use Rattle.std.specs.Prelude.{◌≡◌, ◌<◌, ◌≤◌, ◌↔◌, [], Some, length, Contains, IfOk, OnOk};
ghost use Rattle.std.specs.Prelude.{IsErrOf};
ghost use Rattle.std.specs.Io.KnownBytes.{WriteAppends};
ghost use Rattle.tap_outside.specs.Counts.{counted};
ghost use Rattle.tap_outside.specs.Outcomes.{OnFailed, OnMemory};
ghost use Rattle.tap_outside.specs.Seen.{IsRefused};
ghost use Rattle.tap_outside.specs.Sinks.{after_failed_write, after_refusal, after_write};
ghost use Rattle.tap_outside.specs.Sinks.{fresh_sink};
ghost use Rattle.tap_outside.specs.Sinks.{seen_sink};

use crate::{OutError, Sink};
use frame_view::MomentList;
use std::alloc::Global;
use std::marker::Model;

/// A sink that keeps its bytes in memory. Contracts see the bytes written, the numbers of the
/// writes that fail, and how many writes there were, failed, and ran out of memory.
#[derive(Debug, Drop)]
pub struct MemSink {
    /// The bytes written so far.
    bytes: Vec<u8>,
    /// The numbers of the writes that fail, from 1, in any order.
    failing: MomentList,
    /// How many writes there were, except those that ran out of memory; it stays at the greatest
    /// u64.
    writes: u64,
    /// How many of them failed; it saturates at `u64::MAX`.
    faults: u64,
    /// How many writes ran out of memory; it saturates at `u64::MAX`.
    refused: u64,
}

impl Model for MemSink {
    ghost use Rattle.tap_outside.specs.Sinks.{MemSinkState};

    ghost Value = { MemSinkState };

    ghost view = { λ sink. record {
      written = sink.bytes.items;
      failing = sink.failing;
      writes = sink.writes;
      faults = sink.faults;
      refused = sink.refused;
    } };
}

impl MemSink {
    /// An empty sink. The writes whose numbers, counted from 1, are in `failing` fail; a write that
    /// runs out of memory isn't counted. It takes no memory.
    pub fn new(alloc: Global, failing: MomentList) -> MemSink
        ensures fresh { result ≡ fresh_sink failing }
        ensures seen { ⟦<MemSink as Sink>⟧.seen result
            ≡ record { written = Some []; faults = 0; refused = 0 } }
    {
        MemSink {
            bytes: Vec::new(alloc),
            failing,
            writes: 0,
            faults: 0,
            refused: 0,
        }
    }

    /// The bytes written so far, borrowed.
    pub fn written(&self) -> &[u8]
        ensures { (⟦<MemSink as Sink>⟧.seen self.now).written ≡ Some result.now }
    {
        self.bytes.as_slice()
    }
}

impl Sink for MemSink {
    ghost seen = { seen_sink };

    fn write(&mut self, from: &[u8]) -> Result<usize, OutError>
        requires { 0 < length from.now }

        // A write fails exactly if its number is among those that are to fail. Otherwise it takes
        // the whole piece, or runs out of memory.
        ensures fails { IsErrOf result OutError.Failed ↔
            Contains self.old.failing (counted self.old.writes) }
        ensures whole { IfOk result (λ n. n ≡ length from.now) }
        ensures ok { OnOk result (self.new ≡ after_write self.old from.now) }
        ensures failed { OnFailed result (self.new ≡ after_failed_write self.old) }
        ensures memory { OnMemory result (self.new ≡ after_refusal self.old) }

        // What each sink promises.
        ensures bound { IfOk result (λ n. (0 < n) × (n ≤ length from.now)) }
        ensures bytes { WriteAppends (Some self.old.written) (Some self.new.written)
            result from.now }
        ensures later { self.old.faults ≤ self.new.faults }
        ensures faultless { OnOk result (self.new.faults ≡ self.old.faults) }
        ensures cause { OnFailed result (self.new.faults ≡ counted self.old.faults) }
        ensures taken { OnOk result (self.new.refused ≡ self.old.refused) }
        ensures unrefused { OnFailed result (self.new.refused ≡ self.old.refused) }
        ensures refused { OnMemory result (IsRefused (seen_sink self.old) (seen_sink self.new)) }
    {
        let number = self.writes.saturating_add(1);
        if self.failing.as_slice().contains(&number) {
            self.writes = number;
            self.faults = self.faults.saturating_add(1);
            return Err(OutError::Failed);
        }
        if self.bytes.extend_from_slice(from).is_err() {
            self.refused = self.refused.saturating_add(1);
            return Err(OutError::Memory);
        }
        self.writes = number;
        Ok(from.len())
    }
}
