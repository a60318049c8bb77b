//! Sinks, which are written to.
ghost use Rattle.std.specs.Prelude.{◌≡◌, ◌<◌, ◌≤◌, length, IfOk, OnOk, OnErr};
ghost use Rattle.std.specs.Io.KnownBytes.{Appends, WriteAppends};
ghost use Rattle.tap_outside.specs.Counts.{counted, Rose};
ghost use Rattle.tap_outside.specs.Outcomes.{OnFailed, OnMemory};
ghost use Rattle.tap_outside.specs.Seen.{IsRefused, SinkSeen};
ghost use Rattle.tap_outside.specs.Sinks.{AppendsFront};

use crate::OutError;

/// A stream that takes bytes at its end. Contracts see the bytes that were written, if it reports
/// them, the number of its faults, and that of the writes that ran out of memory; neither number
/// falls, and both saturate at `u64::MAX`.
pub trait Sink {
    ghost seen: { Self → SinkSeen };

    /// Writes bytes from the start of a piece that isn't empty, at least one, and returns their
    /// number. After an error nothing was written. Only `Failed` counts a fault, one, and only
    /// `Memory` a write that ran out of memory.
    fn write(&mut self, from: &[u8]) -> Result<usize, OutError>
        requires { 0 < length from.now }
        ensures bound { IfOk result (λ n. (0 < n) × (n ≤ length from.now)) }
        ensures bytes { WriteAppends (seen self.old).written (seen self.new).written
            result from.now }

        ensures later { (seen self.old).faults ≤ (seen self.new).faults }
        ensures faultless { OnOk result ((seen self.new).faults ≡ (seen self.old).faults) }
        ensures cause { OnFailed result ((seen self.new).faults ≡ counted (seen self.old).faults) }
        ensures taken { OnOk result ((seen self.new).refused ≡ (seen self.old).refused) }
        ensures unrefused { OnFailed result ((seen self.new).refused ≡ (seen self.old).refused) }
        ensures memory { OnMemory result (IsRefused (seen self.old) (seen self.new)) };
}

/// Writes all bytes, with as many writes as needed. After an error a prefix of them was written.
pub fn write_whole<S: Sink>(sink: &mut S, bytes: &[u8]) -> Result<(), OutError>
    ensures ok { OnOk result
        (Appends (S.seen sink.old).written (S.seen sink.new).written bytes.now) }
    ensures err { OnErr result
        (AppendsFront (S.seen sink.old).written (S.seen sink.new).written bytes.now) }

    ensures later { (S.seen sink.old).faults ≤ (S.seen sink.new).faults }
    ensures faultless { OnOk result ((S.seen sink.new).faults ≡ (S.seen sink.old).faults) }
    ensures cause { OnFailed result
        ((S.seen sink.new).faults ≡ counted (S.seen sink.old).faults) }
    ensures taken { OnOk result ((S.seen sink.new).refused ≡ (S.seen sink.old).refused) }
    ensures unrefused { OnFailed result
        ((S.seen sink.new).refused ≡ (S.seen sink.old).refused) }
    ensures memory { OnMemory result ((S.seen sink.new).faults ≡ (S.seen sink.old).faults) }
    ensures refused { OnMemory result (Rose (S.seen sink.old).refused (S.seen sink.new).refused) }
{
    let mut at = 0;
    while at < bytes.len() {
        let (_, rest) = bytes.split_at(at);
        at += sink.write(rest)?;
    }
    Ok(())
}
