//! Sources, which are read.
ghost use Rattle.std.specs.Prelude.{◌≡◌, ◌<◌, ◌≤◌, length, drop, take, ◌++◌, IfOk, OnErr, OnOk};
ghost use Rattle.std.specs.Io.{ReadsAtMost};
ghost use Rattle.std.specs.Io.KnownBytes.{ReadConsumes};
ghost use Rattle.tap_outside.specs.Counts.{Rose};
ghost use Rattle.tap_outside.specs.Seen.{SourceSeen};

use crate::Failed;

/// A stream of bytes that is read from its start. Contracts see the name under which a store opened
/// it, the bytes that it has left, if it reports them, those that it gave so far, and the number of
/// its faults, which never falls and saturates at `u64::MAX`.
pub trait Source: Drop {
    ghost seen: { Self → SourceSeen };

    /// Reads the next bytes into the start of a buffer that isn't empty, and returns their number.
    /// 0 is the end, and is returned only if nothing is left. `Failed` is returned only if the
    /// source counts a fault, and then nothing was read; a read that succeeds counts none.
    fn read(&mut self, into: &mut [u8]) -> Result<usize, Failed>
        requires { 0 < length into.old }
        ensures bound { ReadsAtMost result into.new }
        ensures bytes { ReadConsumes (seen self.old).left (seen self.new).left result into.new }
        ensures grows { IfOk result
            (λ n. (seen self.new).given ≡ (seen self.old).given ++ take n into.new) }
        ensures kept { OnErr result ((seen self.new).given ≡ (seen self.old).given) }
        ensures rest { IfOk result (λ n. drop n into.new ≡ drop n into.old) }
        ensures unchanged { OnErr result (into.new ≡ into.old) }
        ensures named { (seen self.new).name ≡ (seen self.old).name }

        ensures later { (seen self.old).faults ≤ (seen self.new).faults }
        ensures faultless { OnOk result ((seen self.new).faults ≡ (seen self.old).faults) }
        ensures cause { OnErr result (Rose (seen self.old).faults (seen self.new).faults) };
}
