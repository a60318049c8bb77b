//! The buffer that sources are read into, a piece at a time.
ghost use Rattle.std.specs.Prelude.{◌≡◌, ◌≤◌, [], length, IfOk, OnErr, OnOk};
ghost use Rattle.capture_reading.specs.Sources.{FailedToGive, GavePiece};

use frame_view::{Memory, PIECE};
use std::alloc::Global;
use std::marker::Model;
use tap_outside::{Failed, Source};

/// A buffer that holds a piece of a source. One serves any number of sources, one after another.
/// Contracts see it as the bytes of the piece, at most 65,536.
#[derive(Debug, Drop)]
pub struct Buffer {
    /// 65,536 bytes: first the piece, then what earlier reads left there.
    bytes: Vec<u8>,
    /// The number of bytes of the piece, 0 before the first read.
    count: usize,
}

impl Model for Buffer {
    ghost use Rattle.std.specs.Prelude.{◌≡◌, ◌≤◌, ℕ, List, length, take};

    ghost Value = { List ℕ };

    ghost view = { λ buffer. take buffer.count buffer.bytes.items };

    ghost invariant = { λ buffer.
        (length buffer.bytes.items ≡ 65536) × (buffer.count ≤ 65536) };
}

impl Buffer {
    /// A buffer without a piece. The error is that its bytes can't be allocated.
    pub fn new(alloc: Global) -> Result<Buffer, Memory>
        ensures { IfOk result (λ buffer. buffer ≡ []) }
    {
        Ok(Buffer {
            bytes: vec![in alloc; 0; PIECE]?,
            count: 0,
        })
    }

    /// Reads the next piece of a source; a piece without a byte is its end. After `Failed` nothing
    /// was read, and the source's count of faults has risen. It allocates nothing.
    pub fn read<S: Source>(&mut self, source: &mut S) -> Result<(), Failed>
        ensures small { length self.new ≤ 65536 }
        ensures ok { OnOk result (GavePiece (S.seen source.old) (S.seen source.new) self.new) }
        ensures err { OnErr result (FailedToGive (S.seen source.old) (S.seen source.new)) }
        ensures same { OnErr result (self.new ≡ self.old) }
    {
        self.count = source.read(&mut self.bytes[..])?;
        Ok(())
    }

    /// The piece that was read last.
    pub fn piece(&self) -> &[u8]
        ensures piece { result.now ≡ self.now }
        ensures small { length result.now ≤ 65536 }
    {
        let (piece, _) = self.bytes.as_slice().split_at(self.count);
        piece
    }
}
