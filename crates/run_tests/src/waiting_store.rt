//! A store in memory whose sources may wait for a frame.
ghost use Rattle.std.specs.Prelude.{refl};
ghost use Rattle.tap_outside.specs.Sources.{seen_source};
ghost use Rattle.tap_outside.specs.Stores.{seen_store};

use crate::gate_log::GateLog;
use tap_outside::{Failed, MemSource, MemStore, OutError, Source, Store};

/// A source in memory whose third read may wait until the first frame of CPU 0 is to be delivered.
#[derive(Drop)]
pub(crate) struct WaitingSource<'a> {
    /// What it reads.
    source: MemSource,
    /// How many reads there were.
    reads: u64,
    /// By what its third read waits, if it does.
    gate: Option<&'a GateLog>,
}

impl<'a> Source for WaitingSource<'a> {
    ghost seen = { λ source. seen_source source.source };

    fn read(&mut self, into: &mut [u8]) -> Result<usize, Failed> {
        self.reads = self.reads.saturating_add(1);
        match self.gate {
            Some(gate) if self.reads == 3 => gate.wait_for_a_frame(),
            _ => {}
        }
        self.source.read(into)
    }
}

/// A store in memory whose sources wait, if it has a gate for them.
#[derive(Drop)]
pub(crate) struct WaitingStore<'a> {
    /// The files.
    pub(crate) files: MemStore,
    /// By what the third read of each source waits.
    pub(crate) gate: Option<&'a GateLog>,
}

impl<'a> Store for WaitingStore<'a> {
    type Input = WaitingSource<'a>;

    ghost seen = { λ store. seen_store store.files };

    fn fetch(&mut self, name: &[u8]) -> Result<WaitingSource<'a>, OutError> {
        let source = self.files.fetch(name)?;
        Ok(WaitingSource {
            source,
            reads: 0,
            gate: self.gate,
        })
    }

    fn close(&mut self, input: WaitingSource<'a>) {
        self.files.close(input.source);
    }

    fn save(&mut self, name: &[u8], bytes: &[u8]) -> Result<(), OutError> {
        self.files.save(name, bytes)
    }

    ghost untold_reads = { λ store name untold. refl };

    ghost untold_saves = { λ store name untold. refl };
}
