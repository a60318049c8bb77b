//! A store in memory that has no fault.
ghost use Rattle.std.specs.Prelude.{◌≡◌, ◌<◌, ◌≤◌, ◌++◌, refl, None, Some, length, drop};
ghost use Rattle.std.specs.Prelude.{take, IfOk, OnOk, OnErr, IsOk};
ghost use Rattle.std.specs.Io.{ReadsAtMost};
ghost use Rattle.std.specs.Io.KnownBytes.{ReadConsumes};
ghost use Rattle.tap_outside.specs.Contents.{HoldsFile};
ghost use Rattle.tap_outside.specs.Seen.{OnlySaves, meant_store, no_sources, unread_source};
ghost use Rattle.tap_outside.specs.Sources.{seen_sure_source, unread_sure_source};
ghost use Rattle.tap_outside.specs.Stores.{seen_sure_store};

use crate::source_log::SourceLog;
use crate::{Failed, History, MemStore, OutError, Source, Store};
use frame_view::{ByteList, Memory, MomentList, PIECE};
use std::alloc::Global;
use std::marker::Model;

/// A source over bytes in memory that never fails. Contracts see the name of its file, if it is
/// that of one, the bytes that are left, and those that its reads gave.
#[derive(Debug, Drop)]
pub struct SureSource {
    /// The name of its file. It takes no memory: only contracts read it.
    name: History<u8>,
    /// All bytes of the source, those already read included.
    bytes: ByteList,
    /// How many of them were read, at most all.
    at: usize,
}

impl Model for SureSource {
    ghost use Rattle.std.specs.Prelude.{◌≤◌, length, drop, take};
    ghost use Rattle.tap_outside.specs.Sources.{SureSourceState};

    ghost Value = { SureSourceState };

    ghost view = { λ source. record {
      name = source.name.items;
      left = drop source.at source.bytes;
      given = take source.at source.bytes;
    } };

    ghost invariant = { λ source. source.at ≤ length source.bytes };
}

impl SureSource {
    /// A source of these bytes. It takes no memory.
    pub fn new(bytes: ByteList) -> SureSource
        ensures value { result ≡ unread_sure_source bytes }
        ensures seen { ⟦<SureSource as Source>⟧.seen result ≡ unread_source bytes }
    {
        SureSource {
            name: History::new(),
            bytes,
            at: 0,
        }
    }
}

impl Source for SureSource {
    ghost seen = { seen_sure_source };

    fn read(&mut self, into: &mut [u8]) -> Result<usize, Failed>
        requires { 0 < length into.old }
        ensures sure { IsOk result }
        ensures bound { ReadsAtMost result into.new }
        ensures bytes { ReadConsumes (Some self.old.left) (Some self.new.left) result into.new }
        ensures grows { IfOk result (λ n. self.new.given ≡ self.old.given ++ take n into.new) }
        ensures rest { IfOk result (λ n. drop n into.new ≡ drop n into.old) }
        ensures named { self.new.name ≡ self.old.name }
    {
        let (_, left) = self.bytes.as_slice().split_at(self.at);
        let given = into.len().min(left.len());
        let (front, _) = left.split_at(given);
        into[..given].copy_from_slice(front);
        self.at += given;
        Ok(given)
    }
}

/// A store in memory that has no fault: a name that was never set up or saved gives an empty
/// source. Contracts see its files and its record.
#[derive(Debug, Drop)]
pub struct SureStore {
    /// Allocates the files and the sources.
    alloc: Global,
    /// What keeps the files. No list makes it fail, and its counts are not looked at.
    files: MemStore,
    /// The sources that were opened and closed.
    sources: SourceLog<SureSource>,
}

impl Model for SureStore {
    ghost use Rattle.tap_outside.specs.Stores.{SureStoreState};

    ghost Value = { SureStoreState };

    ghost view = { λ store. record {
      files = store.files.files;
      sources = store.sources;
    } };
}

impl SureStore {
    /// An empty store. It takes no memory.
    pub fn new(alloc: Global) -> SureStore
        ensures { ⟦<SureStore as Store>⟧.seen result
            ≡ meant_store (Some (λ name. None)) no_sources 0 0 }
    {
        let files = MemStore::new(alloc, MomentList::new(alloc), MomentList::new(alloc));
        SureStore {
            alloc,
            files,
            sources: SourceLog::new(),
        }
    }

    /// Makes a name hold these bytes. After `Memory` the store is as before.
    pub fn put(&mut self, name: &[u8], bytes: &[u8]) -> Result<(), Memory>
        ensures held { OnOk result
            (HoldsFile (⟦<SureStore as Store>⟧.seen self.new).held name.now bytes.now) }
        ensures only { OnlySaves (⟦<SureStore as Store>⟧.seen self.old)
            (⟦<SureStore as Store>⟧.seen self.new) name.now }
        ensures err { OnErr result (self.new ≡ self.old) }
    {
        let failing = MomentList::new(self.alloc);
        self.files.put(name, bytes, PIECE, failing)
    }
}

impl Store for SureStore {
    type Input = SureSource;

    ghost seen = { seen_sure_store };

    fn fetch(&mut self, name: &[u8]) -> Result<SureSource, OutError> {
        let bytes = match self.files.file(name) {
            Some(held) => held.to_vec(self.alloc)?,
            None => Vec::new(self.alloc),
        };
        let mut source = SureSource::new(ByteList::from_vec(bytes));
        source.name.extend(name);
        self.sources.opened(name);
        Ok(source)
    }

    fn close(&mut self, input: SureSource) {
        self.sources.closed(input);
    }

    fn save(&mut self, name: &[u8], bytes: &[u8]) -> Result<(), OutError> {
        self.put(name, bytes)?;
        Ok(())
    }

    ghost untold_reads = { λ store name untold. refl };

    ghost untold_saves = { λ store name untold. refl };
}
