//! A store that keeps its files in memory, and fails when it is told to.
ghost use Rattle.std.specs.Prelude.{◌≡◌, ◌<◌, ◌≤◌, ◌↔◌, [], refl, None, Some, Contains};
ghost use Rattle.std.specs.Prelude.{option_copied, option_map, IfOk, OnOk, OnErr, IsErrOf};
ghost use Rattle.tap_outside.specs.Counts.{counted, Rose};
ghost use Rattle.tap_outside.specs.Contents.{GivesFile, HoldsFile};
ghost use Rattle.tap_outside.specs.Outcomes.{OnFailed, OnMemory};
ghost use Rattle.tap_outside.specs.Seen.{OnlyReads, OnlySaves, and_closed, and_opened, entry_of};
ghost use Rattle.tap_outside.specs.Seen.{meant_store, missed_entry, no_sources};
ghost use Rattle.tap_outside.specs.Sources.{seen_source};
ghost use Rattle.tap_outside.specs.Stores.{FetchFails, PutsFile, after_close, after_failed_fetch};
ghost use Rattle.tap_outside.specs.Stores.{after_failed_save, after_faulty_close, after_fetch};
ghost use Rattle.tap_outside.specs.Stores.{after_save, contents_of, file_of, file_with};
ghost use Rattle.tap_outside.specs.Stores.{fresh_store, seen_store, source_of};

use crate::memory_files::{MemFile, file_named, put_file};
use crate::source_log::SourceLog;
use crate::{MemSource, OutError, Store};
use frame_view::{Memory, MomentList, PIECE};
use std::alloc::Global;
use std::marker::Model;

/// A store that keeps its files in memory. Contracts see its files, the numbers of the fetches and
/// of the saves that fail, how many of each there were and failed, and the sources that were opened
/// and closed.
#[derive(Debug, Drop)]
pub struct MemStore {
    /// Allocates the files and the sources.
    alloc: Global,
    /// The files, each name once.
    files: Vec<MemFile>,
    /// The numbers of the fetches that fail, from 1, in any order.
    failing_fetches: MomentList,
    /// The numbers of the saves that fail, from 1, in any order.
    failing_saves: MomentList,
    /// How many fetches there were, except those that ran out of memory; it stays at the greatest
    /// u64.
    fetches: u64,
    /// How many saves there were, except those that ran out of memory; it stays at the greatest
    /// u64.
    saves: u64,
    /// How many fetches failed, and how many sources had a fault when they were closed.
    read_faults: u64,
    /// The sources that were opened and closed.
    sources: SourceLog<MemSource>,
    /// How many saves failed.
    save_faults: u64,
}

impl Model for MemStore {
    ghost use Rattle.tap_outside.specs.Stores.{MemStoreState};

    ghost Value = { MemStoreState };

    ghost view = { λ store. record {
      files = store.files.items;
      failing_fetches = store.failing_fetches;
      failing_saves = store.failing_saves;
      fetches = store.fetches;
      saves = store.saves;
      read_faults = store.read_faults;
      sources = store.sources;
      save_faults = store.save_faults;
    } };
}

impl MemStore {
    /// An empty store. The fetches and the saves whose numbers, each counted from 1, are in the two
    /// lists fail; one that runs out of memory isn't counted. It takes no memory.
    pub fn new(alloc: Global, failing_fetches: MomentList, failing_saves: MomentList) -> MemStore
        ensures fresh { result ≡ fresh_store failing_fetches failing_saves }
        ensures seen { ⟦<MemStore as Store>⟧.seen result
            ≡ meant_store (Some (λ name. None)) no_sources 0 0 }
    {
        MemStore {
            alloc,
            files: Vec::new(alloc),
            failing_fetches,
            failing_saves,
            fetches: 0,
            saves: 0,
            read_faults: 0,
            sources: SourceLog::new(),
            save_faults: 0,
        }
    }

    /// Sets up a file, in place of one with that name. A read of it gives at most `piece` bytes,
    /// and the reads whose numbers, counted from 1 in each source that is fetched, are in `failing`
    /// fail. After `Memory` the store is as before.
    pub fn put(
        &mut self,
        name: &[u8],
        bytes: &[u8],
        piece: usize,
        failing: MomentList,
    ) -> Result<(), Memory>
        requires { 1 ≤ piece }
        ensures ok { OnOk result (PutsFile self.old.files self.new.files
            (file_with name.now bytes.now piece failing)) }
        ensures same { self.new ≡ record self.old { files = self.new.files } }
        ensures err { OnErr result (self.new ≡ self.old) }

        ensures held { OnOk result
            (HoldsFile (⟦<MemStore as Store>⟧.seen self.new).held name.now bytes.now) }
        ensures only { OnlySaves (⟦<MemStore as Store>⟧.seen self.old)
            (⟦<MemStore as Store>⟧.seen self.new) name.now }
    {
        let file = MemFile::new(self.alloc, name, bytes, piece, failing)?;
        put_file(&mut self.files, file)
    }

    /// What a name holds, borrowed. `None` exactly if the name isn't held.
    pub fn file(&self, name: &[u8]) -> Option<&[u8]>
        ensures { option_copied result ≡ contents_of self.now.files name.now }
    {
        file_named(self.files.as_slice(), name).map(|file| file.bytes())
    }
}

impl Store for MemStore {
    type Input = MemSource;

    ghost seen = { seen_store };

    fn fetch(&mut self, name: &[u8]) -> Result<MemSource, OutError>
        // A fetch fails exactly if its number is among those that are to fail, or the name isn't
        // held.
        ensures fails { IsErrOf result OutError.Failed ↔ FetchFails self.old name.now }
        ensures given { IfOk result (λ input.
            option_map source_of (file_of self.old.files name.now) ≡ Some input) }
        ensures ok { OnOk result (self.new ≡ after_fetch self.old name.now) }
        ensures failed { OnFailed result (self.new ≡ after_failed_fetch self.old name.now) }
        ensures memory { OnMemory result (self.new ≡ self.old) }

        // What each store promises.
        ensures left { IfOk result (λ input.
            GivesFile (seen_store self.old).held name.now (seen_source input).left) }
        ensures fresh { IfOk result (λ input. input.faults ≡ 0) }
        ensures unread { IfOk result (λ input. input.given ≡ []) }
        ensures named { IfOk result (λ input. input.name ≡ name.now) }
        ensures only { OnlyReads (seen_store self.old) (seen_store self.new) }
        ensures opened { OnOk result (self.new.sources ≡ and_opened self.old.sources name.now) }
        ensures missed { OnFailed result
            (self.new.sources ≡ and_closed self.old.sources (missed_entry name.now)) }
        ensures faultless { OnOk result (self.new.read_faults ≡ self.old.read_faults) }
        ensures cause { OnFailed result (Rose self.old.read_faults self.new.read_faults) }
    {
        let number = self.fetches.saturating_add(1);
        let is_to_fail = self.failing_fetches.as_slice().contains(&number);
        match file_named(self.files.as_slice(), name) {
            Some(file) if !is_to_fail => {
                let input = file.open(self.alloc)?;
                self.fetches = number;
                self.sources.opened(name);
                Ok(input)
            }
            _ => {
                self.fetches = number;
                self.read_faults = self.read_faults.saturating_add(1);
                self.sources.missed(name);
                Err(OutError::Failed)
            }
        }
    }

    fn close(&mut self, input: MemSource)
        ensures faulty { 0 < input.faults
            → self.new ≡ after_faulty_close self.old (entry_of (seen_source input)) }
        ensures whole { input.faults ≡ 0
            → self.new ≡ after_close self.old (entry_of (seen_source input)) }

        // What each store promises.
        ensures only { OnlyReads (seen_store self.old) (seen_store self.new) }
        ensures closed { self.new.sources
            ≡ and_closed self.old.sources (entry_of (seen_source input)) }
        ensures faultless { input.faults ≡ 0 → self.new.read_faults ≡ self.old.read_faults }
        ensures rose { 0 < input.faults → Rose self.old.read_faults self.new.read_faults }
    {
        if input.faults() > 0 {
            self.read_faults = self.read_faults.saturating_add(1);
        }
        self.sources.closed(input);
    }

    fn save(&mut self, name: &[u8], bytes: &[u8]) -> Result<(), OutError>
        // A save fails exactly if its number is among those that are to fail; then no file changes.
        ensures fails { IsErrOf result OutError.Failed ↔
            Contains self.old.failing_saves (counted self.old.saves) }
        ensures puts { OnOk result (PutsFile self.old.files self.new.files
            (file_with name.now bytes.now PIECE [])) }
        ensures ok { OnOk result (self.new ≡ after_save self.old self.new.files) }
        ensures failed { OnFailed result (self.new ≡ after_failed_save self.old) }
        ensures memory { OnMemory result (self.new ≡ self.old) }

        // What each store promises.
        ensures saved { OnOk result (HoldsFile (seen_store self.new).held name.now bytes.now) }
        ensures only { OnlySaves (seen_store self.old) (seen_store self.new) name.now }
        ensures faultless { OnOk result (self.new.save_faults ≡ self.old.save_faults) }
        ensures cause { OnFailed result (Rose self.old.save_faults self.new.save_faults) }
    {
        let number = self.saves.saturating_add(1);
        if self.failing_saves.as_slice().contains(&number) {
            self.saves = number;
            self.save_faults = self.save_faults.saturating_add(1);
            return Err(OutError::Failed);
        }
        let failing = MomentList::new(self.alloc);
        self.put(name, bytes, PIECE, failing)?;
        self.saves = number;
        Ok(())
    }

    ghost untold_reads = { λ store name untold. refl };

    ghost untold_saves = { λ store name untold. refl };
}
