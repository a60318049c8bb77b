//! A store and a sink whose calls fail as a script says, and that record which calls there were.
ghost use Rattle.std.specs.Prelude.{◌≡◌, ◌≤◌, ◌<◌, [], length, refl, None, false, true, IfOk};

use crate::cases::{Case, has_number};
use crate::files::push_line;
use frame_view::{Memory, MomentList};
use history::History;
use scenario_texts::{call_number, number};
use std::str;
use tap_outside::{Failed, MemStore, OutError, Sink, Source, SourceLog, Store};

/// A source of a store's file.
#[derive(Drop)]
pub(crate) struct ScriptSource<'a> {
    /// The name of the file. It takes no memory: only contracts read it.
    name: History<u8>,
    /// How many fetches there were before its own.
    fetch: usize,
    /// The bytes of the file.
    bytes: Vec<u8>,
    /// How many of them were read since they last began.
    at: usize,
    /// The most bytes that one read gives.
    piece: usize,
    /// The numbers of the reads that fail, from 1.
    failing: &'a str,
    /// One more such number; 0 for none.
    fault: u64,
    /// The place from which the bytes are read again after their end; it ends where this isn't one
    /// of their places.
    again: usize,
    /// How many reads there were.
    reads: u64,
    /// How many of them failed; it stays at the greatest u64.
    faults: u64,
    /// The bytes that the others gave.
    given: History<u8>,
}

impl<'a> Source for ScriptSource<'a> {
    ghost seen = { λ source. record {
      name = source.name.items;
      left = None;
      given = source.given.items;
      faults = source.faults;
    } };

    fn read(&mut self, into: &mut [u8]) -> Result<usize, Failed> {
        self.reads = self.reads.saturating_add(1);
        if self.reads == self.fault || has_number(self.failing, self.reads) {
            self.faults = self.faults.saturating_add(1);
            return Err(Failed);
        }
        let bytes = self.bytes.as_slice();
        if self.at >= bytes.len() && self.again < bytes.len() {
            self.at = self.again;
        }
        let (_, left) = bytes.split_at(self.at.min(bytes.len()));
        let given = into.len().min(left.len()).min(self.piece);
        let (front, _) = left.split_at(given);
        into[..given].copy_from_slice(front);
        self.given.extend(front);
        self.at = self.at.saturating_add(given);
        Ok(given)
    }
}

/// The fetches and saves of a run, in order.
#[derive(Drop)]
pub(crate) struct Calls {
    /// The names that were fetched, each a line.
    pub(crate) fetched: String,
    /// How often the source of each of them was read.
    pub(crate) reads: Vec<u64>,
    /// The names that were saved, each a line.
    pub(crate) saved: String,
}

/// A store in memory that follows a script. It doesn't report what it holds, and counts a fault
/// also at each fetch and each save that succeeds.
#[derive(Drop)]
pub(crate) struct ScriptStore<'a> {
    /// The run, which says what fails.
    case: Case<'a>,
    /// The files.
    pub(crate) files: MemStore,
    /// The fetches and saves so far, except one that is out of memory.
    pub(crate) calls: Calls,
    /// How many fetches, and sources with a fault, were counted; it stays at the greatest u64.
    read_faults: u64,
    /// The sources that were opened and closed.
    sources: SourceLog<ScriptSource<'a>>,
    /// How many saves were counted; it stays at the greatest u64.
    save_faults: u64,
}

impl Calls {
    /// How many saves there were.
    pub(crate) fn saves(&self) -> usize {
        self.saved.as_str().lines().count()
    }

    /// How often the first source of a name was read.
    pub(crate) fn reads_of(&self, name: &str) -> u64 {
        let fetch = self.first_fetch(name);
        self.reads.as_slice().get(fetch).copied().unwrap_or(0)
    }

    /// How many fetches there were before the first one of a name.
    pub(crate) fn first_fetch(&self, name: &str) -> usize {
        for (fetch, line) in self.fetched.as_str().lines().enumerate() {
            if line == name {
                return fetch;
            }
        }
        0
    }
}

impl<'a> ScriptStore<'a> {
    /// A store with these files, which fails as a run says.
    pub(crate) fn new(case: Case<'a>, files: MemStore) -> ScriptStore<'a> {
        ScriptStore {
            case,
            files,
            calls: Calls {
                fetched: String::new(case.alloc),
                reads: Vec::new(case.alloc),
                saved: String::new(case.alloc),
            },
            read_faults: 0,
            sources: SourceLog::new(),
            save_faults: call_number(case.scenario.value_named("faults", "save")),
        }
    }

    /// Whether the next call is out of memory.
    fn is_poor(&self) -> bool {
        let count = self.calls.saves().saturating_add(self.calls.reads.len());
        self.case
            .has("poor", "call", (count as u64).saturating_add(1))
    }

    /// A source of a file that nobody has read, at the fetch after this number of others.
    fn open(&self, file: &[u8], name: &str, fetch: usize) -> Result<ScriptSource<'a>, Memory>
        ensures fresh { IfOk result (λ source. source.faults ≡ 0) }
        ensures unread { IfOk result (λ source. source.given.items ≡ []) }
        ensures named { IfOk result (λ source. source.name.items ≡ file.now) }
    {
        let case = self.case;
        let is_fault = case.fault.word == "fail" && case.fault.what == name;
        let bytes = self.files.file(name.as_bytes()).unwrap_or(&[]);
        let mut its_name = History::new();
        its_name.extend(file);
        Ok(ScriptSource {
            name: its_name,
            fetch,
            bytes: bytes.to_vec(case.alloc)?,
            at: 0,
            piece: case.piece(name),
            failing: case.scenario.value_named("fail", name),
            fault: if is_fault { case.fault.number } else { 0 },
            again: number(case.scenario.value_named("endless", name)),
            reads: 0,
            faults: 0,
            given: History::new(),
        })
    }

    /// Puts a file into the store, or what a save of this number leaves of it that fails in half;
    /// gives whether the save doesn't fail.
    fn put(&mut self, name: &[u8], bytes: &[u8], save: u64) -> Result<bool, Memory>
        ensures reads { self.new.read_faults ≡ self.old.read_faults }
        ensures saves { self.new.save_faults ≡ self.old.save_faults }
        ensures sources { self.new.sources ≡ self.old.sources }
    {
        let left = self.case.half(save);
        let is_failing = self.case.has("fail", "save", save);
        if !is_failing || left.is_some() {
            let failing = MomentList::new(self.case.alloc);
            let front = bytes.get(..left.unwrap_or(usize::MAX)).unwrap_or(bytes);
            self.files.put(name, front, 1, failing)?;
        }
        Ok(!is_failing && left.is_none())
    }
}

impl<'a> Store for ScriptStore<'a> {
    type Input = ScriptSource<'a>;

    ghost seen = { λ store. record {
      held = None;
      to_read = λ _. true;
      to_save = λ _. true;
      read_faults = store.read_faults;
      sources = store.sources;
      save_faults = store.save_faults;
      exact = false;
    } };

    fn fetch(&mut self, name: &[u8]) -> Result<ScriptSource<'a>, OutError> {
        if self.is_poor() {
            return Err(OutError::Memory);
        }
        let text = str::from_utf8(name).unwrap_or("no text");
        let fetch = self.calls.reads.len();
        push_line(&mut self.calls.fetched, text)?;
        self.calls.reads.push(0)?;
        let number = (fetch as u64).saturating_add(1);
        if self.case.has("fail", "fetch", number) || self.files.file(name).is_none() {
            self.read_faults = self.read_faults.saturating_add(1);
            self.sources.missed(name);
            return Err(OutError::Failed);
        }
        let source = self.open(name, text, fetch)?;
        self.read_faults = self.read_faults.saturating_add(1);
        self.sources.opened(name);
        Ok(source)
    }

    fn close(&mut self, input: ScriptSource<'a>) {
        if let Some(reads) = self.calls.reads.get_mut(input.fetch) {
            *reads = input.reads;
        }
        if input.faults > 0 {
            self.read_faults = self.read_faults.saturating_add(1);
        }
        self.sources.closed(input);
    }

    fn save(&mut self, name: &[u8], bytes: &[u8]) -> Result<(), OutError> {
        if self.is_poor() {
            return Err(OutError::Memory);
        }
        let text = str::from_utf8(name).unwrap_or("no text");
        push_line(&mut self.calls.saved, text)?;
        let save = self.calls.saves() as u64;
        let is_saved = self.put(name, bytes, save)?;
        self.save_faults = self.save_faults.saturating_add(1);
        if is_saved {
            Ok(())
        } else {
            Err(OutError::Failed)
        }
    }

    ghost untold_reads = { λ store name untold. refl };

    ghost untold_saves = { λ store name untold. refl };
}

/// How many bytes one write of a script's sink takes at most.
pub(crate) const TAKEN: usize = 50;

/// A sink that takes at most 50 bytes by one write, and whose writes fail as a script says.
#[derive(Drop)]
pub(crate) struct ScriptSink<'a> {
    /// What was written.
    pub(crate) bytes: Vec<u8>,
    /// The run, which says what fails.
    case: Case<'a>,
    /// How many writes there were.
    writes: u64,
    /// How many of them failed; it stays at the greatest u64.
    faults: u64,
    /// How many ran out of memory; it stays at the greatest u64.
    refused: u64,
}

impl<'a> ScriptSink<'a> {
    /// An empty sink.
    pub(crate) fn new(case: Case<'a>) -> ScriptSink<'a> {
        ScriptSink {
            case,
            bytes: Vec::new(case.alloc),
            writes: 0,
            faults: 0,
            refused: 0,
        }
    }
}

impl<'a> Sink for ScriptSink<'a> {
    ghost seen = { λ sink. record {
      written = None;
      faults = sink.faults;
      refused = sink.refused;
    } };

    fn write(&mut self, from: &[u8]) -> Result<usize, OutError> {
        self.writes = self.writes.saturating_add(1);
        if self.case.has("fail", "write", self.writes) {
            self.faults = self.faults.saturating_add(1);
            return Err(OutError::Failed);
        }
        let (front, _) = from.split_at(from.len().min(TAKEN));
        let is_poor = self.case.has("poor", "write", self.writes);
        if is_poor || self.bytes.extend_from_slice(front).is_err() {
            self.refused = self.refused.saturating_add(1);
            return Err(OutError::Memory);
        }
        Ok(front.len())
    }
}
