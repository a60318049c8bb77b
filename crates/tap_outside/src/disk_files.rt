//! Real files. Only the system knows what they hold, so contracts say nothing about their content.
ghost use Rattle.std.specs.Prelude.{◌≡◌, ◌≤◌, refl, None, IfOk, OnOk};
ghost use Rattle.tap_outside.specs.Counts.{counted};
ghost use Rattle.tap_outside.specs.Outcomes.{OnFailed, OnMemory};
ghost use Rattle.tap_outside.specs.Seen.{meant_store, no_sources, unread_file};

use crate::pieces::write_each;
use crate::source_log::SourceLog;
use crate::system_calls::read_front;
use crate::written_file::WrittenFile;
use crate::{Failed, History, OutError, Pieces, Source, Store, write_whole};
use frame_view::PIECE;
use std::alloc::Global;
use std::fs;
use std::fs::OpenFile;
use std::io::Read;
use std::marker::Model;
use std::rt::Files;

/// A real file, open for reading. Contracts see its name, the bytes that its reads gave, how many
/// reads failed, and what the file tells of the bytes that it has left: one of the system tells
/// nothing.
#[derive(Drop)]
pub struct DiskSource<F: Read> {
    /// Its name. It takes no memory: only contracts read it.
    name: History<u8>,
    /// The file, open; it is closed when the source is dropped.
    file: F,
    /// What a read takes from the system, before it goes to the caller.
    buffer: Vec<u8>,
    /// The bytes that reads gave so far.
    given: History<u8>,
    /// How many reads failed; it saturates at `u64::MAX`.
    faults: u64,
}

impl<F: Read> Model for DiskSource<F> {
    ghost use Rattle.std.specs.Prelude.{◌<◌, length};
    ghost use Rattle.tap_outside.specs.Seen.{SourceSeen};

    ghost Value = { SourceSeen };

    ghost view = { λ source. record {
      name = source.name.items;
      left = F.remaining source.file;
      given = source.given.items;
      faults = source.faults;
    } };

    ghost invariant = { λ source. 0 < length source.buffer.items };
}

impl<F: Read + Drop> Source for DiskSource<F> {
    ghost seen = { λ source. source };

    /// A read that a signal interrupts is tried again, 16 times at most. Every other error is a
    /// fault.
    fn read(&mut self, into: &mut [u8]) -> Result<usize, Failed> {
        let most = into.len().min(self.buffer.len());
        match read_front(&mut self.file, &mut self.buffer, most) {
            Ok(count) => {
                let (piece, _) = self.buffer.split_at(count);
                into[..count].copy_from_slice(piece);
                self.given.extend(piece);
                Ok(count)
            }
            Err(_) => {
                self.faults = self.faults.saturating_add(1);
                Err(Failed)
            }
        }
    }
}

/// Real files, by their paths in UTF-8. A file that doesn't exist, a folder, and a name that isn't
/// a path count as faults when they are fetched. A save overwrites an existing file. An error that
/// the system reports only after a file is closed isn't seen.
#[derive(Drop)]
pub struct DiskStore<'a, R: Files> {
    /// What opens files, and allocates a source's buffer.
    rt: &'a R,
    /// How many fetches failed, and how many sources had a fault when they were closed.
    read_faults: u64,
    /// The sources that were opened and closed.
    sources: SourceLog<DiskSource<R::File>>,
    /// How many saves failed.
    save_faults: u64,
}

impl<'a, R: Files + AllocGlobal> DiskStore<'a, R>
where
    R::File: Send,
{
    /// The files of this system, with no fault so far. It takes no memory.
    pub fn new(rt: &'a R) -> DiskStore<'a, R>
        ensures { ⟦<DiskStore<'a, R> as Store>⟧.seen result ≡ meant_store None no_sources 0 0 }
    {
        DiskStore {
            rt,
            read_faults: 0,
            sources: SourceLog::new(),
            save_faults: 0,
        }
    }

    /// The number of faults of reading so far; it saturates at `u64::MAX`.
    pub fn read_faults(&self) -> u64
        ensures { result ≡ (⟦<DiskStore<'a, R> as Store>⟧.seen self.now).read_faults }
    {
        self.read_faults
    }

    /// The number of faults of saving so far; it saturates at `u64::MAX`.
    pub fn save_faults(&self) -> u64
        ensures { result ≡ (⟦<DiskStore<'a, R> as Store>⟧.seen self.now).save_faults }
    {
        self.save_faults
    }
}

impl<'a, R: Files + AllocGlobal> Store for DiskStore<'a, R>
where
    R::File: Send,
{
    type Input = DiskSource<R::File>;

    ghost seen = { λ store. meant_store None store.sources store.read_faults store.save_faults };

    fn fetch(&mut self, name: &[u8]) -> Result<DiskSource<R::File>, OutError> {
        let opened = open_source(self.rt, name);
        match opened {
            Ok(_) => self.sources.opened(name),
            Err(OutError::Failed) => {
                self.read_faults = self.read_faults.saturating_add(1);
                self.sources.missed(name);
            }
            Err(OutError::Memory) => {}
        }
        opened
    }

    fn close(&mut self, input: DiskSource<R::File>) {
        if input.faults > 0 {
            self.read_faults = self.read_faults.saturating_add(1);
        }
        self.sources.closed(input);
    }

    fn save(&mut self, name: &[u8], bytes: &[u8]) -> Result<(), OutError> {
        let saved = write_file(self.rt, name, bytes);
        counted_save(saved, &mut self.save_faults)
    }

    fn save_pieces<P: Pieces + Drop>(
        &mut self,
        alloc: Global,
        name: &[u8],
        pieces: P,
    ) -> Result<(), OutError> {
        let saved = write_pieces(self.rt, alloc, name, pieces);
        counted_save(saved, &mut self.save_faults)
    }

    ghost untold_reads = { λ store name untold. refl };

    ghost untold_saves = { λ store name untold. refl };
}

/// Opens a file for reading. A folder, which the system would open too, is a failure.
fn open_source<R: Files + AllocGlobal>(rt: &R, name: &[u8]) -> Result<DiskSource<R::File>, OutError>
    ensures { IfOk result (λ input. input ≡ record (unread_file name.now) { left = input.left }) }
{
    let path = str::from_utf8(name).map_err(|_| Failed)?;
    let file = fs::open(rt, path)?;
    if file.metadata()?.is_dir() {
        return Err(OutError::Failed);
    }
    let mut its_name = History::new();
    its_name.extend(name);
    Ok(DiskSource {
        name: its_name,
        file,
        buffer: vec![in rt.alloc(); 0; PIECE]?,
        given: History::new(),
        faults: 0,
    })
}

/// Counts a save that failed, and returns what became of it.
fn counted_save(saved: Result<(), OutError>, faults: &mut u64) -> Result<(), OutError>
    ensures same { result ≡ saved }
    ensures failed { OnFailed saved (faults.new ≡ counted faults.old) }
    ensures ok { OnOk saved (faults.new ≡ faults.old) }
    ensures memory { OnMemory saved (faults.new ≡ faults.old) }
    ensures later { faults.old ≤ faults.new }
{
    if let Err(OutError::Failed) = saved {
        *faults = faults.saturating_add(1);
    }
    saved
}

/// Writes a file with these bytes. Once it is open its old bytes are gone, so from then on running
/// out of memory is a fault: the file may hold anything.
fn write_file<R: Files>(rt: &R, name: &[u8], bytes: &[u8]) -> Result<(), OutError> {
    let path = str::from_utf8(name).map_err(|_| Failed)?;
    let mut file = WrittenFile::new(fs::create(rt, path)?);
    write_whole(&mut file, bytes)
}

/// Writes a file with the bytes that are left of some pieces, as `write_file` does.
fn write_pieces<R: Files, P: Pieces + Drop>(
    rt: &R,
    alloc: Global,
    name: &[u8],
    pieces: P,
) -> Result<(), OutError> {
    let path = str::from_utf8(name).map_err(|_| Failed)?;
    let buffer = Vec::with_capacity(alloc, PIECE)?;
    let mut file = WrittenFile::new(fs::create(rt, path)?);
    write_each(&mut file, buffer, pieces)
}
