//! The texts that a reader keeps.
ghost use Rattle.std.specs.Prelude.{◌≡◌, ◌++◌, [], flat_map, IfOk, OnErr, OnOk};
ghost use Rattle.reader_walk.specs.Dumps.{front_in, texts_in};

use frame_view::{Memory, PIECE};
use std::alloc::Global;
use std::marker::Model;
use std::mem;

/// Texts one after another, in pieces of memory. Each text is in one piece.
#[derive(Debug, Drop)]
pub(crate) struct Texts {
    /// The pieces before the last one, in order.
    pub(crate) full: Vec<Vec<u8>>,
    /// The last piece.
    pub(crate) last: Vec<u8>,
}

impl Texts {
    /// No texts. It takes no memory.
    pub(crate) fn new(alloc: Global) -> Texts
        ensures { texts_in result ≡ [] }
    {
        Texts {
            full: Vec::new(alloc),
            last: Vec::new(alloc),
        }
    }

    /// Appends a text, and returns how many bytes of the last piece come before it. After `Memory`
    /// the texts are as before.
    pub(crate) fn add(&mut self, alloc: Global, text: &[u8]) -> Result<usize, Memory>
        ensures added { OnOk result (texts_in self.new ≡ texts_in self.old ++ text.now) }
        ensures front { IfOk result (λ kept. front_in self.new kept ≡ texts_in self.old) }
        ensures err { OnErr result (texts_in self.new ≡ texts_in self.old) }
    {
        self.make_room(alloc, text.len())?;
        let kept = self.last.len();
        self.last.extend_from_slice(text)?;
        Ok(kept)
    }

    /// Keeps so many bytes of the last piece.
    pub(crate) fn take_back(&mut self, kept: usize)
        ensures { texts_in self.new ≡ front_in self.old kept }
    {
        self.last.truncate(kept);
    }

    /// Begins a new piece if the last one has no room for so many bytes more.
    fn make_room(&mut self, alloc: Global, count: usize) -> Result<(), Memory>
        ensures { texts_in self.new ≡ texts_in self.old }
    {
        if count <= self.last.capacity() - self.last.len() {
            return Ok(());
        }
        self.full.reserve(1)?;
        let next = Vec::with_capacity(alloc, count.max(PIECE))?;
        let earlier = mem::replace(&mut self.last, next);
        self.full.push_reserved(earlier);
        Ok(())
    }
}

/// The texts of blocks or slots, one after another. Contracts see their bytes. They aren't in one
/// piece of memory, so that none is copied as more of them come.
#[derive(Debug, Drop)]
pub struct Dump {
    /// The texts.
    texts: Texts,
}

impl Model for Dump {
    ghost use Rattle.std.specs.Prelude.{List, ℕ};

    ghost Value = { List ℕ };

    ghost use Rattle.reader_walk.specs.Dumps.{texts_in};

    ghost view = { λ dump. texts_in dump.texts };
}

impl Dump {
    /// No texts. It takes no memory.
    pub fn new(alloc: Global) -> Dump
        ensures { result ≡ [] }
    {
        Dump {
            texts: Texts::new(alloc),
        }
    }

    /// These texts.
    pub(crate) fn of(texts: Texts) -> Dump
        ensures { result ≡ texts_in texts }
    {
        Dump { texts }
    }

    /// Appends a text. After `Memory` the dump is as before.
    pub fn push(&mut self, alloc: Global, text: &[u8]) -> Result<(), Memory>
        ensures ok { OnOk result (self.new ≡ self.old ++ text.now) }
        ensures err { OnErr result (self.new ≡ self.old) }
    {
        self.texts.add(alloc, text)?;
        Ok(())
    }

    /// Its pieces, in order: those before the last one, and the last one.
    pub fn pieces(&self) -> (&[Vec<u8>], &[u8])
        ensures { flat_map (λ piece. piece.items) result.0.now ++ result.1.now ≡ self.now }
    {
        (self.texts.full.as_slice(), self.texts.last.as_slice())
    }
}
