//! A source over bytes in memory, which fails when it is told to.
ghost use Rattle.std.specs.Prelude.{◌≡◌, ◌<◌, ◌≤◌, ◌↔◌, ◌++◌, Some, length, drop, take, Contains};
ghost use Rattle.std.specs.Prelude.{IsErr, IfOk, OnErr, OnOk};
ghost use Rattle.std.specs.Io.{ReadsAtMost};
ghost use Rattle.std.specs.Io.KnownBytes.{ReadConsumes};
ghost use Rattle.tap_outside.specs.Counts.{counted, Rose};
ghost use Rattle.tap_outside.specs.Seen.{unread_source};
ghost use Rattle.tap_outside.specs.Sources.{after_failed_read, after_read, fresh_source};
ghost use Rattle.tap_outside.specs.Sources.{read_length, seen_source};

use crate::{Failed, History, Source};
use frame_view::{ByteList, MomentList};
use std::marker::Model;

/// A source over bytes in memory. Contracts see the name of its file, if it is that of one, the
/// bytes that are left, the most that one read gives, the numbers of the reads that fail, and how
/// many reads there were and failed.
#[derive(Debug, Drop)]
pub struct MemSource {
    /// The name of its file. It takes no memory: only contracts read it.
    name: History<u8>,
    /// All bytes of the source, those already read included.
    bytes: ByteList,
    /// How many of them were read, at most all.
    at: usize,
    /// The most bytes that one read gives, at least 1.
    piece: usize,
    /// The numbers of the reads that fail, from 1, in any order.
    failing: MomentList,
    /// How many reads there were; it saturates at `u64::MAX`.
    reads: u64,
    /// How many of them failed; it saturates at `u64::MAX`.
    faults: u64,
}

impl Model for MemSource {
    ghost use Rattle.std.specs.Prelude.{◌≤◌, length, drop, take};
    ghost use Rattle.tap_outside.specs.Seen.{unread_source};
    ghost use Rattle.tap_outside.specs.Sources.{MemSourceState};

    ghost Value = { MemSourceState };

    ghost view = { λ source. record {
      name = source.name.items;
      left = drop source.at source.bytes;
      given = take source.at source.bytes;
      piece = source.piece;
      failing = source.failing;
      reads = source.reads;
      faults = source.faults;
    } };

    ghost invariant = { λ source. (1 ≤ source.piece) × (source.at ≤ length source.bytes) };
}

impl MemSource {
    /// A source of these bytes, in which a read gives at most `piece`. The reads whose numbers,
    /// counted from 1, are in `failing` fail. It takes no memory.
    pub fn new(bytes: ByteList, piece: usize, failing: MomentList) -> MemSource
        requires { 1 ≤ piece }
        ensures fresh { result ≡ fresh_source bytes piece failing }
        ensures seen { ⟦<MemSource as Source>⟧.seen result ≡ unread_source bytes }
    {
        MemSource {
            name: History::new(),
            bytes,
            at: 0,
            piece,
            failing,
            reads: 0,
            faults: 0,
        }
    }

    /// Makes it the source of the file of a name.
    pub(crate) fn set_name(&mut self, name: &[u8])
        ensures { self.new ≡ record self.old { name = name.now } }
    {
        self.name = History::new();
        self.name.extend(name);
    }

    /// The number of reads that failed so far; it saturates at `u64::MAX`.
    pub(crate) fn faults(&self) -> u64
        ensures { result ≡ self.now.faults }
    {
        self.faults
    }
}

impl Source for MemSource {
    ghost seen = { seen_source };

    fn read(&mut self, into: &mut [u8]) -> Result<usize, Failed>
        requires { 0 < length into.old }

        // A read fails exactly if its number is among those that are to fail.
        ensures fails { IsErr result ↔ Contains self.old.failing (counted self.old.reads) }
        ensures given { IfOk result (λ n. n ≡ read_length self.old (length into.old)) }
        ensures ok { IfOk result (λ n. self.new ≡ after_read self.old n) }
        ensures err { OnErr result (self.new ≡ after_failed_read self.old) }

        // What each source promises.
        ensures bound { ReadsAtMost result into.new }
        ensures bytes { ReadConsumes (Some self.old.left) (Some self.new.left) result into.new }
        ensures grows { IfOk result (λ n. self.new.given ≡ self.old.given ++ take n into.new) }
        ensures kept { OnErr result (self.new.given ≡ self.old.given) }
        ensures rest { IfOk result (λ n. drop n into.new ≡ drop n into.old) }
        ensures unchanged { OnErr result (into.new ≡ into.old) }
        ensures named { self.new.name ≡ self.old.name }
        ensures later { self.old.faults ≤ self.new.faults }
        ensures faultless { OnOk result (self.new.faults ≡ self.old.faults) }
        ensures cause { OnErr result (Rose self.old.faults self.new.faults) }
    {
        self.reads = self.reads.saturating_add(1);
        if self.failing.as_slice().contains(&self.reads) {
            self.faults = self.faults.saturating_add(1);
            return Err(Failed);
        }
        let (_, left) = self.bytes.as_slice().split_at(self.at);
        let given = into.len().min(self.piece).min(left.len());
        let (front, _) = left.split_at(given);
        into[..given].copy_from_slice(front);
        self.at += given;
        Ok(given)
    }
}
