//! The table of a ring between two threads: its rule, and what each of its steps shows.
ghost use Rattle.ring_words.specs.Knowledge.{all_known};
ghost use Rattle.ring_words.specs.Plays.{Compares, Drains, Fetches, Frees, Looks, Stores};
ghost use Rattle.ring_words.specs.Tables.{IsRing};

use crate::Content;
use crate::knowledge::Known;
use atomic_table::{Play, Seat, Table, TableRule};
use std::alloc::Global;
use std::snapshot::Snapshot;

/// The rule of the table: who owns which block, between any two steps.
pub struct Handover;

impl<B: Content> TableRule<Option<B>, Known, Snapshot<B>> for Handover {
    ghost holds = { λ sample. IsRing B.bytes B.kind B.ready (B.kind sample.value) };

    ghost first = { λ sample. all_known (B.kind sample.value) };
}

/// A status word and a slot for each place of a ring.
pub(crate) type RingTable<B> = Table<Option<B>, Known, Snapshot<B>, Handover, Global>;

/// An end's right to make steps on the table.
pub(crate) type RingSeat<B> = Seat<Option<B>, Known>;

/// The feeder loads the word of the next place, and has the block out where the word is even.
pub(crate) struct FeederLookStep;

impl<B: Content> Play<Option<B>, Known> for FeederLookStep {
    ghost then = { Looks B.bytes B.kind B.ready };
}

/// The feeder stores number and status, and the block is at its place.
pub(crate) struct FeederStoreStep;

impl<B: Content> Play<Option<B>, Known> for FeederStoreStep {
    ghost then = { Stores B.bytes B.kind B.ready };
}

/// The reader loads the word of the next block, and has the block out where the word is odd.
pub(crate) struct WalkerLookStep;

impl<B: Content> Play<Option<B>, Known> for WalkerLookStep {
    ghost then = { Fetches B.bytes B.kind B.ready };
}

/// The reader stores a mark, and the block is at its place.
pub(crate) struct WalkerStoreStep;

impl<B: Content> Play<Option<B>, Known> for WalkerStoreStep {
    ghost then = { λ _. Frees B.bytes B.kind B.ready };
}

/// Both ends in one seat load a word, and learn that what was taken is a prefix of what was
/// retired.
pub(crate) struct CompareStep;

impl<B: Content> Play<Option<B>, Known> for CompareStep {
    ghost then = { λ _ before _ after. Compares B.bytes B.kind B.ready before after };
}

/// Both ends in one seat load the word of the next block, and have the block out.
pub(crate) struct DrainBothStep;

impl<B: Content> Play<Option<B>, Known> for DrainBothStep {
    ghost then = { Drains B.bytes B.kind B.ready };
}
