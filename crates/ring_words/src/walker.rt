//! The reader's end of a ring between two threads.
ghost use Rattle.std.specs.Prelude.{◌≡◌, ◌+◌, ◌^◌, ◌<◌, true, false, [], ◌∷◌, ◌++◌, length, IfSome};
ghost use Rattle.std.specs.Prelude.{IfNone, OnSome};
ghost use Rattle.ring_words.specs.Rings.{IsMark};

use crate::handover::{Handover, RingSeat, RingTable, WalkerLookStep, WalkerStoreStep};
use crate::knowledge::Known;
use crate::sleepers::{Rest, Sleeper};
use crate::{Content, WalkerEnd};
use atomic_table::{Seat, Shared};
use std::marker::Model;
use std::snapshot::Snapshot;
use std::sync::{Arc, Wait};
use std::time::Duration;

/// The end of a ring between two threads that takes retired blocks and releases them. Contracts see
/// which ring it belongs to, the list of the blocks that it took, whether it has the last of them
/// in hand, and the words that its looks loaded.
#[derive(Drop)]
pub struct TableWalker<B: Content + Drop> {
    /// The words and the places, which both ends share.
    pub(crate) table: Arc<RingTable<B>>,
    /// What this end knows, and its right to make steps.
    pub(crate) seat: RingSeat<B>,
    /// The number of places.
    pub(crate) places: u64,
    /// How many blocks it took.
    pub(crate) taken: u64,
    /// How many of them it released.
    pub(crate) released: u64,
    /// Whether it sleeps, or is about to, until its next block is retired.
    pub(crate) sleeper: Arc<Sleeper>,
}

impl<B: Content + Drop> Model for TableWalker<B> {
    ghost use Rattle.std.specs.Prelude.{nat_lt};
    ghost use Rattle.std.specs.Arc.{arc_value};
    ghost use Rattle.ring_words.specs.TableEnds.{IsSeated, KeepsWalk, Walking};

    ghost Value = { Walking };

    ghost view = { λ end. record {
      id = end.seat.table_id;
      places = end.places;
      kind = end.seat.me.0.kind;
      taken = end.seat.me.0.taken;
      in_hand = nat_lt end.released end.taken;
      marks = end.seat.me.0.marks;
      visits = end.seat.me.0.visits;
    } };

    ghost invariant = { λ end.
        IsSeated (arc_value end.table).shared.table_id end.seat.table_id end.places
        × KeepsWalk end.seat.me end.places end.taken end.released };
}

impl<B: Content + Drop> TableWalker<B> {
    /// The table of its ring. The type says under which rule it is: that of which
    /// `table_ownership_holds` and the laws beside it speak.
    pub fn table(&self) -> &Shared<Option<B>, Known, Snapshot<B>, Handover>
        ensures table { result.now.table_id ≡ self.now.id }
        ensures places { result.now.table_id.slots ≡ self.now.places }
    {
        &self.table.shared
    }

    /// Its seat at that table: the one that knows the reader's side, as contracts see it.
    pub fn seat(&self) -> &Seat<Option<B>, Known>
        ensures table { result.now.table_id ≡ self.now.id }
        ensures walks { result.now.me.0.walks ≡ true }
        ensures kind { result.now.me.0.kind ≡ self.now.kind }
        ensures taken { result.now.me.0.taken ≡ self.now.taken }
        ensures marks { result.now.me.0.marks ≡ self.now.marks }
        ensures visits { result.now.me.0.visits ≡ self.now.visits }
    {
        &self.seat
    }

    /// Sleeps until the feeder retires the next block, and for no longer than `most`: what a reader
    /// does after a `take` that found none. It returns at once where that block is retired, also
    /// between its look at the word and its sleep, since the word of a retired block is odd. The
    /// feeder makes a system call only while it sees that the reader sleeps. It may return for no
    /// reason. No clause says that it sleeps or that it is woken.
    pub fn wait_for_block<R: Wait>(&self, rt: &R, most: Duration) {
        let place = (self.taken % self.places) as usize;
        let mut rest = Rest::new(&self.sleeper);
        rest.say();
        let word = rest.look(&self.table, place);
        if word % 2 == 0 {
            let mark = (word % (1 << 32)) as u32;
            self.table.shared.park_timeout(rt, place, mark, most);
        }
        rest.end();
    }
}

impl<B: Content + Drop> WalkerEnd<B> for TableWalker<B> {
    ghost use Rattle.ring_words.specs.TableEnds.{FoundEven, GaveBack, Stays, Took, TookWord};
    ghost use Rattle.ring_words.specs.TableEnds.{walk_of};

    ghost walk = { walk_of };

    ghost took = { Took };

    ghost gave_back = { λ before after content. GaveBack before after };

    ghost stays = { Stays };

    #[tactic(auto, using(crate::proofs::Hands::even_count_push))]
    fn take(&mut self) -> Option<B>
        requires hand { self.old.in_hand ≡ false }
        ensures kind { IfSome result (λ block. B.kind block ≡ self.old.kind) }
        ensures took { IfSome result (λ block.
            TookWord (B.ready block) self.old self.new (B.bytes block)) }
        ensures few { OnSome result (length self.new.taken < 2 ^ 40) }
        ensures none { IfNone result (FoundEven self.old self.new) }
    {
        let place = (self.taken % self.places) as usize;
        let word = self
            .table
            .shared
            .load::<WalkerLookStep>(&mut self.seat, place);
        if word % 2 == 0 {
            return None;
        }
        self.taken += 1;
        self.table.shared.exchange(&mut self.seat, place, None)
    }

    fn release(&mut self, block: B, mark: u32)
        requires hand { self.old.in_hand ≡ true }
        requires mark { IsMark mark }
        requires kind { B.kind block ≡ self.old.kind }
        ensures released { self.new ≡ record self.old {
          in_hand = false;
          marks = self.old.marks ++ mark ∷ [];
        } }
    {
        let place = (self.released % self.places) as usize;
        self.table
            .shared
            .exchange(&mut self.seat, place, Some(block));
        self.table
            .shared
            .store::<WalkerStoreStep>(&mut self.seat, place, mark as u64);
        self.released += 1;
    }
}
