//! The feeder's end of a ring between two threads.
ghost use Rattle.std.specs.Prelude.{◌≡◌, ◌+◌, ◌^◌, ◌<◌, ◌≤◌, true, [], ◌∷◌, ◌++◌};
ghost use Rattle.std.specs.Prelude.{length};
ghost use Rattle.ring_words.specs.Looks.{IfFree, IfHeld};
ghost use Rattle.ring_words.specs.Rings.{IsStatus};

use crate::handover::{FeederLookStep, FeederStoreStep, Handover, RingSeat, RingTable};
use crate::knowledge::Known;
use crate::sleepers::Sleeper;
use crate::{Content, FeederEnd, Next};
use atomic_table::{Seat, Shared};
use std::marker::Model;
use std::snapshot::Snapshot;
use std::sync::Arc;

/// The end of a ring between two threads that fills blocks and retires them. Contracts see which
/// ring it belongs to, how many blocks it was given, the list of those that it retired, and the
/// words that its looks loaded.
#[derive(Drop)]
pub struct TableFeeder<B: Content + Drop> {
    /// The words and the places, which both ends share.
    pub(crate) table: Arc<RingTable<B>>,
    /// What this end knows, and its right to make steps.
    pub(crate) seat: RingSeat<B>,
    /// The number of places.
    pub(crate) places: u64,
    /// How many blocks it was given.
    pub(crate) given: u64,
    /// How many of them it retired.
    pub(crate) retired: u64,
    /// Whether the reader sleeps, or is about to, until its next block is retired.
    pub(crate) sleeper: Arc<Sleeper>,
}

impl<B: Content + Drop> Model for TableFeeder<B> {
    ghost use Rattle.std.specs.Prelude.{◌^◌};
    ghost use Rattle.std.specs.Arc.{arc_value};
    ghost use Rattle.ring_words.specs.TableEnds.{Feeding, IsSeated, KeepsFeed};

    ghost Value = { Feeding };

    ghost view = { λ end. record {
      id = end.seat.table_id;
      places = end.places;
      kind = end.seat.me.0.kind;
      given = end.given;
      retired = end.seat.me.0.retired;
      looks = end.seat.me.0.looks;
    } };

    ghost invariant = { λ end.
        IsSeated (arc_value end.table).shared.table_id end.seat.table_id end.places
        × KeepsFeed end.seat.me end.places end.given end.retired };
}

impl<B: Content + Drop> TableFeeder<B> {
    /// The table of its ring. The type says under which rule it is: that of which
    /// `table_ownership_holds` and the laws beside it speak.
    pub fn table(&self) -> &Shared<Option<B>, Known, Snapshot<B>, Handover>
        ensures table { result.now.table_id ≡ self.now.id }
        ensures places { result.now.table_id.slots ≡ self.now.places }
    {
        &self.table.shared
    }

    /// Its seat at that table: the one that knows the feeder's side, as contracts see it.
    pub fn seat(&self) -> &Seat<Option<B>, Known>
        ensures table { result.now.table_id ≡ self.now.id }
        ensures feeds { result.now.me.0.feeds ≡ true }
        ensures kind { result.now.me.0.kind ≡ self.now.kind }
        ensures given { result.now.me.0.given ≡ self.now.given }
        ensures retired { result.now.me.0.retired ≡ self.now.retired }
        ensures looks { result.now.me.0.looks ≡ self.now.looks }
    {
        &self.seat
    }
}

impl<B: Content + Drop> FeederEnd<B> for TableFeeder<B> {
    ghost use Rattle.ring_words.specs.TableEnds.{feed_of, found_in, FoundMark, FoundNumber};

    ghost feed = { feed_of };

    ghost found_free = { λ before after content. FoundMark before after };

    #[tactic(auto, using(crate::proofs::Hands::odd_count_push, crate::proofs::Hands::found_odd, crate::proofs::Hands::found_even))]
    fn next(&mut self) -> Next<B>
        requires hand { self.old.given ≤ length self.old.retired + 1 }
        requires room { self.old.given + 1 < 2 ^ 40 }
        ensures block { IfFree result (λ block mark. B.kind block ≡ self.old.kind) }
        ensures free { IfFree result (λ block mark. FoundMark self.old self.new mark) }
        ensures held { IfHeld result (FoundNumber self.old self.new) }
        ensures first { self.old.given ≡ 0 → found_in self.old.looks ≡ [] }
    {
        let place = (self.given % self.places) as usize;
        let word = self
            .table
            .shared
            .load::<FeederLookStep>(&mut self.seat, place);
        if word % 2 == 1 {
            return Next::Held(word / 256);
        }
        self.given += 1;
        match self.table.shared.exchange(&mut self.seat, place, None) {
            Some(block) => Next::Free {
                block,
                mark: word as u32,
            },
            None => unreachable!(),
        }
    }

    fn retire(&mut self, block: B, status: u32)
        requires hand { length self.old.retired < self.old.given }
        requires status { IsStatus status }
        requires kind { B.kind block ≡ self.old.kind }
        requires ready { B.ready block (length self.old.retired + 1) status }
        ensures retired { self.new ≡ record self.old {
          retired = self.old.retired ++ (B.bytes block, status) ∷ [];
        } }
    {
        let place = (self.retired % self.places) as usize;
        self.retired += 1;
        let word = self.retired * 256 + status as u64;
        self.seat.turn();
        self.table
            .shared
            .exchange(&mut self.seat, place, Some(block));
        self.table
            .shared
            .store::<FeederStoreStep>(&mut self.seat, place, word);
        if self.sleeper.is_asleep(&self.seat, self.retired) {
            self.table.shared.wake_one(place);
        }
    }

    ghost use Rattle.std.proofs.Common.{arith};

    ghost far = { λ end. Prim.omega arith };
}
