//! A ring that frames are put into: its machine, and the notes of what happened.
ghost use Rattle.std.specs.Prelude.{◌≡◌, ◌+◌, ◌^◌, ◌<◌, ◌≤◌, ◌≢◌, ◌↔◌, ◌∷◌, ◌++◌, ℕ, [], length};
ghost use Rattle.std.specs.Prelude.{IsOk, IfOk, IfErr, OnOk, OnErr, Err, vec_capacity};
ghost use Rattle.ring_model.specs.KnownReleases.{put_by, try_by};
ghost use Rattle.ring_model.specs.Told.{put_told, try_told};
ghost use Rattle.ring_model.specs.Fates.{stats_of};
ghost use Rattle.ring_model.specs.Ring.{IsWholeRun, state_of};
ghost use Rattle.ring_model.specs.declared.notes.Found.{Found};
ghost use Rattle.ring_model.specs.declared.notes.Note.TheVariants.{Counted, Finished};
ghost use Rattle.tp_layout.specs.Requests.{room_of, size_of};
ghost use Rattle.tp_layout.specs.BlockWrites.{IsWritable};

use crate::TickError;
use crate::machine::Machine;
use frame_view::Memory;
use ring_model::{Found, Note, Notes, Offer, Put, Stats, Tried, Unput, noted_drop, noted_try};
use ring_words::FeederEnd;
use std::alloc::Global;
use std::marker::Model;
use tp_layout::{Block, Shape, a_shape_is_sound};

/// A receive ring: the feeder's side, which keeps, refuses or drops packets. Contracts see its
/// shape, its notes, its end, and how many more notes need no memory.
#[derive(Drop)]
pub struct Producer<E: FeederEnd<Block> + Drop> {
    pub(crate) machine: Machine<E>,
}

impl<E: FeederEnd<Block> + Drop> Model for Producer<E> {
    ghost use Rattle.std.specs.Prelude.{◌-◌};
    ghost use Rattle.std.specs.Vec.{vec_capacity};
    ghost use Rattle.block_ring.specs.Producers.{Keeps, Producing};
    ghost use Rattle.std.specs.Prelude.{length};

    ghost Value = { Producing E };

    ghost view = { λ ring. record {
      shape = ring.machine.shape;
      notes = ring.machine.notes.items;
      spare = vec_capacity ring.machine.notes - length ring.machine.notes.items - 1;
      end = ring.machine.end;
    } };

    ghost invariant = { λ ring.
        Keeps E.feed ring.machine ring.machine.notes.items (vec_capacity ring.machine.notes) };
}

impl<E: FeederEnd<Block> + Drop> Producer<E> {
    ghost use Rattle.block_ring.specs.Machines.{IsFresh, KeepsEnd};
    ghost use Rattle.block_ring.specs.CallNotes.{FoundAsNoted, held_count};
    ghost use Rattle.block_ring.specs.Producers.{Adds, Opens, Puts, Stays, Ticks, Tries, state};
    ghost use Rattle.block_ring.specs.Texts.{RepresentsTexts};
    ghost use Rattle.block_ring.specs.TickErrors.{IsBackwardsFrom};
    ghost use Rattle.block_ring.specs.declared.error.TickError.{TickError};
    ghost use Rattle.block_ring.specs.declared.error.TickError.TheVariants.{Backwards};

    /// A ring of blocks of this shape, with block 1 open. The end is fresh, and its ring has as
    /// many blocks of the shape as the shape says. After `Memory` the end is dropped.
    pub fn new(alloc: Global, shape: Shape, end: E) -> Result<Producer<E>, Memory>
        requires { IsFresh shape (E.feed end) }
        ensures { IfOk result (λ ring. Opens E.feed shape end ring) }
    {
        let mut notes = Vec::new(alloc);
        notes.reserve(1)?;
        Ok(Producer {
            machine: Machine::new(shape, end, notes),
        })
    }

    /// Reserves room for `notes` notes, which then need no memory: each call that notes something
    /// takes one of them.
    pub fn reserve(&mut self, notes: u32) -> Result<(), Memory>
        ensures ok { OnOk result (notes ≤ self.new.spare) }
        ensures stays { Stays self.old self.new }
        ensures more { self.old.spare ≤ self.new.spare }
        ensures reserved { notes ≤ self.old.spare → IsOk result }
    {
        self.machine.notes.reserve(notes as usize + 1)?;
        Ok(())
    }

    /// Keeps a packet, or hands it back if there is no room for it in the open block and the next
    /// block is still the reader's; then all except the notes is as before. The condition on the
    /// offer is that of `put`.
    pub fn try_put(&mut self, offer: Offer) -> Result<Tried, Unput>
        requires room { 82 + offer.snap ≤ room_of self.old.shape }
        requires sound { IsWritable offer }
        requires few { length self.old.notes < 2 ^ 39 }
        ensures tried { IfOk result (λ tried. (found : Found)
            × Tries E.feed self.old self.new offer found tried) }
        ensures unput { IfErr result (λ unput. (unput.offer ≡ offer) × Stays self.old self.new) }
        ensures spare { OnErr result (self.old.spare ≤ self.new.spare) }
        ensures reserved { 0 < self.old.spare → IsOk result }
    {
        let Ok(()) = self.reserve(1) else {
            return Err(Unput { offer });
        };
        a_shape_is_sound(&self.machine.shape);
        let found = self.machine.try_put(&offer);
        let (note, tried) = noted_try(offer, found);
        self.machine.notes.push_reserved(note);
        Ok(tried)
    }

    /// Keeps a packet, or drops it if there is no room for it in the open block and the next block
    /// is still the reader's; an open block is then retired, and the ring is frozen. The offer
    /// keeps at least one byte of what was captured, no more than fits into a block, and is sound.
    #[inline(always)]
    pub fn put(&mut self, offer: Offer) -> Result<Put, Unput>
        requires room { 82 + offer.snap ≤ room_of self.old.shape }
        requires sound { IsWritable offer }
        requires few { length self.old.notes < 2 ^ 39 }
        ensures put { IfOk result (λ put. (found : Found)
            × Puts E.feed self.old self.new offer found put) }
        ensures unput { IfErr result (λ unput. (unput.offer ≡ offer) × Stays self.old self.new) }
        ensures spare { OnErr result (self.old.spare ≤ self.new.spare) }
        ensures reserved { 0 < self.old.spare → IsOk result }
    {
        let Ok(()) = self.reserve(1) else {
            return Err(Unput { offer });
        };
        a_shape_is_sound(&self.machine.shape);
        let found = self.machine.put(&offer);
        Ok(note_put(&mut self.machine.notes, offer, found))
    }

    /// Brings the clock forward to a moment, in milliseconds. At the deadline an open block that
    /// has packets is retired and a next one is asked for; a frozen ring asks too.
    pub fn tick(&mut self, ms: u64) -> Result<(), TickError>
        requires small { ms ≤ 2 ^ 63 }
        requires few { length self.old.notes < 2 ^ 39 }
        ensures ticked { OnOk result ((found : Found) × Ticks E.feed self.old self.new ms found) }
        ensures err { OnErr result (Stays self.old self.new) }
        ensures spare { OnErr result (self.old.spare ≤ self.new.spare) }
        ensures backwards { (result ≡ Err (Backwards (state self.old).clock))
            ↔ (ms < (state self.old).clock) }
        ensures clock { IfErr result (IsBackwardsFrom (state self.old).clock) }
        ensures reserved { 0 < self.old.spare → result ≢ Err TickError.Memory }
    {
        let clock = self.machine.clock();
        if ms < clock {
            return Err(TickError::Backwards(clock));
        }
        self.reserve(1)?;
        let found = self.machine.tick(ms);
        self.machine.notes.push_reserved(Note::Ticked { ms, found });
        Ok(())
    }

    /// Takes the statistics, which start anew (PACKET_STATISTICS of packet(7)).
    pub fn take_stats(&mut self) -> Result<Stats, Memory>
        ensures taken { IfOk result (λ stats. Adds E.feed self.old self.new Counted
            × (stats ≡ stats_of (state self.old))) }
        ensures end { E.feed self.new.end ≡ E.feed self.old.end }
        ensures err { OnErr result (Stays self.old self.new) }
        ensures spare { OnErr result (self.old.spare ≤ self.new.spare) }
        ensures reserved { 0 < self.old.spare → IsOk result }
    {
        self.reserve(1)?;
        let stats = self.machine.take_stats();
        self.machine.notes.push_reserved(Note::Counted);
        Ok(stats)
    }

    /// Closes the ring: an open block that has packets is retired, an empty one is discarded. It
    /// returns the end and the notes, the last of which says that the ring was closed.
    pub fn finish(self) -> (E, Notes)
        ensures notes { result.1 ≡ self.notes ++ Finished ∷ [] }
        ensures run { IsWholeRun (size_of self.shape) result.1 }
        ensures texts { RepresentsTexts self.shape
            (state_of (size_of self.shape) result.1).done (E.feed result.0) }
        ensures looks { held_count result.1 ≤ (E.feed result.0).holds }
        ensures numbers { FoundAsNoted result.1 (E.feed result.0).found }
        ensures end { KeepsEnd (E.feed self.end) (E.feed result.0) }
        ensures holds { (E.feed result.0).holds ≡ (E.feed self.end).holds }
    {
        let (end, mut notes) = self.machine.finish();
        notes.push_reserved(Note::Finished);
        (end, Notes::from_vec(notes))
    }
}

/// Notes a packet that was put, by what was found for it, and returns what the put reports.
#[inline(always)]
fn note_put(notes: &mut Vec<Note>, offer: Offer, found: Found) -> Put
    requires snap { offer.snap ≤ 1048576 }
    requires room { length notes.old.items < vec_capacity notes.old }
    ensures items { notes.new.items ≡ notes.old.items ++ put_by offer found ∷ [] }
    ensures capacity { vec_capacity notes.new ≡ vec_capacity notes.old }
    ensures put { result ≡ put_told (put_by offer found) }
{
    match found {
        Found::Held(number) => {
            notes.push_reserved(noted_drop(&offer, number));
            Put::Dropped(number)
        }
        found => {
            notes.push_reserved(Note::Kept { offer, found });
            Put::Kept
        }
    }
}
