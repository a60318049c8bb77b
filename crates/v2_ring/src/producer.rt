//! A ring of slots that frames are put into: its machine, and the notes of what happened.
ghost use Rattle.std.specs.Prelude.{◌≡◌, ◌+◌, ◌^◌, ◌<◌, ◌≤◌, ◌∷◌, ◌++◌, ℕ, [], length, IfOk, IfErr};
ghost use Rattle.std.specs.Prelude.{OnErr};
ghost use Rattle.ring_model.specs.declared.notes.Found.{Found};
ghost use Rattle.ring_model.specs.declared.notes.Note.TheVariants.{Counted, Finished};
ghost use Rattle.slot_layout.specs.SlotShapes.{IsSlotShape};
ghost use Rattle.slot_layout.specs.SlotFates.{slot_stats_of};
ghost use Rattle.slot_layout.specs.SlotSteps.{IsWholeSlotRun, slot_state_of};
ghost use Rattle.tp_layout.specs.BlockWrites.{IsWritable};

use crate::machine::SlotMachine;
use frame_view::Memory;
use ring_model::{Note, Notes, Offer, Put, Stats, Tried, Unput, noted_put, noted_try};
use ring_words::FeederEnd;
use slot_layout::Slot;
use std::alloc::Global;
use std::marker::Model;
use tp_layout::Shape;

/// A receive ring of slots: the feeder's side, which keeps, refuses or drops packets. Contracts see
/// its shape, its notes and its end.
#[derive(Drop)]
pub struct SlotProducer<E: FeederEnd<Slot> + Drop> {
    pub(crate) machine: SlotMachine<E>,
}

impl<E: FeederEnd<Slot> + Drop> Model for SlotProducer<E> {
    ghost use Rattle.std.specs.Vec.{vec_capacity};
    ghost use Rattle.v2_ring.specs.SlotProducers.{SlotKeeps, SlotProducing};

    ghost Value = { SlotProducing E };

    ghost view = { λ ring. record {
      shape = ring.machine.shape;
      notes = ring.machine.notes.items;
      end = ring.machine.end;
    } };

    ghost invariant = { λ ring.
        SlotKeeps E.feed ring.machine ring.machine.notes.items
        (vec_capacity ring.machine.notes) };
}

impl<E: FeederEnd<Slot> + Drop> SlotProducer<E> {
    ghost use Rattle.v2_ring.specs.SlotContents.{RepresentsSlots};
    ghost use Rattle.v2_ring.specs.SlotMachines.{IsFreshSlots};
    ghost use Rattle.v2_ring.specs.SlotProducers.{SlotAdds, SlotPuts, SlotTries, slots_filled};

    /// A ring of slots of this shape, which came from `check_v2`. The end is fresh, and its ring
    /// has as many slots of the shape as the shape has frames. After `Memory` the end is dropped.
    pub fn new(alloc: Global, shape: Shape, end: E) -> Result<SlotProducer<E>, Memory>
        requires checked { IsSlotShape shape }
        requires fresh { IsFreshSlots shape (E.feed end) }
        ensures { IfOk result (λ ring. ring ≡ record { shape = shape; notes = []; end = end }) }
    {
        let mut notes = Vec::new(alloc);
        notes.reserve(1)?;
        Ok(SlotProducer {
            machine: SlotMachine::new(alloc, shape, end, notes),
        })
    }

    /// Keeps a packet in the next slot, or hands it back if that slot is still the reader's; then
    /// all except the notes is as before. The condition on the offer is that of `put`.
    pub fn try_put(&mut self, offer: Offer) -> Result<Tried, Unput>
        requires fits { 66 + offer.snap ≤ self.old.shape.frame_size }
        requires sound { IsWritable offer }
        requires few { length self.old.notes < 2 ^ 39 }
        ensures tried { IfOk result (λ tried. (found : Found)
            × SlotTries E.feed self.old self.new offer found tried) }
        ensures unput { IfErr result (λ unput. unput.offer ≡ offer) }
        ensures same { OnErr result (self.new ≡ self.old) }
    {
        let Ok(()) = self.machine.reserve() else {
            return Err(Unput { offer });
        };
        let found = self.machine.try_put(&offer);
        let (note, tried) = noted_try(offer, found);
        self.machine.notes.push_reserved(note);
        Ok(tried)
    }

    /// Keeps a packet in the next slot, or drops it if that slot is still the reader's. The offer
    /// keeps at least one byte of what was captured, no more than fits into a slot after the 66
    /// bytes of its header, and is sound.
    pub fn put(&mut self, offer: Offer) -> Result<Put, Unput>
        requires fits { 66 + offer.snap ≤ self.old.shape.frame_size }
        requires sound { IsWritable offer }
        requires few { length self.old.notes < 2 ^ 39 }
        ensures put { IfOk result (λ put. (found : Found)
            × SlotPuts E.feed self.old self.new offer found put) }
        ensures unput { IfErr result (λ unput. unput.offer ≡ offer) }
        ensures same { OnErr result (self.new ≡ self.old) }
    {
        let Ok(()) = self.machine.reserve() else {
            return Err(Unput { offer });
        };
        let found = self.machine.put(&offer);
        let (note, put) = noted_put(offer, found);
        self.machine.notes.push_reserved(note);
        Ok(put)
    }

    /// Takes the statistics, which start anew (PACKET_STATISTICS of packet(7)). There are no
    /// freezes.
    pub fn take_stats(&mut self) -> Result<Stats, Memory>
        ensures taken { IfOk result (λ stats. SlotAdds E.feed self.old self.new Counted) }
        ensures stats { IfOk result (λ stats. stats ≡ slot_stats_of (slots_filled self.old)) }
        ensures end { self.new.end ≡ self.old.end }
        ensures same { OnErr result (self.new ≡ self.old) }
    {
        self.machine.notes.reserve(2)?;
        let stats = self.machine.take_stats();
        self.machine.notes.push_reserved(Note::Counted);
        Ok(stats)
    }

    /// Closes the ring. It returns the end and the notes, the last of which says that the ring was
    /// closed.
    pub fn finish(self) -> (E, Notes)
        ensures end { result.0 ≡ self.end }
        ensures notes { result.1 ≡ self.notes ++ Finished ∷ [] }
        ensures run { IsWholeSlotRun self.shape.frame_nr result.1 }
        ensures texts { RepresentsSlots self.shape (slot_state_of result.1).done (E.feed result.0) }
    {
        let SlotMachine { end, mut notes, .. } = self.machine;
        notes.push_reserved(Note::Finished);
        (end, Notes::from_vec(notes))
    }
}
