//! The ring as a machine, in the manner of the kernel's `tpacket_rcv` with TPACKET_V2.
//!
//! A packet needs the next slot. The machine looks once at its status word. If the slot is free the
//! packet is written into it, and the slot goes to the reader at once. If the reader still has it
//! the packet is dropped, or handed back if it was only tried. A slot that is filled while drops
//! are counted has TP_STATUS_LOSING. There are no blocks, no timer and no freeze.
ghost use Rattle.std.specs.Prelude.{◌≡◌, ◌+◌, ◌^◌, ◌<◌, ◌≤◌, ℕ, length, OnOk};
ghost use Rattle.std.specs.Vec.{vec_capacity};
ghost use Rattle.ring_model.specs.KnownReleases.{put_by, try_by};
ghost use Rattle.ring_model.specs.declared.notes.Found.TheVariants as found;
ghost use Rattle.ring_model.specs.declared.notes.Note.TheVariants as notes;
ghost use Rattle.slot_layout.specs.SlotShapes.{IsSlotShape};
ghost use Rattle.slot_layout.specs.SlotFates.{slot_stats_of};
ghost use Rattle.slot_layout.specs.SlotSteps.{SlotMayFollow, SlotState, first_slot_state};
ghost use Rattle.slot_layout.specs.SlotSteps.{slot_after};
ghost use Rattle.tp_layout.specs.Requests.{numbers_of};
ghost use Rattle.tp_layout.specs.BlockWrites.{IsWritable};

use frame_view::Memory;
use ring_model::{Found, Note, Offer, Stats};
use ring_words::{FeederEnd, Next};
use slot_layout::{Slot, write_slot};
use std::alloc::Global;
use tp_layout::Shape;

/// A ring between two notes.
#[derive(Drop)]
pub(crate) struct SlotMachine<E> {
    /// The shape of its slots.
    pub(crate) shape: Shape,
    /// Its end of the ring.
    pub(crate) end: E,
    /// Packets kept since the statistics were last taken.
    kept: u64,
    /// Packets dropped since then.
    dropped: u64,
    /// What happened so far, with room for one more note, so that closing the ring takes no memory.
    pub(crate) notes: Vec<Note>,
    /// The memory that the first write of a slot takes.
    pub(crate) room: Vec<u8>,
}

impl<E: FeederEnd<Slot> + Drop> SlotMachine<E> {
    ghost use Rattle.v2_ring.specs.SlotMachines.{IsFreshSlots, IsReserved, IsSlotAt, IsSlotFew};
    ghost use Rattle.v2_ring.specs.SlotMachines.{KeepsSlotEnd};
    ghost use Rattle.v2_ring.specs.SlotProducers.{SlotLooks};

    /// A machine over a fresh end.
    pub(crate) fn new(alloc: Global, shape: Shape, end: E, notes: Vec<Note>) -> SlotMachine<E>
        requires checked { IsSlotShape shape }
        requires fresh { IsFreshSlots shape (E.feed end) }
        ensures at { IsSlotAt E.feed 0 first_slot_state result }
        ensures shape { result.shape ≡ shape }
        ensures end { result.end ≡ end }
        ensures notes { result.notes ≡ notes }
        ensures counts { (result.kept ≡ 0) × (result.dropped ≡ 0) }
    {
        SlotMachine {
            shape,
            end,
            kept: 0,
            dropped: 0,
            notes,
            room: Vec::new(alloc),
        }
    }

    /// Reserves memory for a note, for one more, and for the first write of a slot. After `Memory`
    /// more may be reserved, and all else is as before.
    pub(crate) fn reserve(&mut self) -> Result<(), Memory>
        ensures reserved { IsReserved self.old self.new }
        ensures spare { vec_capacity self.old.notes ≤ vec_capacity self.new.notes }
        ensures notes { OnOk result
            (length self.old.notes.items + 2 ≤ vec_capacity self.new.notes) }
        ensures room { OnOk result (self.new.shape.frame_size ≤ vec_capacity self.new.room) }
    {
        self.notes.reserve(2)?;
        self.room.reserve(self.shape.frame_size() as usize)?;
        Ok(())
    }

    /// Puts a packet: if the next slot is still the reader's the packet is dropped, and that slot's
    /// number is reported.
    pub(crate) fn put(&mut self, offer: &Offer) -> Found
        ghost state: { SlotState }
        requires at { IsSlotAt E.feed 0 state self.old }
        requires few { IsSlotFew state }
        requires room { self.old.shape.frame_size ≤ vec_capacity self.old.room }
        requires fits { 66 + offer.now.snap ≤ self.old.shape.frame_size }
        requires writable { IsWritable offer.now }
        ensures at { IsSlotAt E.feed 0 (slot_after state (put_by offer.now result)) self.new }
        ensures may_follow { SlotMayFollow self.old.shape.frame_nr state (put_by offer.now result) }
        ensures looks { SlotLooks self.old.shape.frame_nr state result
            (E.feed self.old.end) (E.feed self.new.end) }
        ensures end { KeepsSlotEnd (E.feed self.old.end) (E.feed self.new.end) }
        ensures same { (self.new.shape ≡ self.old.shape) × (self.new.notes ≡ self.old.notes) }
    {
        let found = self.try_put(offer);
        if let Found::Held(_) = found {
            self.dropped += 1;
        }
        found
    }

    /// Tries a packet: if the next slot is still the reader's that slot's number is reported, and
    /// all is as before.
    pub(crate) fn try_put(&mut self, offer: &Offer) -> Found
        ghost state: { SlotState }
        requires at { IsSlotAt E.feed 0 state self.old }
        requires few { IsSlotFew state }
        requires room { self.old.shape.frame_size ≤ vec_capacity self.old.room }
        requires fits { 66 + offer.now.snap ≤ self.old.shape.frame_size }
        requires writable { IsWritable offer.now }
        ensures at { IsSlotAt E.feed 0 (slot_after state (try_by offer.now result)) self.new }
        ensures may_follow { SlotMayFollow self.old.shape.frame_nr state (try_by offer.now result) }
        ensures looks { SlotLooks self.old.shape.frame_nr state result
            (E.feed self.old.end) (E.feed self.new.end) }
        ensures end { KeepsSlotEnd (E.feed self.old.end) (E.feed self.new.end) }
        ensures same { (self.new.shape ≡ self.old.shape) × (self.new.notes ≡ self.old.notes) }
    {
        match self.end.next() {
            Next::Free { block, .. } => {
                self.fill(block, offer);
                Found::Free
            }
            Next::Held(number) => Found::Held(number),
        }
    }

    /// Writes a packet into a slot that the end gave, and hands it over.
    fn fill(&mut self, slot: Slot, offer: &Offer)
        ghost state: { SlotState }
        requires at { IsSlotAt E.feed 1 state self.old }
        requires few { IsSlotFew state }
        requires room { self.old.shape.frame_size ≤ vec_capacity self.old.room }
        requires kind { numbers_of slot.shape ≡ numbers_of self.old.shape }
        requires fits { 66 + offer.now.snap ≤ self.old.shape.frame_size }
        requires writable { IsWritable offer.now }
        ensures at { IsSlotAt E.feed 0
            (slot_after state (notes.Kept offer.now found.Free)) self.new }
        ensures end { KeepsSlotEnd (E.feed self.old.end) (E.feed self.new.end) }
        ensures holds { (E.feed self.new.end).holds ≡ (E.feed self.old.end).holds }
        ensures found { (E.feed self.new.end).found ≡ (E.feed self.old.end).found }
        ensures same { (self.new.shape ≡ self.old.shape) × (self.new.notes ≡ self.old.notes) }
    {
        let mut slot = slot;
        let status = write_slot(&mut slot, &mut self.room, offer, self.dropped > 0);
        self.end.retire(slot, status);
        self.kept += 1;
    }

    /// Takes the statistics, which start anew.
    pub(crate) fn take_stats(&mut self) -> Stats
        ghost state: { SlotState }
        requires at { IsSlotAt E.feed 0 state self.old }
        requires few { self.old.kept + self.old.dropped ≤ 2 ^ 39 }
        ensures at { IsSlotAt E.feed 0 (slot_after state notes.Counted) self.new }
        ensures stats { result ≡ slot_stats_of state }
        ensures counts { (self.new.kept ≡ 0) × (self.new.dropped ≡ 0) }
        ensures same { (self.new.shape ≡ self.old.shape) × (self.new.notes ≡ self.old.notes) }
        ensures end { self.new.end ≡ self.old.end }
    {
        let stats = Stats {
            packets: self.kept + self.dropped,
            drops: self.dropped,
            freezes: 0,
        };
        self.kept = 0;
        self.dropped = 0;
        stats
    }
}
