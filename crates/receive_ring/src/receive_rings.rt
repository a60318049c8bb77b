//! What a replay asks of the rings of its group, whatever their layout.
ghost use Rattle.std.specs.Prelude.{◌≡◌, ◌^◌, ◌<◌, ◌≤◌, ℕ, List, [], ◌∷◌, ◌++◌, length, IfErr};
ghost use Rattle.std.specs.Prelude.{IfOk, OnErr, OnOk};
ghost use Rattle.run_reports.specs.RingSteps.{RingSteps, ticked};
ghost use Rattle.receive_ring.specs.TakenOffers.{Takes};
ghost use Rattle.receive_ring.specs.Rings.{Becomes, Closes, Grows, IsRoomOf, Opens, Receiving};
ghost use Rattle.receive_ring.specs.Rings.{StaysThere, TookOne, note_of_put, note_of_try};
ghost use Rattle.receive_ring.specs.Rings.{ring_in};
ghost use Rattle.receive_ring.specs.ReadBack.{IsReadBack};
ghost use Rattle.run_reports.specs.RingRules.{Serves, rules_by};
ghost use Rattle.run_reports.specs.declared.ring_kind.RingKind.{RingKind};
ghost use Rattle.ring_model.specs.Rings.{Ring, noted};
ghost use Rattle.ring_model.specs.Told.{put_told, try_told};
ghost use Rattle.ring_model.specs.Unreleased.{last_moment};
ghost use Rattle.ring_model.specs.declared.notes.Note.{Note};
ghost use Rattle.ring_model.specs.declared.notes.Note.TheVariants.{Counted};
ghost use Rattle.ring_words.specs.PlainRings.{walk_of};
ghost use Rattle.tp_layout.specs.Layouts.{Taken};
ghost use Rattle.tp_layout.specs.declared.requests.RingRequest.{RingRequest};

use frame_view::Memory;
use ring_model::{Notes, Offer, Put, Tried, Unput};
use ring_words::{ClosingRing, WalkerEnd};
use std::alloc::Global;
use tp_layout::{Layout, Shape};

/// A receive ring (PACKET_RX_RING of packet(7)) with both its ends. Contracts see its shape, its
/// notes and who has which of its blocks or slots.
pub trait ReceiveRing: WalkerEnd<Self::Unit> + Drop {
    /// What the ring hands over: a block or a slot.
    type Unit: Layout;

    // The ring.
    ghost seen: { Self → Receiving };

    // The shapes that such rings may have.
    ghost may: { RingRequest → Type 0 };

    // What such rings are made of.
    ghost kind: { RingKind };

    // What rings of a shape do.
    ghost steps: { RingRequest → RingSteps };

    // What a reader reads of all that a ring with these notes handed over, in order.
    ghost reads: { RingRequest → List Note → List Taken };

    /// A new ring of this shape.
    fn open(alloc: Global, shape: &Shape) -> Result<Self, Memory>
        requires may { may shape.now }
        ensures { IfOk result (λ ring. Opens Self.Unit.taken_in reads shape.now (seen ring)) };

    /// The room by which offers are cut for this shape, in bytes, as if it were that of a block.
    fn room(shape: &Shape) -> u32
        requires may { may shape.now }
        ensures { IsRoomOf (steps shape.now) result };

    /// Keeps a packet, or drops it if there is no room. After `Unput` the ring is as before, and
    /// the offer comes back.
    fn put(&mut self, offer: Offer) -> Result<Put, Unput>
        requires may { may (seen self.old).shape }
        requires takes { Takes offer (ring_in steps (seen self.old)) }
        requires few { length (seen self.old).notes < 2 ^ 39 }
        ensures ok { OnOk result (Becomes Self.Unit.taken_in reads steps
            (noted (ring_in steps (seen self.old)) (note_of_put steps (seen self.old) offer))
            (seen self.old) (seen self.new)) }
        ensures put { IfOk result (λ put.
            put ≡ put_told (note_of_put steps (seen self.old) offer)) }
        ensures unput { IfErr result (λ unput. unput.offer ≡ offer) }
        ensures err { OnErr result (seen self.new ≡ seen self.old) };

    /// Keeps a packet, or hands it back if there is no room. After `Unput` the ring is as before,
    /// and the offer comes back.
    fn try_put(&mut self, offer: Offer) -> Result<Tried, Unput>
        requires may { may (seen self.old).shape }
        requires takes { Takes offer (ring_in steps (seen self.old)) }
        requires few { length (seen self.old).notes < 2 ^ 39 }
        ensures ok { OnOk result (Becomes Self.Unit.taken_in reads steps
            (noted (ring_in steps (seen self.old)) (note_of_try steps (seen self.old) offer))
            (seen self.old) (seen self.new)) }
        ensures tried { IfOk result (λ tried.
            tried ≡ try_told offer (note_of_try steps (seen self.old) offer)) }
        ensures unput { IfErr result (λ unput. unput.offer ≡ offer) }
        ensures err { OnErr result (seen self.new ≡ seen self.old) };

    /// The clock goes on to a moment, in milliseconds. After `Memory` the ring is as before.
    fn tick(&mut self, ms: u64) -> Result<(), Memory>
        requires may { may (seen self.old).shape }
        requires later { last_moment 0 (seen self.old).notes ≤ ms }
        requires small { ms ≤ 2 ^ 63 }
        requires few { length (seen self.old).notes < 2 ^ 39 }
        ensures ok { OnOk result (Becomes Self.Unit.taken_in reads steps
            (ticked (steps (seen self.old).shape) ms (ring_in steps (seen self.old)))
            (seen self.old) (seen self.new)) }
        ensures err { OnErr result (seen self.new ≡ seen self.old) };

    /// Takes the statistics, which start anew. After `Memory` the ring is as before.
    fn take_stats(&mut self) -> Result<(), Memory>
        requires may { may (seen self.old).shape }
        ensures ok { OnOk result (Becomes Self.Unit.taken_in reads steps
            (noted (ring_in steps (seen self.old)) Counted) (seen self.old) (seen self.new)) }
        ensures err { OnErr result (seen self.new ≡ seen self.old) };

    /// Closes the ring. It gives the end of its reader, which drops what it releases, and the
    /// notes.
    fn close(self, alloc: Global) -> Result<(ClosingRing<Self::Unit>, Notes), Memory>
        requires may { may (seen self).shape }
        ensures { IfOk result (λ closed.
            Closes Self.Unit.taken_in reads (seen self) closed.0 closed.1) };

    // Its reader's end is that of a ring on one thread.
    ghost walk_is: { (it : Self) → Self.walk it ≡ walk_of (seen it).end };

    ghost took_is: { (before after : Self) (content : List ℕ) → Self.took before after content
        → TookOne (seen before) (seen after) content };

    ghost stays_is: { (before after : Self) → Self.stays before after
        → StaysThere (seen before) (seen after) };

    // A note hands over at most one block or slot, after those before it.
    ghost reads_grow: { (shape : RingRequest) (notes : List Note) (note : Note)
        → Grows (reads shape notes) (reads shape (notes ++ note ∷ [])) };

    ghost reads_few: { (shape : RingRequest) (notes : List Note)
        → length (reads shape notes) ≤ length notes };

    // These are the shapes and the steps of its kind.
    ghost serves: { (shape : RingRequest) → may shape → Serves kind shape };

    ghost steps_are: { (shape : RingRequest) → (rules_by kind shape).steps ≡ steps shape };

    // What a reader reads of all that a ring handed over is what the ring kept.
    ghost reads_back: { (shape : RingRequest) (notes : List Note)
        → (rules_by kind shape).IsWhole notes
        → IsReadBack (rules_by kind shape) Self.Unit.text_of shape (reads shape notes) notes };

    // A ring counts what it handed over.
    ghost reads_all: { (shape : RingRequest) (ring : Ring) → ring.size ≡ (steps shape).size
        → (steps shape).retired ring ≡ length (reads shape ring.notes) };
}
