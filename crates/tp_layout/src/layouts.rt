//! What a reader reads of a ring: blocks of packets, or slots of one packet each.
ghost use Rattle.std.specs.Prelude.{◌≡◌, ◌++◌, ℕ, List, IfErr, OnOk, length, take};
ghost use Rattle.tp_layout.specs.Layouts.{Taken};
ghost use Rattle.tp_layout.specs.Requests.{numbers_of};
ghost use Rattle.tp_layout.specs.declared.requests.RingRequest.{RingRequest};

use crate::fields::{u32_at, u64_at};
use crate::{Block, a_shape_is_sound, packets_of, text_of};
use frame_view::{Memory, Packet};
use ring_model::Content;
use std::alloc::Global;
use std::mem;

/// A block or a slot of a ring, whose packets can be read where it may be retired. Contracts see
/// what is read from its bytes, and the text of that.
pub trait Layout: Content + Drop {
    // The shape of its ring.
    ghost shape: { Self → RingRequest };

    // What is read from bytes that begin with a lawful text of this shape.
    ghost taken_in: { RingRequest → List ℕ → Taken };

    // The text of what was read.
    ghost text_of: { RingRequest → Taken → List ℕ };

    /// Its number and the status that it was retired with. A slot's text has no number: it is 0.
    fn head(&self) -> (u64, u32)
        requires ready { (number : ℕ) × (status : ℕ) × Self.ready self.now number status }
        ensures number { result.0
            ≡ (taken_in (shape self.now) (Self.bytes self.now)).number }
        ensures status { result.1
            ≡ (taken_in (shape self.now) (Self.bytes self.now)).status };

    /// Its text, borrowed: all bytes up to the end of its last packet.
    fn text(&self) -> &[u8]
        requires ready { (number : ℕ) × (status : ℕ) × Self.ready self.now number status }
        ensures text { result.now
            ≡ text_of (shape self.now) (taken_in (shape self.now) (Self.bytes self.now)) };

    /// Appends copies of its packets. After `Memory` some of them follow those that were there.
    fn push_packets(&self, alloc: Global, into: &mut Vec<Packet>) -> Result<(), Memory>
        requires ready { (number : ℕ) × (status : ℕ) × Self.ready self.now number status }
        ensures copies { OnOk result (into.new.items
            ≡ into.old.items ++ (taken_in (shape self.now) (Self.bytes self.now)).packets) }
        ensures front { take (length into.old.items) into.new.items ≡ into.old.items };

    /// Appends its packets. Their data may take the memory of `room`, whose content is lost, and
    /// its own memory may be the next room. If memory runs out it comes back, and some of its
    /// packets follow those that were there.
    fn into_packets(
        self,
        alloc: Global,
        room: &mut Vec<u8>,
        into: &mut Vec<Packet>,
    ) -> Result<(), Self>
        requires ready { (number : ℕ) × (status : ℕ) × Self.ready self number status }
        ensures packets { OnOk result (into.new.items
            ≡ into.old.items ++ (taken_in (shape self) (Self.bytes self)).packets) }
        ensures back { IfErr result (λ unit. unit ≡ self) }
        ensures front { take (length into.old.items) into.new.items ≡ into.old.items };

    // What all of one ring have in common is their shape.
    ghost kind_is_shape: { (it : Self) → Self.kind it ≡ numbers_of (shape it) };
}

impl Layout for Block {
    ghost use Rattle.std.specs.Prelude.{refl};
    ghost use Rattle.tp_layout.specs.Layouts.{taken_in, text_of_taken};

    ghost shape = { λ block. block.shape };

    ghost taken_in = { taken_in };

    ghost text_of = { text_of_taken };

    ghost kind_is_shape = { λ block. refl };

    #[tactic(auto, unfolding(crate::specs::Layouts::taken_in))]
    fn head(&self) -> (u64, u32) {
        // A block has at least one page, so its descriptor is there.
        let bytes = self.bytes();
        (u64_at(bytes, 24), u32_at(bytes, 8))
    }

    fn text(&self) -> &[u8] {
        // A block has at most 1 MiB, so its lengths are what its fields say.
        a_shape_is_sound(self.shape());
        text_of(self)
    }

    #[tactic(auto, unfolding(crate::specs::Layouts::taken_in))]
    fn push_packets(&self, alloc: Global, into: &mut Vec<Packet>) -> Result<(), Memory> {
        packets_of(self.bytes(), self.shape()).push_copies(alloc, into)
    }

    /// The data are gathered in the room, and what is left of it is freed. The block's memory is
    /// the next room.
    #[tactic(auto, unfolding(crate::specs::Layouts::taken_in))]
    fn into_packets(
        self,
        alloc: Global,
        room: &mut Vec<u8>,
        into: &mut Vec<Packet>,
    ) -> Result<(), Block> {
        let data = mem::replace(room, Vec::new(alloc));
        match packets_of(self.bytes(), self.shape()).push_gathered(alloc, data, into) {
            Ok(()) => {
                *room = self.into_written();
                Ok(())
            }
            Err(Memory) => Err(self),
        }
    }
}
