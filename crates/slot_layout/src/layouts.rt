//! A slot as a reader reads it: one packet, and its text.
use crate::{Slot, packet_of};
use frame_view::{Memory, Packet};
use std::alloc::Global;
use tp_layout::Layout;
use tp_layout::fields::u32_at;

/// The place of a packet's data in its slot.
const DATA: usize = 66;

impl Layout for Slot {
    ghost use Rattle.std.specs.Prelude.{refl};
    ghost use Rattle.slot_layout.specs.SlotLayouts.{slot_taken_in, text_of_slot};

    ghost shape = { λ slot. slot.shape };

    ghost taken_in = { slot_taken_in };

    ghost text_of = { text_of_slot };

    ghost kind_is_shape = { λ slot. refl };

    fn head(&self) -> (u64, u32) {
        (0, u32_at(self.bytes(), 0))
    }

    fn text(&self) -> &[u8] {
        let bytes = self.bytes();
        let packet = packet_of(bytes);
        let (text, _) = bytes.split_at(DATA + packet.bytes.len());
        text
    }

    fn push_packets(&self, alloc: Global, into: &mut Vec<Packet>) -> Result<(), Memory> {
        let packet = packet_of(self.bytes());
        into.push(packet.to_packet(alloc)?)?;
        Ok(())
    }

    /// The data of the one packet are copied, and the room isn't used.
    fn into_packets(
        self,
        alloc: Global,
        _room: &mut Vec<u8>,
        into: &mut Vec<Packet>,
    ) -> Result<(), Slot> {
        match self.push_packets(alloc, into) {
            Ok(()) => Ok(()),
            Err(Memory) => Err(self),
        }
    }
}
