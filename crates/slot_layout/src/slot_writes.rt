//! How a slot is filled.
ghost use Rattle.std.specs.Prelude.{◌≡◌, ◌+◌, ◌≤◌, IsTrue, if◌then◌else◌};
ghost use Rattle.std.specs.Vec.{vec_capacity};
ghost use Rattle.slot_layout.specs.SlotDump.{slot_packet_of};
ghost use Rattle.slot_layout.specs.SlotTexts.{SlotBegins, slot_status_may, slot_text};
ghost use Rattle.slot_layout.specs.SlotSteps.{status_of_slot};
ghost use Rattle.tp_layout.specs.BlockWrites.{IsWritable, put};

use crate::Slot;
use crate::numbers::{LOSING, USER, WITH_TAG};
use frame_view::Tag;
use ring_model::Offer;

/// Writes the text of an offer's packet into a slot, and reports the status that the slot is to be
/// retired with; `losing` says that packets were lost. The bytes after the text stay (`tpacket_rcv`
/// of the kernel with TPACKET_V2). A slot that was never written takes `room`, which has memory for
/// its bytes and whose content is lost.
pub fn write_slot(slot: &mut Slot, room: &mut Vec<u8>, offer: &Offer, losing: bool) -> u32
    requires room { slot.old.shape.frame_size ≤ vec_capacity room.old }
    requires sound { IsWritable offer.now }
    requires fits { 66 + offer.now.snap ≤ slot.old.shape.frame_size }
    ensures status { result ≡ status_of_slot losing offer.now.frame.tag }
    ensures written { slot.new ≡ record slot.old {
      bytes = put 0 (slot_text result (slot_packet_of offer.now)) slot.old.bytes;
    } }
    ensures text { SlotBegins slot.old.shape result (slot_packet_of offer.now) slot.new.bytes }
{
    let status = status_of(losing, offer.frame.tag);
    slot.put_packet(room, status, offer);
    status
}

/// The status of a filled slot.
fn status_of(losing: bool, tag: Option<Tag>) -> u32
    ensures value { result ≡ status_of_slot losing tag }
    ensures may { IsTrue (slot_status_may tag result) }
{
    let lost = if losing { LOSING } else { 0 };
    match tag {
        Some(_) => USER + lost + WITH_TAG,
        None => USER + lost,
    }
}
