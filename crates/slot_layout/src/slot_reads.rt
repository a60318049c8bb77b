//! How a slot is read.
ghost use Rattle.std.specs.Prelude.{◌≡◌, ◌+◌, ◌≤◌, ℕ, IfOk, IsOk, length};
ghost use Rattle.frame_view.specs.declared.frames.Packet.{Packet};
ghost use Rattle.slot_layout.specs.SlotFaults.{slot_text_fault};
ghost use Rattle.slot_layout.specs.SlotTexts.{HasSlotText, SlotBegins, SlotBeginsLawfully};
ghost use Rattle.slot_layout.specs.SlotTexts.{slot_packet_at, slot_tag_at};
ghost use Rattle.tp_layout.specs.Checks.{seen, told};
ghost use Rattle.tp_layout.specs.Rows.{number_at};
ghost use Rattle.tp_layout.specs.declared.requests.RingRequest.{RingRequest};

use crate::checks::check_fields;
use frame_view::Tag;
use tp_layout::fields::{u16_at, u32_at};
use tp_layout::link_addresses::link_address_at;
use tp_layout::{LayoutError, PacketRef, Shape};

/// Tests a slot, and returns its packet. It is Ok exactly if the slot begins with a lawful text;
/// otherwise it reports the first test that fails, and where.
pub fn read_slot<'a>(bytes: &'a [u8], shape: &Shape) -> Result<PacketRef<'a>, LayoutError>
    requires { length bytes.now ≡ shape.now.frame_size }
    ensures fault { told result ≡ slot_text_fault shape.now bytes.now }
    ensures found { IfOk result (λ packet. HasSlotText shape.now bytes.now (seen packet)) }
    ensures only { (status : ℕ) (packet : Packet) → SlotBegins shape.now status packet bytes.now
        → IsOk result × IfOk result (λ read. seen read ≡ packet) }
    ensures lawful { (status : ℕ) → SlotBeginsLawfully shape.now status bytes.now → IsOk result }
{
    check_fields(bytes, shape)?;
    Ok(packet_at(bytes))
}

/// The packet of bytes that begin with a lawful text of a slot. The text isn't tested again.
pub fn packet_of(bytes: &[u8]) -> PacketRef<'_>
    requires { (shape : RingRequest) × (status : ℕ) × SlotBeginsLawfully shape status bytes.now }
    ensures { seen result ≡ slot_packet_at bytes.now }
{
    packet_at(bytes)
}

/// The packet of a slot whose data is within the bytes.
#[tactic(auto, unfolding(crate::specs::SlotTexts::slot_packet_at))]
fn packet_at(bytes: &[u8]) -> PacketRef<'_>
    requires { 66 + number_at 4 8 bytes.now ≤ length bytes.now }
    ensures { seen result ≡ slot_packet_at bytes.now }
{
    let snap = u32_at(bytes, 8);
    let link = link_address_at(bytes, 32);
    let addr = link.addr;
    let (_, rest) = bytes.split_at(66);
    let (captured, _) = rest.split_at(snap as usize);
    PacketRef {
        sec: u32_at(bytes, 16),
        nsec: u32_at(bytes, 20),
        wire: u32_at(bytes, 4),
        rxhash: 0,
        protocol: link.protocol,
        pkttype: link.pkttype,
        addr,
        bytes: captured,
        tag: tag_at(bytes),
    }
}

/// The tag of a slot, if its status says that it has one.
pub(crate) fn tag_at(bytes: &[u8]) -> Option<Tag>
    requires { 28 ≤ length bytes.now }
    ensures { result ≡ slot_tag_at bytes.now }
{
    let status = u32_at(bytes, 0);
    if status != 81 && status != 85 {
        return None;
    }
    Some(Tag {
        tpid: u16_at(bytes, 26),
        tci: u16_at(bytes, 24),
    })
}
