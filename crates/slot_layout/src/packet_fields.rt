//! A packet written into a slot, field by field.
ghost use Rattle.std.specs.Prelude.{◌≡◌, ◌+◌, ◌^◌, ◌<◌, ◌≤◌, IfSome, length};
ghost use Rattle.slot_layout.specs.SlotDump.{slot_packet_of};
ghost use Rattle.slot_layout.specs.SlotTexts.{slot_header_rows, slot_text};
ghost use Rattle.tp_layout.specs.Packets.{IsTyped, tci_of, tpid_of};
ghost use Rattle.tp_layout.specs.Rows.{bytes_of};
ghost use Rattle.tp_layout.specs.BlockWrites.{HasNumbers, IsWritable, put};

use crate::numbers::{MAC, NET};
use frame_view::{Tag, link_header};
use ring_model::Offer;
use tp_layout::fields::{put_bytes, put_u16, put_u32, put_zeros};
use tp_layout::link_addresses::put_link_address;

/// Writes the text of an offer's packet with this status: the header, zeros, the address, the gap,
/// the data.
#[tactic(auto, unfolding(crate::specs::SlotTexts::slot_text))]
pub(crate) fn put_packet(bytes: &mut [u8], status: u32, offer: &Offer)
    requires fits { 66 + offer.now.snap ≤ length bytes.old }
    requires sound { IsWritable offer.now }
    ensures written { bytes.new ≡ put 0 (slot_text status (slot_packet_of offer.now)) bytes.old }
    ensures typed { IsTyped (slot_packet_of offer.now) }
{
    let link = link_header(offer.frame.bytes.as_slice());
    put_header(bytes, status, offer);
    put_zeros(bytes, 28, 4);
    put_link_address(bytes, 32, link.protocol, offer.pkttype, &link.from);
    put_zeros(bytes, 50, 16);
    put_bytes(bytes, 66, offer.captured());
}

/// Writes the fields of `struct tpacket2_hdr`.
fn put_header(bytes: &mut [u8], status: u32, offer: &Offer)
    requires fits { 28 ≤ length bytes.old }
    requires snap { offer.now.snap ≤ length offer.now.frame.bytes }
    ensures written { bytes.new
        ≡ put 0 (bytes_of (slot_header_rows status (slot_packet_of offer.now))) bytes.old }
    ensures typed { HasNumbers (slot_packet_of offer.now) }
{
    let (tci, tpid) = vlan_fields(offer.frame.tag);
    put_u32(bytes, 0, status);
    put_u32(bytes, 4, offer.frame.wire);
    put_u32(bytes, 8, offer.snap);
    put_u16(bytes, 12, MAC);
    put_u16(bytes, 14, NET);
    put_u32(bytes, 16, offer.frame.sec);
    put_u32(bytes, 20, offer.frame.nsec);
    put_u16(bytes, 24, tci);
    put_u16(bytes, 26, tpid);
}

/// What a slot says about a tag: the control information, the protocol identifier.
pub(crate) fn vlan_fields(tag: Option<Tag>) -> (u16, u16)
    ensures fields { result ≡ (tci_of tag, tpid_of tag) }
    ensures typed { IfSome tag (λ tag. tag.tci < 2 ^ 16) }
{
    match tag {
        Some(tag) => (tag.tci, tag.tpid),
        None => (0, 0),
    }
}
