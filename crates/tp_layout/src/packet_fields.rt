//! A packet written into a block, field by field.
ghost use Rattle.std.specs.Prelude.{◌≡◌, ◌+◌, ◌^◌, ◌<◌, ◌≤◌, ℕ, if◌then◌else◌, length};
ghost use Rattle.std.specs.Prelude.{slice_index};
ghost use Rattle.frame_view.specs.Headers.{address_of, protocol_of};
ghost use Rattle.frame_view.specs.declared.frames.Packet.{Packet};
ghost use Rattle.ring_model.specs.Offers.{packet_of};
ghost use Rattle.ring_model.specs.Sizes.{need_of};
ghost use Rattle.tp_layout.specs.Packets.{IsTyped, address_rows, header_rows, packet_text};
ghost use Rattle.tp_layout.specs.Rows.{bytes_of};
ghost use Rattle.tp_layout.specs.BlockWrites.{HasNumbers, IsWritable, put};

use crate::fields::{put_bytes, put_u16, put_u32, put_u64, put_zeros};
use crate::link_addresses::put_link_address;
use crate::numbers::{MAC, NET};
use crate::packet_refs::vlan_fields;
use frame_view::link_header;
use ring_model::{Offer, need};

/// Writes the packet of an offer at a place: the header, the address, the data, and zeros up to
/// what it needs.
#[tactic(auto, unfolding(crate::specs::Packets::packet_text))]
pub(crate) fn put_packet(bytes: &mut [u8], at: usize, offer: &Offer, fill: bool)
    requires fits { at + need_of offer.now.snap ≤ length bytes.old }
    requires small { length bytes.old ≤ 1048576 }
    requires sound { IsWritable offer.now }
    ensures written { bytes.new
        ≡ put at (packet_text (need_of offer.now.snap) (packet_of fill offer.now)) bytes.old }
    ensures typed { IsTyped (packet_of fill offer.now) }
{
    let frame = offer.frame.bytes.as_slice();
    let (captured, _) = frame.split_at(offer.snap as usize);
    let need = need(offer.snap);
    // The zeros after the data are at most 7 bytes, so these 8 cover them. What comes before them
    // is written over the others.
    put_u64(bytes, at + (need as usize - 8), 0);
    put_header(bytes, at, need, offer, fill);
    put_zeros(bytes, at + 40, 8);
    put_address(bytes, at + 48, frame, offer.pkttype);
    put_zeros(bytes, at + 66, 16);
    put_bytes(bytes, at + 82, captured);
}

/// Writes the address of the packet of a frame, which is borrowed from the frame.
fn put_address(bytes: &mut [u8], at: usize, frame: &[u8], pkttype: u8)
    requires fits { at + 18 ≤ length bytes.old }
    requires whole { 14 ≤ length frame.now }
    ensures written { (packet : Packet)
        → packet.protocol ≡ protocol_of frame.now → packet.pkttype ≡ pkttype
        → packet.addr ≡ address_of 6 frame.now
        → bytes.new ≡ put at (bytes_of (address_rows packet)) bytes.old }
    ensures protocol { protocol_of frame.now < 2 ^ 16 }
    ensures typed { (i : ℕ) → slice_index (address_of 6 frame.now) i < 256 }
{
    let link = link_header(frame);
    let (_, behind) = frame.split_at(6);
    let (from, _) = behind.split_at(6);
    put_link_address(bytes, at, link.protocol, pkttype, from);
}

/// Writes the fields of `struct tpacket3_hdr`.
fn put_header(bytes: &mut [u8], at: usize, next: u32, offer: &Offer, fill: bool)
    requires fits { at + 40 ≤ length bytes.old }
    requires snap { offer.now.snap ≤ length offer.now.frame.bytes }
    ensures written { bytes.new
        ≡ put at (bytes_of (header_rows next (packet_of fill offer.now))) bytes.old }
    ensures typed { HasNumbers (packet_of fill offer.now) }
{
    let (status, tci, tpid) = vlan_fields(offer.frame.tag);
    put_u32(bytes, at, next);
    put_u32(bytes, at + 4, offer.frame.sec);
    put_u32(bytes, at + 8, offer.frame.nsec);
    put_u32(bytes, at + 12, offer.snap);
    put_u32(bytes, at + 16, offer.frame.wire);
    put_u32(bytes, at + 20, status);
    put_u16(bytes, at + 24, MAC);
    put_u16(bytes, at + 26, NET);
    put_u32(bytes, at + 28, rxhash(offer, fill));
    put_u32(bytes, at + 32, tci);
    put_u16(bytes, at + 36, tpid);
    put_u16(bytes, at + 38, 0);
}

/// The receive hash: that of the flow if it is asked for.
fn rxhash(offer: &Offer, fill: bool) -> u32
    ensures { result ≡ (if fill then offer.now.hash else 0) }
{
    if fill { offer.hash } else { 0 }
}
