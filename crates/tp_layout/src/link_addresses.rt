//! The address of a packet (`struct sockaddr_ll` of packet(7)), which is the same in a block's
//! packet and in a slot.
ghost use Rattle.std.specs.Prelude.{◌≡◌, ◌+◌, ◌^◌, ◌<◌, ◌≤◌, ℕ, length, slice_index};
ghost use Rattle.frame_view.specs.Headers.{address_of};
ghost use Rattle.frame_view.specs.declared.frames.Packet.{Packet};
ghost use Rattle.tp_layout.specs.Checks.{address_tests, told};
ghost use Rattle.tp_layout.specs.Packets.{address_rows};
ghost use Rattle.tp_layout.specs.Rows.{bytes_of, network_at, number_at};
ghost use Rattle.tp_layout.specs.BlockWrites.{put};

use crate::fields::{
    network_u16_at, put_bytes, put_network_u16, put_u16, put_u32, u8_at, u16_at, u32_at,
};
use crate::{LayoutError, LayoutKind};

/// AF_PACKET of `linux/socket.h`.
const AF_PACKET: u16 = 17;

/// The number of the only interface; this project's own choice.
const INTERFACE: u32 = 1;

/// ARPHRD_ETHER of `linux/if_arp.h`.
const ARPHRD_ETHER: u16 = 1;

/// The size of an Ethernet address.
const ADDRESS_SIZE: u8 = 6;

/// PACKET_OTHERHOST, the last packet type that a ring has.
const LAST_PACKET_TYPE: u8 = 3;

/// What the address of a packet says.
#[derive(Clone, Copy, Debug, PartialEq, Eq)]
pub struct LinkAddress {
    /// The protocol of the link layer, as a number.
    pub protocol: u16,
    /// 0 host, 1 broadcast, 2 multicast, 3 other host.
    pub pkttype: u8,
    /// The source address of the link layer.
    pub addr: [u8; 6],
}

/// Writes the 18 bytes of `struct sockaddr_ll` up to the last byte of the address, from a place on.
/// The address is `from`, of 6 bytes.
pub fn put_link_address(bytes: &mut [u8], at: usize, protocol: u16, pkttype: u8, from: &[u8])
    requires fits { at + 18 ≤ length bytes.old }
    requires six { length from.now ≡ 6 }
    ensures written { (packet : Packet)
        → packet.protocol ≡ protocol → packet.pkttype ≡ pkttype → packet.addr ≡ from.now
        → bytes.new ≡ put at (bytes_of (address_rows packet)) bytes.old }
    ensures protocol { protocol < 2 ^ 16 }
    ensures typed { (i : ℕ) → slice_index from.now i < 256 }
{
    put_u16(bytes, at, AF_PACKET);
    put_network_u16(bytes, at + 2, protocol);
    put_u32(bytes, at + 4, INTERFACE);
    put_u16(bytes, at + 8, ARPHRD_ETHER);
    put_bytes(bytes, at + 10, &[pkttype, ADDRESS_SIZE]);
    put_bytes(bytes, at + 12, from);
}

/// Tests the fields of `struct sockaddr_ll` from a place on, in a header that is itself at `base`;
/// a fault is reported with its place from there.
#[tactic(auto, unfolding(crate::specs::Checks::address_tests))]
pub fn check_link_address(bytes: &[u8], base: u32, at: u32) -> Result<(), LayoutError>
    requires small { base + at ≤ 2097152 }
    requires header { at + 12 ≤ length bytes.now }
    ensures { told result ≡ address_tests base at bytes.now }
{
    if u16_at(bytes, at as usize) != AF_PACKET {
        return Err(LayoutError::new(LayoutKind::Field, base + at));
    }
    if u32_at(bytes, (at + 4) as usize) != INTERFACE {
        return Err(LayoutError::new(LayoutKind::Field, base + (at + 4)));
    }
    if u16_at(bytes, (at + 8) as usize) != ARPHRD_ETHER {
        return Err(LayoutError::new(LayoutKind::Field, base + (at + 8)));
    }
    if u8_at(bytes, (at + 10) as usize) > LAST_PACKET_TYPE {
        return Err(LayoutError::new(LayoutKind::Field, base + (at + 10)));
    }
    if u8_at(bytes, (at + 11) as usize) != ADDRESS_SIZE {
        return Err(LayoutError::new(LayoutKind::Field, base + (at + 11)));
    }
    Ok(())
}

/// The protocol, the packet type and the address of `struct sockaddr_ll` at a place.
pub fn link_address_at(bytes: &[u8], at: usize) -> LinkAddress
    requires { at + 18 ≤ length bytes.now }
    ensures protocol { result.protocol ≡ network_at 2 (at + 2) bytes.now }
    ensures pkttype { result.pkttype ≡ number_at 1 (at + 10) bytes.now }
    ensures addr { result.addr ≡ address_of (at + 12) bytes.now }
{
    LinkAddress {
        protocol: network_u16_at(bytes, at + 2),
        pkttype: u8_at(bytes, at + 10),
        addr: address_at(bytes, at + 12),
    }
}

/// The six bytes of an address from a place.
fn address_at(bytes: &[u8], at: usize) -> [u8; 6]
    requires { at + 6 ≤ length bytes.now }
    ensures { result ≡ address_of at bytes.now }
{
    [
        bytes[at],
        bytes[at + 1],
        bytes[at + 2],
        bytes[at + 3],
        bytes[at + 4],
        bytes[at + 5],
    ]
}
