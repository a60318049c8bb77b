//! What the headers of a frame say, and the packet type that follows from its destination.
ghost use Rattle.std.specs.Prelude.{◌≡◌, ◌+◌, ◌≤◌, length};
ghost use Rattle.frame_view.specs.Headers.{view_of, link_of, packet_type_of, protocol_of};
ghost use Rattle.frame_view.specs.Headers.{address_of};

use crate::ip_headers::{V4Part, V6Part, has_v4, has_v6, read_v4, read_v6};
use crate::numbers::u16_at;

/// What a frame's headers say.
#[derive(Clone, Copy, Debug, PartialEq, Eq)]
pub enum Headers {
    /// Fewer than 14 bytes: no whole link header.
    Runt,
    /// A whole link header, and no whole IPv4 or IPv6 header after it.
    Plain(Link),
    /// A link header and an IPv4 header.
    V4(Link, V4Part),
    /// A link header and an IPv6 header.
    V6(Link, V6Part),
}

/// The link header of an Ethernet frame.
#[derive(Clone, Copy, Debug, PartialEq, Eq)]
pub struct Link {
    /// The destination address.
    pub to: [u8; 6],
    /// The source address.
    pub from: [u8; 6],
    /// The protocol: the type field from 0x0600 on; for a length field below it ETH_P_802_3
    /// (0x0001) if a raw IPX frame follows, otherwise ETH_P_802_2 (0x0004).
    pub protocol: u16,
}

/// The broadcast address, which all stations receive.
const BROADCAST: [u8; 6] = [0xff; 6];

/// The least type field that is a type and not a length (ETH_P_802_3_MIN of `linux/if_ether.h`).
const LEAST_TYPE: u16 = 0x0600;

/// The bytes of a link header (IEEE 802.3). A frame with fewer is a runt: it isn't an arrival, and
/// it isn't sent.
pub const LINK_HEADER: usize = 14;

/// Reads the headers of a frame, by IEEE 802.3, RFC 791, RFC 8200 and the protocol numbers of
/// `linux/if_ether.h`. An IP header that is cut off, or whose lengths contradict each other, leaves
/// the frame `Plain`; its checksum isn't tested.
#[inline(always)]
pub fn view(bytes: &[u8]) -> Headers
    ensures { result ≡ view_of bytes.now }
{
    if bytes.len() < LINK_HEADER {
        return Headers::Runt;
    }
    let link = link_header(bytes);
    if has_v4(bytes) {
        Headers::V4(link, read_v4(bytes))
    } else if has_v6(bytes) {
        Headers::V6(link, read_v6(bytes))
    } else {
        Headers::Plain(link)
    }
}

/// The link header of a frame, by IEEE 802.3 and the protocol numbers of `linux/if_ether.h`.
pub fn link_header(bytes: &[u8]) -> Link
    requires { 14 ≤ length bytes.now }
    ensures { result ≡ link_of bytes.now }
{
    Link {
        to: address_at(bytes, 0),
        from: address_at(bytes, 6),
        protocol: protocol(bytes),
    }
}

/// The packet type of a frame (`PACKET_HOST` and the others of `linux/if_packet.h`): 1 for the
/// broadcast address, otherwise 2 for a multicast one, otherwise 0 if no own address is given or it
/// is the destination, otherwise 3.
pub fn pkttype(bytes: &[u8], own: Option<[u8; 6]>) -> u8
    requires { 14 ≤ length bytes.now }
    ensures { result ≡ packet_type_of bytes.now own }
{
    let to = address_at(bytes, 0);
    if to == BROADCAST {
        return 1;
    }
    if bytes[0] % 2 == 1 {
        return 2;
    }
    match own {
        Some(own) if to != own => 3,
        _ => 0,
    }
}

/// The type field, or the protocol that a length field below 0x0600 implies.
fn protocol(bytes: &[u8]) -> u16
    requires { 14 ≤ length bytes.now }
    ensures { result ≡ protocol_of bytes.now }
{
    let field = u16_at(bytes, 12);
    if field >= LEAST_TYPE {
        field
    } else if bytes.len() > 15 && u16_at(bytes, 14) == 0xffff {
        0x0001
    } else {
        0x0004
    }
}

/// The link address at a place.
fn address_at(bytes: &[u8], at: usize) -> [u8; 6]
    requires { at + 6 ≤ length bytes.now }
    ensures { result ≡ address_of at bytes.now }
{
    [
        bytes[at],
        bytes[at + 1],
        bytes[at + 2],
        bytes[at + 3],
        bytes[at + 4],
        bytes[at + 5],
    ]
}
