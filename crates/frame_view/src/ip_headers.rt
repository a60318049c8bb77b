//! The IPv4 or the IPv6 header after the link header of a frame, and the ports after it.
ghost use Rattle.std.specs.Prelude.{◌≡◌, ◌+◌, ◌≤◌, length, IsTrue};
ghost use Rattle.frame_view.specs.Headers.{is_v4, v4_of, v4_ports, header_of, is_v6, v6_of};
ghost use Rattle.frame_view.specs.Headers.{ports_at};

use crate::numbers::{u16_at, u32_at, u128_at};

/// The IPv4 header of a frame (RFC 791).
#[derive(Clone, Copy, Debug, PartialEq, Eq)]
pub struct V4Part {
    /// The header's length in bytes, with its options: 20 to 60.
    pub header: u32,
    /// The total length in bytes, header and data, at least `header`.
    pub total: u32,
    /// The identification, which the fragments of a datagram share.
    pub ident: u16,
    /// Whether more fragments follow.
    pub more: bool,
    /// The place of this fragment's data in its datagram, in units of eight bytes.
    pub offset: u32,
    /// The protocol of the data, such as 6 for TCP or 17 for UDP.
    pub next: u8,
    /// The source address, as a number.
    pub from: u32,
    /// The destination address, as a number.
    pub to: u32,
    /// The source port and the destination port, if this isn't a fragment, the data is TCP or UDP,
    /// and its first four bytes are captured.
    pub ports: Option<(u16, u16)>,
}

/// The IPv6 header of a frame (RFC 8200).
#[derive(Clone, Copy, Debug, PartialEq, Eq)]
pub struct V6Part {
    /// The next header, such as 6 for TCP or 17 for UDP.
    pub next: u8,
    /// The source address, as a number.
    pub from: u128,
    /// The destination address, as a number.
    pub to: u128,
    /// The source port and the destination port, if the next header is TCP or UDP and its first
    /// four bytes are captured.
    pub ports: Option<(u16, u16)>,
}

/// ETH_P_IP of `linux/if_ether.h`.
const IPV4: u16 = 0x0800;

/// ETH_P_IPV6 of `linux/if_ether.h`.
const IPV6: u16 = 0x86dd;

/// The protocol number of TCP.
const TCP: u8 = 6;

/// The protocol number of UDP.
const UDP: u8 = 17;

/// Whether a whole IPv4 header follows the link header.
pub(crate) fn has_v4(bytes: &[u8]) -> bool
    ensures { result ≡ is_v4 bytes.now }
{
    if bytes.len() < 34 {
        return false;
    }
    let header = v4_header(bytes);
    u16_at(bytes, 12) == IPV4
        && bytes[14] / 16 == 4
        && header >= 20
        && bytes.len() >= 14 + header
        && usize::from(u16_at(bytes, 16)) >= header
}

/// The length of the IPv4 header in bytes, as its first byte says.
fn v4_header(bytes: &[u8]) -> usize
    requires { 34 ≤ length bytes.now }
    ensures { result ≡ header_of bytes.now }
{
    4 * usize::from(bytes[14] % 16)
}

/// The fields of the IPv4 header.
pub(crate) fn read_v4(bytes: &[u8]) -> V4Part
    requires { IsTrue (is_v4 bytes.now) }
    ensures { result ≡ v4_of bytes.now }
{
    let place = u16_at(bytes, 20);
    V4Part {
        header: v4_header(bytes) as u32,
        total: u32::from(u16_at(bytes, 16)),
        ident: u16_at(bytes, 18),
        more: place / 0x2000 % 2 == 1,
        offset: u32::from(place % 0x2000),
        next: bytes[23],
        from: u32_at(bytes, 26),
        to: u32_at(bytes, 30),
        ports: ports_of_v4(bytes),
    }
}

/// The ports of an IPv4 packet that isn't a fragment.
fn ports_of_v4(bytes: &[u8]) -> Option<(u16, u16)>
    requires { 34 ≤ length bytes.now }
    ensures { result ≡ v4_ports bytes.now }
{
    let place = u16_at(bytes, 20);
    if place / 0x2000 % 2 == 1 || place % 0x2000 > 0 {
        return None;
    }
    ports(bytes, 14 + v4_header(bytes), bytes[23])
}

/// Whether a whole IPv6 header follows the link header.
pub(crate) fn has_v6(bytes: &[u8]) -> bool
    ensures { result ≡ is_v6 bytes.now }
{
    if bytes.len() < 54 {
        return false;
    }
    u16_at(bytes, 12) == IPV6 && bytes[14] / 16 == 6
}

/// The fields of the IPv6 header, and the ports after it.
pub(crate) fn read_v6(bytes: &[u8]) -> V6Part
    requires { 54 ≤ length bytes.now }
    ensures { result ≡ v6_of bytes.now }
{
    V6Part {
        next: bytes[20],
        from: u128_at(bytes, 22),
        to: u128_at(bytes, 38),
        ports: ports(bytes, 54, bytes[20]),
    }
}

/// The ports at a place, if the protocol has ports and they are captured.
fn ports(bytes: &[u8], at: usize, next: u8) -> Option<(u16, u16)>
    requires { at ≤ 74 }
    ensures { result ≡ ports_at at next bytes.now }
{
    if (next == TCP || next == UDP) && bytes.len() >= at + 4 {
        Some((u16_at(bytes, at), u16_at(bytes, at + 2)))
    } else {
        None
    }
}
