//! What a load takes from a packet.
ghost use Rattle.std.specs.Prelude.{◌≡◌, ◌+◌, is_some};
ghost use Rattle.std.specs.Option.{option_map};
ghost use Rattle.bpf_filter.specs.Codes.{absolute, ancillary, header_length, number_at};
ghost use Rattle.bpf_filter.specs.inside.Machines.{bytes_of};
ghost use Rattle.bpf_filter.specs.PacketFacts.{facts_of};
ghost use Rattle.bpf_filter.specs.Tables.{item_at};

use crate::packets::Seen;

/// The first place in a packet that means something other than bytes (`SKF_AD_OFF` of
/// `linux/filter.h`).
const ANCILLARY: u32 = 0xffff_f000;

/// The number of a packet's interface, by this project's own choice.
const INTERFACE: u32 = 1;

/// The hardware type of Ethernet (`ARPHRD_ETHER` of `linux/if_arp.h`).
const ETHERNET: u32 = 1;

/// How many bytes a load takes.
#[derive(Clone, Copy)]
pub(crate) enum Size {
    /// Four bytes (`BPF_W`).
    Word,
    /// Two bytes (`BPF_H`).
    Half,
    /// One byte (`BPF_B`).
    Byte,
}

/// The number at a place of a packet: the fact that the place means, or the number in the bytes
/// there. `None` if some of these bytes are missing.
#[inline]
pub(crate) fn absolute(size: Size, place: u32, packet: &Seen<'_>) -> Option<u32>
    ensures { result ≡ absolute (bytes_of size) place (facts_of packet.now) }
{
    if place >= ANCILLARY {
        if let Some(number) = fact(place, packet) {
            return Some(number);
        }
    }
    number_at(size, place as usize, packet.bytes)
}

/// The fact beside a packet's bytes that a place means.
fn fact(place: u32, packet: &Seen<'_>) -> Option<u32>
    ensures { result ≡ option_map (λ fact. fact (facts_of packet.now)) (item_at ancillary place) }
{
    match place {
        0xffff_f000 => Some(u32::from(packet.protocol)), // SKF_AD_PROTOCOL
        0xffff_f004 => Some(u32::from(packet.pkttype)), // SKF_AD_PKTTYPE
        0xffff_f008 => Some(INTERFACE), // SKF_AD_IFINDEX
        0xffff_f018 => Some(packet.queue), // SKF_AD_QUEUE
        0xffff_f01c => Some(ETHERNET), // SKF_AD_HATYPE
        0xffff_f020 => Some(packet.rxhash), // SKF_AD_RXHASH
        0xffff_f024 => Some(packet.cpu), // SKF_AD_CPU
        _ => None,
    }
}

/// The number at the place that is the sum of X and a number. `None` if its bytes aren't all there.
#[inline]
pub(crate) fn behind_index(size: Size, x: u32, place: u32, packet: &Seen<'_>) -> Option<u32>
    ensures { result ≡ number_at (bytes_of size) (x + place) packet.now.bytes.now }
{
    number_at(size, x as usize + place as usize, packet.bytes)
}

/// Four times the low half of the byte at a place, which is how an IPv4 header gives its length.
#[inline]
pub(crate) fn header_length(place: u32, packet: &Seen<'_>) -> Option<u32>
    ensures { result ≡ option_map header_length (number_at 1 place packet.now.bytes.now) }
{
    let byte = number_at(Size::Byte, place as usize, packet.bytes)?;
    Some(byte % 16 * 4)
}

/// The number in the bytes from a place on, in network order. `None` if they aren't all there.
#[inline]
fn number_at(size: Size, at: usize, bytes: &[u8]) -> Option<u32>
    ensures { result ≡ number_at (bytes_of size) at bytes.now }
{
    let (_, rest) = bytes.split_at_checked(at)?;
    match (size, rest) {
        (Size::Word, [a, b, c, d, ..]) => Some(u32::from_be_bytes([*a, *b, *c, *d])),
        (Size::Half, [a, b, ..]) => Some(u32::from(u16::from_be_bytes([*a, *b]))),
        (Size::Byte, [a, ..]) => Some(u32::from(*a)),
        _ => None,
    }
}

/// Whether a place means a fact beside a packet's bytes.
pub(crate) fn is_ancillary(place: u32) -> bool
    ensures { result ≡ is_some (item_at ancillary place) }
{
    matches!(
        place,
        0xffff_f000
            | 0xffff_f004
            | 0xffff_f008
            | 0xffff_f018
            | 0xffff_f01c
            | 0xffff_f020
            | 0xffff_f024
    )
}
