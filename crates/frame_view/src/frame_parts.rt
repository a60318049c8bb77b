//! A UDP datagram in one IPv4 packet in an Ethernet frame, made from its parts.
ghost use Rattle.std.specs.Prelude.{◌≡◌, ◌+◌, ◌%◌, ◌≤◌, ◌<◌, ◌^◌, ◌++◌, length, take, drop, IfOk};
ghost use Rattle.std.specs.Prelude.{OnOk};
ghost use Rattle.frame_view.specs.Headers.{view_of};
ghost use Rattle.frame_view.specs.Built.{built, link_bytes, ip_bytes, ip_checksum, udp_bytes};
ghost use Rattle.frame_view.specs.Built.{headers_of};
ghost use Rattle.frame_view.specs.InternetChecksum.{checksum_of};

use crate::{ByteList, Memory, checksum};
use std::alloc::Global;

/// The parts of a made frame: two link addresses, and a UDP datagram with its addresses and ports.
#[derive(Debug, Drop)]
pub struct Parts {
    /// The destination address of the link layer.
    pub to: [u8; 6],
    /// The source address of the link layer.
    pub from: [u8; 6],
    /// The identification of the IPv4 packet.
    pub ident: u16,
    /// The source address of the IPv4 packet, as a number.
    pub source: u32,
    /// The destination address of the IPv4 packet, as a number.
    pub dest: u32,
    /// The source port.
    pub sport: u16,
    /// The destination port.
    pub dport: u16,
    /// The datagram's bytes.
    pub payload: ByteList,
}

/// Makes the frame of some parts: an Ethernet header with the type of IPv4, an IPv4 header without
/// options (RFC 791) with don't-fragment, time to live 64 and its checksum, a UDP header (RFC 768)
/// with no checksum, and the payload. `view` of the frame gives the parts back, and its bytes from
/// 42 on are the payload.
#[tactic(auto, unfolding(crate::specs::Built::built))]
pub fn build(alloc: Global, parts: &Parts) -> Result<ByteList, Memory>
    requires { length parts.now.payload ≤ 1472 }
    ensures bytes { IfOk result (λ bytes. bytes ≡ built parts.now) }
    ensures len { IfOk result (λ bytes. length bytes ≡ 42 + length parts.now.payload) }
    // The receiver's test of the IPv4 header.
    ensures checked { IfOk result (λ bytes. checksum_of (take 20 (drop 14 bytes)) ≡ 0) }
    ensures viewed { IfOk result (λ bytes. view_of bytes ≡ headers_of parts.now) }
    ensures payload { IfOk result (λ bytes. drop 42 bytes ≡ parts.now.payload) }
{
    let payload = parts.payload.as_slice();
    let mut frame = Vec::with_capacity(alloc, 42 + payload.len())?;
    push_link_header(&mut frame, parts)?;
    frame.extend_from_slice(&ip_header(parts, ip_checksum(parts)))?;
    frame.extend_from_slice(&udp_header(parts.sport, parts.dport, payload.len()))?;
    frame.extend_from_slice(payload)?;
    Ok(ByteList::from_vec(frame))
}

/// Puts the two addresses and the type at the end of some bytes.
#[tactic(auto, unfolding(crate::specs::Built::link_bytes))]
fn push_link_header(frame: &mut Vec<u8>, parts: &Parts) -> Result<(), Memory>
    ensures { OnOk result (frame.new.items ≡ frame.old.items ++ link_bytes parts.now) }
{
    frame.extend_from_slice(&parts.to)?;
    frame.extend_from_slice(&parts.from)?;
    frame.extend_from_slice(&0x0800_u16.to_be_bytes())?;
    Ok(())
}

/// The checksum of the parts' IPv4 header.
#[tactic(auto, unfolding(crate::specs::Built::ip_checksum))]
fn ip_checksum(parts: &Parts) -> u16
    requires { length parts.now.payload ≤ 1472 }
    ensures { result ≡ ip_checksum parts.now }
{
    checksum(&ip_header(parts, 0))
}

/// The IPv4 header of the parts, with a given checksum.
#[tactic(auto, unfolding(crate::specs::Built::ip_bytes))]
fn ip_header(parts: &Parts, checksum: u16) -> [u8; 20]
    requires { length parts.now.payload ≤ 1472 }
    ensures { result ≡ ip_bytes parts.now checksum }
{
    let total = (28 + parts.payload.len() as u16).to_be_bytes();
    let ident = parts.ident.to_be_bytes();
    let sum = checksum.to_be_bytes();
    let from = parts.source.to_be_bytes();
    let to = parts.dest.to_be_bytes();
    [
        0x45, 0, total[0], total[1], ident[0], ident[1], 0x40, 0, 64, 17, sum[0], sum[1], from[0],
        from[1], from[2], from[3], to[0], to[1], to[2], to[3],
    ]
}

/// The UDP header over a payload of some length in bytes, without a checksum.
#[tactic(auto, unfolding(crate::specs::Built::udp_bytes))]
fn udp_header(sport: u16, dport: u16, payload: usize) -> [u8; 8]
    requires { payload ≤ 1472 }
    ensures { result ≡ udp_bytes sport dport payload }
{
    let from = sport.to_be_bytes();
    let to = dport.to_be_bytes();
    let len = (8 + payload as u16).to_be_bytes();
    [from[0], from[1], to[0], to[1], len[0], len[1], 0, 0]
}
