//! What a whole block says.
ghost use Rattle.std.specs.Prelude.{◌≡◌, ◌+◌, ◌≤◌, length, IfOk};
ghost use Rattle.pcapng_blocks.specs.Bodies.{meaning_of, body_of, enhanced, simple, packet_by};
ghost use Rattle.pcapng_blocks.specs.Bodies.{packet_of, simple_size, captured_fits, frame_of};
ghost use Rattle.pcapng_blocks.specs.Bodies.{IsWithin};
ghost use Rattle.pcapng_blocks.specs.Heads.{least, IsHead};

use crate::heads::{Head, Kind};
use crate::interfaces::{Interface, interface_of, nanoseconds};
use crate::{BlockError, Order};
use frame_view::{ByteList, Frame, Memory};
use std::alloc::Global;

/// LINKTYPE_ETHERNET of the registry of link types.
const ETHERNET: u16 = 1;

/// The major version of a section.
const MAJOR: u16 = 1;

/// The greatest number of captured bytes of a packet.
const LARGEST_PACKET: u32 = 262_144;

/// The number of nanoseconds in a second.
const SECOND: u128 = 1_000_000_000;

/// A packet, whose bytes are in its block.
#[derive(Clone, Copy)]
pub(crate) struct Captured {
    /// The seconds of its time.
    pub sec: u32,
    /// The nanoseconds of its time.
    pub nsec: u32,
    /// Its length on the wire.
    pub wire: u32,
    /// The place of its first byte, from the block's start.
    pub start: usize,
    /// The number of its captured bytes.
    pub size: u32,
}

/// What a block says.
#[derive(Clone, Copy)]
pub(crate) enum Meaning {
    /// A section begins.
    Section,
    /// The section has this interface.
    Interface(Interface),
    /// A packet.
    Packet(Captured),
    /// A block that isn't read.
    Skipped,
}

/// What a whole block at a place says, with the interfaces of its section.
#[tactic(auto, unfolding(crate::specs::Bodies::meaning_of))]
pub(crate) fn read_block(
    interfaces: &[Interface],
    place: usize,
    head: Head,
    block: &[u8],
) -> Result<Meaning, BlockError>
    requires head { IsHead head }
    requires size { length block.now ≡ head.total }
    ensures meaning { result ≡ meaning_of interfaces.now place head block.now }
    ensures within { IfOk result (λ meaning. IsWithin meaning (length block.now)) }
{
    let tail = head.order.u32_at(block, block.len() - 4);
    if tail != head.total {
        return Err(BlockError::BadLength(place as u64));
    }
    read_body(interfaces, place, head.kind, head.order, block)
}

/// What the body of a whole block says.
fn read_body(
    interfaces: &[Interface],
    place: usize,
    kind: Kind,
    order: Order,
    block: &[u8],
) -> Result<Meaning, BlockError>
    requires size { least kind ≤ length block.now }
    ensures body { result ≡ body_of interfaces.now place kind order block.now }
    ensures within { IfOk result (λ meaning. IsWithin meaning (length block.now)) }
{
    match kind {
        Kind::Section => {
            if order.u16_at(block, 12) == MAJOR {
                Ok(Meaning::Section)
            } else {
                Err(BlockError::BadVersion)
            }
        }
        Kind::Interface => {
            let link = order.u16_at(block, 8);
            if link == ETHERNET {
                Ok(Meaning::Interface(interface_of(order, block)))
            } else {
                Err(BlockError::BadLink(u32::from(link)))
            }
        }
        Kind::Enhanced => {
            let number = order.u32_at(block, 8) as usize;
            enhanced(place, interfaces.get(number).copied(), order, block)
        }
        Kind::Simple => simple(place, interfaces.first().copied(), order, block),
        Kind::Other => Ok(Meaning::Skipped),
    }
}

/// The packet of an enhanced packet block, of this interface.
fn enhanced(
    place: usize,
    interface: Option<Interface>,
    order: Order,
    block: &[u8],
) -> Result<Meaning, BlockError>
    requires size { 32 ≤ length block.now }
    ensures packet { result ≡ enhanced place interface order block.now }
    ensures within { IfOk result (λ meaning. IsWithin meaning (length block.now)) }
{
    let Some(interface) = interface else {
        return Err(BlockError::BadInterface(place as u64));
    };
    let stamp = (u64::from(order.u32_at(block, 12)) << 32) + u64::from(order.u32_at(block, 16));
    let packet = packet_of(
        nanoseconds(interface.resolution, stamp),
        28,
        order.u32_at(block, 20),
        order.u32_at(block, 24),
    );
    within(place, packet, 32, block)
}

/// The packet of a simple packet block, of this interface.
fn simple(
    place: usize,
    interface: Option<Interface>,
    order: Order,
    block: &[u8],
) -> Result<Meaning, BlockError>
    requires size { 16 ≤ length block.now }
    ensures packet { result ≡ simple place interface order block.now }
    ensures within { IfOk result (λ meaning. IsWithin meaning (length block.now)) }
{
    let Some(interface) = interface else {
        return Err(BlockError::BadInterface(place as u64));
    };
    let original = order.u32_at(block, 8);
    let packet = packet_of(0, 12, simple_size(interface.snaplen, original), original);
    within(place, packet, 16, block)
}

/// The captured bytes of a simple packet.
fn simple_size(snaplen: u32, original: u32) -> u32
    ensures { result ≡ simple_size snaplen original }
{
    if snaplen == 0 {
        original
    } else {
        original.min(snaplen)
    }
}

/// A packet with its time, captured and original length.
fn packet_of(nanos: u128, start: usize, captured: u32, original: u32) -> Captured
    ensures { result ≡ packet_of nanos start captured original }
{
    Captured {
        sec: (nanos / SECOND).min(u128::from(u32::MAX)) as u32,
        nsec: (nanos % SECOND) as u32,
        wire: captured.max(original),
        start,
        size: captured,
    }
}

/// The packet, if its captured bytes are no more than are allowed and are within the block.
fn within(
    place: usize,
    packet: Captured,
    others: usize,
    block: &[u8],
) -> Result<Meaning, BlockError>
    requires others { packet.start + 4 ≤ others }
    requires some { 16 ≤ others }
    requires few { others ≤ 32 }
    ensures packet { result ≡ packet_by place packet others (length block.now) }
    ensures within { IfOk result (λ meaning. IsWithin meaning (length block.now)) }
{
    let padded = (packet.size as usize).div_ceil(4) * 4;
    if packet.size <= LARGEST_PACKET && others + padded <= block.len() {
        Ok(Meaning::Packet(packet))
    } else {
        Err(BlockError::BadLength(place as u64))
    }
}

/// The frame of a packet.
#[tactic(auto, unfolding(crate::specs::Bodies::frame_of))]
pub(crate) fn frame_of(
    alloc: Global,
    cpu: u32,
    index: u32,
    packet: Captured,
    block: &[u8],
) -> Result<Frame, Memory>
    requires { packet.start + packet.size ≤ length block.now }
    ensures { IfOk result (λ frame. frame ≡ frame_of cpu index packet block.now) }
{
    let (_, from) = block.split_at(packet.start);
    let (data, _) = from.split_at(packet.size as usize);
    Ok(Frame {
        cpu,
        index,
        sec: packet.sec,
        nsec: packet.nsec,
        wire: packet.wire,
        bytes: ByteList::from_vec(data.to_vec(alloc)?),
        tag: None,
    })
}
