//! The packets of a block that passed its tests, one after another.
ghost use Rattle.std.specs.Prelude.{◌≡◌, ◌≤◌, ◌++◌, drop, length, take, IfOk, OnOk};
ghost use Rattle.tp_layout.specs.Faults.{packets_in};
ghost use Rattle.tp_layout.specs.Checks.{PassesTests};
ghost use Rattle.tp_layout.specs.Packets.{packet_at};
ghost use Rattle.tp_layout.specs.Readers.{data_of};
ghost use Rattle.tp_layout.specs.Rows.{number_at};

use crate::fields::u32_at;
use crate::link_addresses::link_address_at;
use crate::packet_refs::{PacketRef, packet_at, tag_at};
use frame_view::{ByteList, Memory, Packet, Piece};
use ring_model::{PACKET_HEADER, need};
use std::alloc::Global;
use std::marker::Model;

/// The packets of a block, read in place. Contracts see it as the list of the packets that are
/// left.
#[derive(Debug, Drop)]
pub struct PacketWalk<'a> {
    /// How many packets are left.
    left: u32,
    /// The bytes from the next packet to the end of the last one.
    rest: &'a [u8],
}

impl<'a> Model for PacketWalk<'a> {
    ghost use Rattle.std.specs.Prelude.{List};
    ghost use Rattle.frame_view.specs.declared.frames.Packet.{Packet};

    ghost Value = { List Packet };

    ghost use Rattle.tp_layout.specs.Faults.{packets_in};
    ghost use Rattle.tp_layout.specs.Checks.{PassesTests};

    ghost view = { λ walk. packets_in walk.left walk.rest.now };

    ghost invariant = { λ walk. PassesTests walk.left walk.rest.now };
}

impl<'a> PacketWalk<'a> {
    /// The packets of bytes that passed the tests.
    pub(crate) fn of(left: u32, rest: &'a [u8]) -> PacketWalk<'a>
        requires { PassesTests left rest.now }
        ensures { result ≡ packets_in left rest.now }
    {
        PacketWalk { left, rest }
    }

    /// Appends copies of all packets. After `Memory` some of them follow those that were there. The
    /// data of two or more copies share one piece of memory, which lives as long as any of them.
    pub fn push_copies(self, alloc: Global, into: &mut Vec<Packet>) -> Result<(), Memory>
        ensures copies { OnOk result (into.new.items ≡ into.old.items ++ self.entry) }
        ensures front { take (length into.old.items) into.new.items ≡ into.old.items }
    {
        if self.left > 1 {
            return self.push_gathered(alloc, Vec::new(alloc), into);
        }
        for packet in self {
            into.push(packet.to_packet(alloc)?)?;
        }
        Ok(())
    }

    /// Appends all packets, whose data are gathered in this room: its content is lost, and what is
    /// left of it is freed. After `Memory` some packets follow those that were there.
    pub(crate) fn push_gathered(
        self,
        alloc: Global,
        room: Vec<u8>,
        into: &mut Vec<Packet>,
    ) -> Result<(), Memory>
        ensures copies { OnOk result (into.new.items ≡ into.old.items ++ self.entry) }
        ensures front { take (length into.old.items) into.new.items ≡ into.old.items }
    {
        let piece = Piece::new(alloc, data_of(room, self.left, self.rest)?)?;
        self.push_parts(alloc, &piece, into)
    }

    /// Appends all packets, whose data are parts of this piece. After `Memory` some of them follow
    /// those that were there.
    fn push_parts(self, alloc: Global, piece: &Piece, into: &mut Vec<Packet>) -> Result<(), Memory>
        requires joined { piece.now ≡ data_of self }
        requires small { length piece.now ≤ 1048576 }
        ensures copies { OnOk result (into.new.items ≡ into.old.items ++ self.entry) }
        ensures front { take (length into.old.items) into.new.items ≡ into.old.items }
    {
        into.reserve(self.left as usize)?;
        let mut rest = self.rest;
        let mut left = self.left;
        let mut from = 0;
        while left > 0 {
            let snap = u32_at(rest, 12);
            let bytes = piece.part(alloc, from, snap)?;
            into.push_reserved(packet_with(rest, bytes));
            let (_, tail) = rest.split_at(need(snap) as usize);
            rest = tail;
            left -= 1;
            from += snap;
        }
        Ok(())
    }
}

/// The data of the packets of bytes that passed the tests, one after another, in this room, whose
/// content is lost.
fn data_of(room: Vec<u8>, count: u32, bytes: &[u8]) -> Result<Vec<u8>, Memory>
    requires { PassesTests count bytes.now }
    ensures joined { IfOk result (λ all. all.items ≡ data_of (packets_in count bytes.now)) }
    ensures small { IfOk result (λ all. length all.items ≤ 1048576) }
{
    let mut data = room;
    data.clear();
    // Each packet has a header beside its data, so this is enough for all of it.
    data.reserve(
        bytes
            .len()
            .saturating_sub(count as usize * PACKET_HEADER as usize),
    )?;
    let mut rest = bytes;
    let mut left = count;
    while left > 0 {
        let snap = u32_at(rest, 12);
        let (_, behind) = rest.split_at(PACKET_HEADER as usize);
        let (captured, _) = behind.split_at(snap as usize);
        data.extend_from_slice(captured)?;
        let (_, tail) = rest.split_at(need(snap) as usize);
        rest = tail;
        left -= 1;
    }
    data.shrink_to_fit();
    Ok(data)
}

/// The packet at the start of the bytes, whose data is in this list.
#[tactic(auto, unfolding(crate::specs::Packets::packet_at))]
fn packet_with(bytes: &[u8], captured: ByteList) -> Packet
    requires header { 82 ≤ length bytes.now }
    requires captured { captured ≡ take (number_at 4 12 bytes.now) (drop 82 bytes.now) }
    ensures { result ≡ packet_at bytes.now }
{
    let link = link_address_at(bytes, 48);
    let addr = link.addr;
    Packet {
        sec: u32_at(bytes, 4),
        nsec: u32_at(bytes, 8),
        wire: u32_at(bytes, 16),
        rxhash: u32_at(bytes, 28),
        protocol: link.protocol,
        pkttype: link.pkttype,
        addr,
        bytes: captured,
        tag: tag_at(bytes),
    }
}

impl<'a> Iterator for PacketWalk<'a> {
    ghost use Rattle.std.specs.Iterator.{YieldsFirstBy, item_count};
    ghost use Rattle.tp_layout.specs.Readers.{seen};

    type Item = PacketRef<'a>;

    ghost next_gives = { YieldsFirstBy seen (λ walk. walk) };

    ghost remaining = { item_count (λ walk. walk) };

    fn next(&mut self) -> Option<PacketRef<'a>> {
        if self.left == 0 {
            return None;
        }
        let packet = packet_at(self.rest);
        let (_, rest) = self.rest.split_at(need(u32_at(self.rest, 12)) as usize);
        self.left -= 1;
        self.rest = rest;
        Some(packet)
    }
}
