//! The output file of packets: pcap 2.4, little-endian, in nanoseconds.
ghost use Rattle.std.specs.Prelude.{◌≡◌, ◌+◌, ◌<◌, ◌≤◌, ◌++◌, length, IfOk, All};
ghost use Rattle.std.specs.Vec.{vec_capacity};
ghost use Rattle.frame_view.specs.Vlan.{frame_of};
ghost use Rattle.capture_file.specs.Output.{output_of, record_text, original};

use frame_view::{ByteList, Memory, Packet, Packets};
use std::alloc::Global;
use std::marker::Model;
use tap_outside::{Pieces, gathered};

/// The header of an output file: magic 0xa1b23c4d, version 2.4, time zone 0, accuracy 0, snap
/// length 262,144, link type Ethernet.
const HEADER: [u8; 24] = [
    0x4d, 0x3c, 0xb2, 0xa1, 2, 0, 4, 0, 0, 0, 0, 0, 0, 0, 0, 0, 0, 0, 4, 0, 1, 0, 0, 0,
];

/// The most bytes that the start of a record has: its header, two addresses and a tag.
const LARGEST_START: usize = 32;

/// The output file of packets (pcap 2.4): a header, and a record for each packet, with its tag put
/// back. The original length of a record counts the tag even if the packet is too short to have it
/// put back; that is this project's own choice.
pub fn pcap_text(alloc: Global, packets: &Packets) -> Result<ByteList, Memory>
    requires { All (λ packet. length packet.bytes ≤ 4294967291) packets.now }
    ensures { IfOk result (λ text. text ≡ output_of packets.now) }
{
    let text = gathered(alloc, PcapPieces::new(packets))?;
    Ok(ByteList::from_vec(text))
}

/// The output file of packets, as `pcap_text` gives it, a piece at a time. Contracts see the bytes
/// that are left.
#[derive(Drop)]
pub struct PcapPieces<'a> {
    /// The packets whose records aren't begun.
    packets: &'a [Packet],
    /// What is left of the header of the file, or of the record that was begun last.
    rest: &'a [u8],
}

impl<'a> Model for PcapPieces<'a> {
    ghost use Rattle.std.specs.Prelude.{◌≤◌, ◌++◌, ℕ, List, length, All};
    ghost use Rattle.std.specs.List.{flat_map};
    ghost use Rattle.capture_file.specs.Output.{record_text};

    ghost Value = { List ℕ };

    ghost view = { λ pieces. pieces.rest.now ++ flat_map record_text pieces.packets.now };

    ghost invariant = { λ pieces.
        All (λ packet. length packet.bytes ≤ 4294967291) pieces.packets.now };
}

impl<'a> PcapPieces<'a> {
    /// All pieces of the output file of packets. It takes no memory.
    #[tactic(auto, unfolding(crate::specs::Output::output_of, crate::specs::Output::output_header, crate::specs::Output::four_bytes))]
    pub fn new(packets: &'a Packets) -> PcapPieces<'a>
        requires { All (λ packet. length packet.bytes ≤ 4294967291) packets.now }
        ensures { result ≡ output_of packets.now }
    {
        PcapPieces {
            packets: packets.as_slice(),
            rest: &HEADER,
        }
    }
}

impl<'a> Pieces for PcapPieces<'a> {
    ghost left = { λ pieces. pieces };

    #[tactic(auto, using(crate::proofs::Pieces::record_moved, crate::proofs::Pieces::less_left))]
    fn append_to(&mut self, buffer: &mut Vec<u8>) -> bool {
        let before = buffer.len();
        let end = buffer.capacity();
        let mut packets = self.packets;
        let mut rest = push_front(buffer, end, self.rest);
        while rest.is_empty() && end - buffer.len() >= LARGEST_START {
            let Some((packet, behind)) = packets.split_first() else {
                break;
            };
            let data = push_start(buffer, packet);
            rest = push_front(buffer, end, data);
            packets = behind;
        }
        *self = PcapPieces { packets, rest };
        buffer.len() > before
    }
}

/// Appends as many bytes as a buffer takes until it has `end` of them, for which it has room, and
/// returns those that are left.
fn push_front<'a>(buffer: &mut Vec<u8>, end: usize, bytes: &'a [u8]) -> &'a [u8]
    requires order { length buffer.old.items ≤ end }
    requires room { end ≤ vec_capacity buffer.old }
    ensures moved { buffer.new.items ++ result.now ≡ buffer.old.items ++ bytes.now }
    ensures full { 0 < length result.now → end ≤ length buffer.new.items }
    ensures fits { length buffer.new.items ≤ end }
    ensures room { vec_capacity buffer.old ≤ vec_capacity buffer.new }
{
    let room = end - buffer.len();
    let (front, rest) = bytes.split_at(room.min(bytes.len()));
    push(buffer, front);
    rest
}

/// Appends the start of a packet's record to a buffer that has room for it, and returns the rest of
/// the record, which is the packet's own bytes. The start is the record's header; if the packet has
/// a tag that is put back, its two addresses and the tag belong to it too.
#[tactic(auto, unfolding(crate::specs::Output::record_text, crate::specs::Output::four_bytes))]
fn push_start<'a>(buffer: &mut Vec<u8>, packet: &'a Packet) -> &'a [u8]
    requires short { length packet.now.bytes ≤ 4294967291 }
    requires room { length buffer.old.items + 32 ≤ vec_capacity buffer.old }
    ensures moved { buffer.new.items ++ result.now ≡ buffer.old.items ++ record_text packet.now }
    ensures fits { length buffer.new.items ≤ length buffer.old.items + 32 }
    ensures room { vec_capacity buffer.old ≤ vec_capacity buffer.new }
{
    let header = [
        packet.sec.to_le_bytes(),
        packet.nsec.to_le_bytes(),
        frame_size(packet).to_le_bytes(),
        original(packet).to_le_bytes(),
    ];
    push(buffer, header.as_flattened());
    push_tag(buffer, packet)
}

/// Appends what of a packet's frame isn't followed by its bytes as they are: its two addresses and
/// its tag, if that is put back. Returns the rest of the frame.
fn push_tag<'a>(buffer: &mut Vec<u8>, packet: &'a Packet) -> &'a [u8]
    requires room { length buffer.old.items + 16 ≤ vec_capacity buffer.old }
    ensures moved { buffer.new.items ++ result.now ≡ buffer.old.items ++ frame_of packet.now }
    ensures fits { length buffer.new.items ≤ length buffer.old.items + 16 }
    ensures room { vec_capacity buffer.old ≤ vec_capacity buffer.new }
{
    let bytes = packet.bytes.as_slice();
    match packet.tag {
        Some(tag) if bytes.len() >= 12 => {
            let (addresses, rest) = bytes.split_at(12);
            push(buffer, addresses);
            push(buffer, &tag.tpid.to_be_bytes());
            push(buffer, &tag.tci.to_be_bytes());
            rest
        }
        _ => bytes,
    }
}

/// Appends bytes to a buffer that has room for them.
fn push(buffer: &mut Vec<u8>, bytes: &[u8])
    requires { length buffer.old.items + length bytes.now ≤ vec_capacity buffer.old }
    ensures items { buffer.new.items ≡ buffer.old.items ++ bytes.now }
    ensures room { vec_capacity buffer.old ≤ vec_capacity buffer.new }
{
    let Ok(()) = buffer.extend_from_slice(bytes) else {
        unreachable!();
    };
}

/// The number of bytes of a packet's frame.
fn frame_size(packet: &Packet) -> u32
    requires { length packet.now.bytes ≤ 4294967291 }
    ensures { result ≡ length (frame_of packet.now) }
{
    let size = packet.bytes.len() as u32;
    match packet.tag {
        Some(_) if size >= 12 => size + 4,
        _ => size,
    }
}

/// The length of a packet on the wire with its tag.
fn original(packet: &Packet) -> u32
    ensures { result ≡ original packet.now }
{
    let wire = packet.wire;
    match packet.tag {
        Some(_) => wire.saturating_add(4),
        None => wire,
    }
}
