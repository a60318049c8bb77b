//! Blocks that are written and walked, compared with bytes that another program wrote.
ghost use Rattle.std.specs.Prelude.{◌≡◌, IfOk};

use crate::sample_blocks::{FRAME, PAGES, TEXT, block_with, fault, new_block, offer, part};
use frame_view::Tag;
use ring_model::need;
use std::alloc::Global;
use std::test::Fail;
use tp_layout::{
    Block, Closing, LayoutError, PacketRef, PacketWalk, RingRequest, Shape, close_header, text_of,
    walk, walk_text, write_header, write_packet,
};

/// Bytes in a block from a place on.
type Bytes = (usize, &'static [u8]);

/// The first of these places where a block has other bytes.
fn other_bytes(block: &[u8], rows: &[Bytes]) -> Option<usize> {
    for (from, bytes) in rows {
        if part(block, *from, from.saturating_add(bytes.len())) != *bytes {
            return Some(*from);
        }
    }
    None
}

/// The packet of a walk that gives exactly one.
fn only_packet(answer: Result<PacketWalk<'_>, LayoutError>) -> Option<PacketRef<'_>> {
    let Ok(mut packets) = answer else {
        return None;
    };
    let first = packets.next();
    match packets.next() {
        None => first,
        Some(_) => None,
    }
}

/// Whether a packet is that of the frame.
fn is_the_frame(packet: Option<PacketRef<'_>>) -> bool {
    let Some(packet) = packet else {
        return false;
    };
    let times = packet.sec == 1 && packet.nsec == 2_000;
    let lengths = packet.wire == 14 && packet.rxhash == 0;
    let kinds = packet.protocol == 0x0806 && packet.pkttype == 1 && packet.tag.is_none();
    let bytes = packet.addr == [2, 0, 0, 0, 0, 1] && packet.bytes == FRAME.as_slice();
    times && lengths && kinds && bytes
}

#[test]
fn a_block_with_one_frame(rt: HostRuntime) -> Result<(), Fail> {
    let alloc = rt.alloc();
    let shape = PAGES.check().ok().ok_or("a valid request")?;
    let offer = offer(alloc, &FRAME, 14, 14, None)?;
    let block = block_with(alloc, &shape, &offer)?;
    assert_eq!(rt; text_of(&block), TEXT);
    let bytes = block.bytes();
    let rest = part(bytes, 144, 4096).len();
    assert_eq!(rt; (rest, fault(bytes, &shape)), (3952, None));
    assert!(rt; is_the_frame(only_packet(walk(bytes, &shape))));
    assert!(rt; is_the_frame(only_packet(walk_text(TEXT, &shape))));
    Ok(())
}

/// Where the first packet starts and the text ends, and the private area.
static PRIVATE: [Bytes; 2] = [(16, &[64, 0, 0, 0, 160, 0, 0, 0]), (48, &[0; 16])];

#[test]
fn a_private_area_before_the_frame(rt: HostRuntime) -> Result<(), Fail> {
    let alloc = rt.alloc();
    let request = RingRequest {
        sizeof_priv: 13,
        ..PAGES
    };
    let shape = request.check().ok().ok_or("a valid request")?;
    if shape.room() < need(14) {
        return Err("a frame fits".into());
    }
    let offer = offer(alloc, &FRAME, 14, 14, None)?;
    let block = block_with(alloc, &shape, &offer)?;
    let bytes = block.bytes();
    assert_eq!(rt; other_bytes(bytes, &PRIVATE), None);
    assert_eq!(rt; fault(bytes, &shape), None);
    Ok(())
}

/// Where the text ends, the lengths of the packet and its status, and its tag.
static TAGGED: [Bytes; 3] = [
    (20, &[192, 0, 0, 0]),
    (60, &[60, 0, 0, 0, 60, 0, 0, 0, 81, 0, 0, 0]),
    (80, &[0x64, 0, 0, 0, 0, 0x81, 0]),
];

#[test]
fn a_packet_with_a_tag(rt: HostRuntime) -> Result<(), Fail> {
    let alloc = rt.alloc();
    let shape = PAGES.check().ok().ok_or("a valid request")?;
    let tag = Tag {
        tpid: 0x8100,
        tci: 0x0064,
    };
    let mut frame = [0; 60];
    frame[12] = 8;
    let offer = offer(alloc, &frame, 60, 60, Some(tag))?;
    let block = block_with(alloc, &shape, &offer)?;
    let bytes = block.bytes();
    assert_eq!(rt; other_bytes(bytes, &TAGGED), None);
    let packet = only_packet(walk(bytes, &shape)).ok_or("it has a packet")?;
    let told = (packet.tag, packet.protocol, packet.wire);
    assert_eq!(rt; told, (Some(tag), 0x0800, 60));
    Ok(())
}

/// Block 1 with three packets of 60 bytes, retired with status 1.
fn three_frames(alloc: Global, shape: &Shape) -> Result<Block, Fail>
    ensures { IfOk result (λ block. block.shape ≡ shape.now) }
{
    let offer = offer(alloc, &[0; 60], 60, 60, None)?;
    let mut block = new_block(alloc, shape)?;
    let first = shape.first();
    if shape.room() < 432 {
        return Err("three frames fit".into());
    }
    write_header(&mut block, shape, 1);
    write_packet(&mut block, shape, first, &offer);
    write_packet(&mut block, shape, first + 144, &offer);
    write_packet(&mut block, shape, first + 288, &offer);
    let closing = Closing {
        status: 1,
        packets: 3,
        length: first + 432,
        last_at: first + 288,
        first_sec: 1,
        first_nsec: 2_000,
        last_sec: 1,
        last_nsec: 2_000,
    };
    close_header(&mut block, shape, &closing);
    Ok(block)
}

/// The number of packets, where the first one starts and where the text ends; and the offset from
/// each packet to the next one, 0 of the last.
static THREE: [Bytes; 4] = [
    (12, &[3, 0, 0, 0, 48, 0, 0, 0, 0xe0, 1, 0, 0]),
    (48, &[144, 0, 0, 0]),
    (192, &[144, 0, 0, 0]),
    (336, &[0, 0, 0, 0]),
];

#[test]
fn three_frames_one_after_another(rt: HostRuntime) -> Result<(), Fail> {
    let shape = PAGES.check().ok().ok_or("a valid request")?;
    let block = three_frames(rt.alloc(), &shape)?;
    let bytes = block.bytes();
    assert_eq!(rt; other_bytes(bytes, &THREE), None);
    let mut packets = walk(bytes, &shape).ok().ok_or("the text is lawful")?;
    for left in [true, true, true, false] {
        assert_eq!(rt; packets.next().is_some(), left);
    }
    Ok(())
}

/// The end of a text that fills a block.
static FILLED: [Bytes; 1] = [(20, &[0, 16, 0, 0])];

/// For a packet of this wire length, of which 3,966 bytes are kept: whether its block's text is
/// reported to end at another place, how many bytes the text has, and how many the packet had and
/// has.
fn filled(
    alloc: Global,
    shape: &Shape,
    wire: u32,
) -> Result<(Option<usize>, usize, u32, usize), Fail> {
    if wire < 3_966 || shape.room() < need(3_966) {
        return Err("a block has room for 3,966 bytes".into());
    }
    let bytes = vec![in alloc; 7; 4000]?;
    let offer = offer(alloc, bytes.as_slice(), 3_966, wire, None)?;
    let block = block_with(alloc, shape, &offer)?;
    let other = other_bytes(block.bytes(), &FILLED);
    let packet = only_packet(walk(block.bytes(), shape)).ok_or("it has a packet")?;
    let length = packet.bytes.len();
    Ok((other, text_of(&block).len(), packet.wire, length))
}

#[test]
fn a_frame_cut_to_the_room(rt: HostRuntime) -> Result<(), Fail> {
    let shape = PAGES.check().ok().ok_or("a valid request")?;
    // 9,000 bytes on the wire of which 3,966 are kept, and a frame of 3,966 bytes
    for wire in [9_000, 3_966] {
        let found = filled(rt.alloc(), &shape, wire)?;
        assert_eq!(rt; found, (None, 4096, wire, 3_966));
    }
    Ok(())
}
