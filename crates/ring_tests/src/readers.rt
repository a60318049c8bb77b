//! What a reader reads from blocks that are handed to it, with their texts kept and without.
ghost use Rattle.std.specs.Prelude.{◌≡◌, ◌+◌, ◌≤◌, IfOk};
ghost use Rattle.reader_walk.specs.Takers.{IsReadable};
ghost use Rattle.ring_model.specs.Sizes.{need_of};
ghost use Rattle.tp_layout.specs.Requests.{first_of, room_of};
ghost use Rattle.tp_layout.specs.BlockWrites.{IsWritable, zero_block};

use crate::blocks::page_shape;
use crate::dumps::bytes_of;
use frame_view::{ByteList, Frame, Memory, Packet};
use reader_walk::{Outputs, Reader, Taker};
use ring_model::{Offer, need};
use std::alloc::Global;
use std::test::Fail;
use tp_layout::{Block, Closing, Shape, blocks, close_header, write_header, write_packet};

/// A broadcast frame of 14 bytes.
const FRAME: [u8; 14] = [0xff, 0xff, 0xff, 0xff, 0xff, 0xff, 2, 0, 0, 0, 0, 1, 8, 6];

/// The offer of that frame, at 1 second and 2,000 nanoseconds.
fn frame_offered(alloc: Global) -> Result<Offer, Memory>
    ensures sound { IfOk result IsWritable }
    ensures snap { IfOk result (λ offer. offer.snap ≡ 14) }
{
    Ok(Offer {
        frame: Frame {
            cpu: 0,
            index: 0,
            sec: 1,
            nsec: 2_000,
            wire: 14,
            bytes: ByteList::from_vec(FRAME.to_vec(alloc)?),
            tag: None,
        },
        snap: 14,
        hash: 0,
        pkttype: 1,
    })
}

/// A block of a ring of this shape, of zeros.
fn empty_block(alloc: Global, shape: &Shape) -> Result<Block, Memory>
    ensures { IfOk result (λ block. block ≡ zero_block shape.now) }
{
    let mut all = blocks(alloc, shape)?;
    match all.pop() {
        Some(block) => Ok(block),
        None => Err(Memory),
    }
}

/// Block 1 of this shape with only the packet of an offer, retired with status 1.
fn block_with(alloc: Global, shape: &Shape, offer: &Offer) -> Result<Block, Memory>
    requires sound { IsWritable offer.now }
    requires fits { first_of shape.now + need_of offer.now.snap ≤ shape.now.block_size }
    ensures { IfOk result (IsReadable shape.now) }
{
    let mut block = empty_block(alloc, shape)?;
    let first = shape.first();
    let frame = &offer.frame;
    write_header(&mut block, shape, 1);
    write_packet(&mut block, shape, first, offer);
    close_header(
        &mut block,
        shape,
        &Closing {
            status: 1,
            packets: 1,
            length: first + need(offer.snap),
            last_at: first,
            first_sec: frame.sec,
            first_nsec: frame.nsec,
            last_sec: frame.sec,
            last_nsec: frame.nsec,
        },
    );
    Ok(block)
}

/// What was read: how many blocks and packets, how many bytes of them are kept, and whether each of
/// two packets is that frame.
type Seen = ((u64, usize, usize), [bool; 2]);

/// Whether a packet is that frame, with its time, its length on the wire, its hash, and its
/// sender's address.
fn is_that_packet(packet: &Packet) -> bool {
    (packet.sec, packet.nsec, packet.wire, packet.rxhash) == (1, 2_000, 14, 0)
        && (packet.protocol, packet.pkttype, packet.tag) == (0x0806, 1, None)
        && packet.addr == [2, 0, 0, 0, 0, 1]
        && packet.bytes.as_slice() == FRAME.as_slice()
}

/// What is reported of what was read.
fn seen_of(alloc: Global, outputs: &Outputs) -> Result<Seen, Memory> {
    let packets = &outputs.walked;
    let dump = bytes_of(alloc, &outputs.dump)?;
    let sizes = (outputs.blocks, packets.len(), dump.len());
    let are_that = [
        packets.get(0).is_some_and(is_that_packet),
        packets.get(1).is_some_and(is_that_packet),
    ];
    Ok((sizes, are_that))
}

/// What a reader reads from two blocks, one handed to it as a reader and one as a taker.
fn read_two(
    alloc: Global,
    shape: &Shape,
    dump: bool,
    first: &Block,
    second: &Block,
) -> Result<Seen, Memory>
    requires first { IsReadable shape.now first.now }
    requires second { IsReadable shape.now second.now }
{
    let mut reader = Reader::new(alloc, *shape, dump);
    reader.walk_block(first)?;
    Taker::block(&mut reader, second)?;
    seen_of(alloc, &reader.outputs())
}

/// What a reader reads from two blocks with only that frame, with their texts kept or without.
fn seen_with(alloc: Global, shape: &Shape, dump: bool) -> Result<Seen, Memory>
    requires { 144 ≤ room_of shape.now }
{
    let offer = frame_offered(alloc)?;
    let first = block_with(alloc, shape, &offer)?;
    let second = block_with(alloc, shape, &offer)?;
    read_two(alloc, shape, dump, &first, &second)
}

#[test]
fn two_blocks_of_a_packet_each(rt: HostRuntime) -> Result<(), Fail> {
    let shape = page_shape()?;
    let kept = seen_with(rt.alloc(), &shape, true)?;
    let read = seen_with(rt.alloc(), &shape, false)?;
    // the texts' size: a descriptor of 48 bytes and a packet of 96 in each
    assert_eq!(rt;
        (kept, read),
        (((2, 2, 288), [true, true]), ((2, 2, 0), [true, true]))
    );
    Ok(())
}
