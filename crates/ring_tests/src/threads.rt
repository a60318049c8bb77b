//! A ring of blocks between two threads: one puts frames into it, the other reads them.
ghost use Rattle.std.specs.Prelude.{◌≡◌, ◌+◌, ◌*◌, ◌<◌, ◌≤◌, false, None, IfOk, [], length};
ghost use Rattle.tp_layout.specs.Requests.{numbers_of, room_of};

use crate::blocks::page_shape;
use crate::producer_calls::offer;
use block_ring::{Producer, TickError};
use frame_view::{Memory, Packets};
use reader_walk::{Outputs, Reader};
use ring_model::Put;
use ring_words::{TableFeeder, TableWalker, finish, table_ring};
use std::alloc::Global;
use std::test::Fail;
use std::thread;
use std::thread::Threads;
use tp_layout::{Block, Shape, a_shape_is_sound, blocks};

/// How often a side polls again after finding nothing, before it gives up.
const LOOKS: u64 = 100_000_000;

/// The milliseconds after which a block is retired.
const TIME_OUT: u64 = 8;

/// The feeder's side of the ring.
type Ring = Producer<TableFeeder<Block>>;

/// Both sides of a new ring.
fn new_sides(alloc: Global, shape: &Shape) -> Result<(Ring, TableWalker<Block>), Memory>
    ensures shape { IfOk result (λ sides. sides.0.shape ≡ shape.now) }
    ensures notes { IfOk result (λ sides. sides.0.notes ≡ []) }
    ensures ring { IfOk result (λ sides. sides.1.id ≡ sides.0.end.id) }
    ensures kind { IfOk result (λ sides. sides.1.kind ≡ numbers_of shape.now) }
    ensures hand { IfOk result (λ sides. sides.1.in_hand ≡ false) }
{
    a_shape_is_sound(shape);
    let (feeder, walker) = table_ring(alloc, blocks(alloc, shape)?)?;
    let ring = Producer::new(alloc, *shape, feeder)?;
    Ok((ring, walker))
}

/// Lets `passed` milliseconds pass: a block that is open is retired.
fn retire_open(ring: &mut Ring, passed: u32) -> Result<(), Memory>
    requires few { length ring.old.notes < 2 * 1000000000 }
    ensures shape { IfOk result (λ done. ring.new.shape ≡ ring.old.shape) }
    ensures few { IfOk result (λ done. length ring.new.notes ≤ length ring.old.notes + 1) }
    ensures ring { IfOk result (λ done. ring.new.end.id ≡ ring.old.end.id) }
{
    match ring.tick(passed as u64 * TIME_OUT) {
        Ok(()) => Ok(()),
        Err(TickError::Backwards(_)) => Ok(()),
        Err(TickError::Memory) => Err(Memory),
    }
}

/// Puts `count` frames, each into a block of its own.
fn feed(alloc: Global, ring: &mut Ring, count: u32) -> Result<(), Memory>
    requires room { 142 ≤ room_of ring.old.shape }
    requires notes { ring.old.notes ≡ [] }
    ensures { IfOk result (λ done. ring.new.end.id ≡ ring.old.end.id) }
{
    let mut put = 0;
    for look in 0..LOOKS {
        if put >= count {
            break;
        }
        match ring.put(offer(alloc, put, 60)?) {
            Ok(Put::Kept) => {
                put += 1;
                retire_open(ring, put)?;
            }
            Ok(Put::Dropped(_)) => thread::yield_now(),
            Err(_) => return Err(Memory),
        }
    }
    Ok(())
}

/// The same, and returns the end.
fn feed_all(alloc: Global, mut ring: Ring, count: u32) -> Result<TableFeeder<Block>, Memory>
    requires room { 142 ≤ room_of ring.shape }
    requires notes { ring.notes ≡ [] }
    ensures { IfOk result (λ end. end.id ≡ ring.end.id) }
{
    feed(alloc, &mut ring, count)?;
    Ok(ring.finish().0)
}

/// Whether each packet's seconds are its place among them.
fn are_in_place(packets: &Packets) -> bool {
    for (at, packet) in packets.as_slice().iter().enumerate() {
        if packet.sec as usize != at {
            return false;
        }
    }
    true
}

/// How many blocks and packets were read, and whether each packet's seconds are its place.
fn seen_of(outputs: &Outputs) -> (u64, usize, bool) {
    let packets = &outputs.walked;
    (outputs.blocks, packets.len(), are_in_place(packets))
}

/// Reads `count` blocks, and returns what is seen of them, and the end.
fn read_all(
    mut reader: Reader,
    mut walker: TableWalker<Block>,
    count: u64,
) -> Result<((u64, usize, bool), TableWalker<Block>), Memory>
    requires kind { walker.kind ≡ numbers_of reader.shape }
    requires held { reader.held ≡ None }
    requires hand { walker.in_hand ≡ false }
    requires taken { reader.taken ≡ [] }
    ensures ring { IfOk result (λ read. read.1.id ≡ walker.id) }
    ensures hand { IfOk result (λ read. read.1.in_hand ≡ false) }
{
    let mut read = 0;
    for look in 0..LOOKS {
        if read >= count {
            break;
        }
        if reader.step(&mut walker)? {
            read += 1;
        } else {
            thread::yield_now();
        }
    }
    Ok((seen_of(&reader.outputs()), walker))
}

/// What a reader in a thread of its own sees of `count` blocks, and how many blocks are then left.
fn pass_on<R: Threads + Sync>(
    rt: &R,
    alloc: Global,
    shape: &Shape,
    count: u32,
) -> Result<((u64, usize, bool), usize), Memory>
    requires room { 142 ≤ room_of shape.now }
{
    let (ring, walker) = new_sides(alloc, shape)?;
    let reader = Reader::new(alloc, *shape, false);
    let (fed, read) = thread::join(
        rt,
        move || -> Result<TableFeeder<Block>, Memory>
            requires { (142 ≤ room_of ring.shape) × (ring.notes ≡ []) }
            ensures { IfOk result (λ end. end.id ≡ ring.end.id) }
        { feed_all(alloc, ring, count) },
        move || -> Result<((u64, usize, bool), TableWalker<Block>), Memory>
            requires { (walker.kind ≡ numbers_of reader.shape) × (reader.held ≡ None)
                × (walker.in_hand ≡ false) × (reader.taken ≡ []) }
            ensures { IfOk result (λ read. (read.1.id ≡ walker.id) × (read.1.in_hand ≡ false)) }
        { read_all(reader, walker, count as u64) },
    );
    let feeder = fed?;
    let (seen, walker) = read?;
    let pending = finish(alloc, feeder, walker)?;
    Ok((seen, pending.len()))
}

#[test]
fn a_hundred_blocks_from_one_thread_to_another(rt: HostRuntime) -> Result<(), Fail> {
    let shape = page_shape()?;
    let seen = pass_on(&rt, rt.alloc(), &shape, 100)?;
    assert_eq!(rt; seen, ((100, 100, true), 0));
    Ok(())
}
