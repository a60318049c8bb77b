//! A ring of four slots between two threads: one puts frames into it, the other reads them.
ghost use Rattle.std.specs.Prelude.{◌≡◌, ◌+◌, ◌<◌, ◌≤◌, false, None, IfOk, [], length};
ghost use Rattle.slot_layout.specs.SlotShapes.{IsSlotShape};
ghost use Rattle.tp_layout.specs.Requests.{numbers_of};

use crate::ring_calls::offer;
use crate::sample_slots::sample_shape;
use frame_view::{Memory, Packets};
use reader_walk::Outputs;
use ring_model::Put;
use ring_words::{TableFeeder, TableWalker, finish, table_ring};
use std::alloc::Global;
use std::test::Fail;
use std::thread;
use std::thread::Threads;
use tp_layout::Shape;
use v2_ring::{Slot, SlotProducer, SlotReader, slots};

/// How often a side polls again after finding nothing, before it gives up.
const LOOKS: u64 = 100_000_000;

/// The feeder's side of the ring.
type Ring = SlotProducer<TableFeeder<Slot>>;

/// Both sides of a new ring.
fn new_sides(alloc: Global, shape: &Shape) -> Result<(Ring, TableWalker<Slot>), Memory>
    requires { IsSlotShape shape.now }
    ensures shape { IfOk result (λ sides. sides.0.shape ≡ shape.now) }
    ensures notes { IfOk result (λ sides. sides.0.notes ≡ []) }
    ensures ring { IfOk result (λ sides. sides.1.id ≡ sides.0.end.id) }
    ensures kind { IfOk result (λ sides. sides.1.kind ≡ numbers_of shape.now) }
    ensures hand { IfOk result (λ sides. sides.1.in_hand ≡ false) }
{
    let (feeder, walker) = table_ring(alloc, slots(alloc, shape)?)?;
    let ring = SlotProducer::new(alloc, *shape, feeder)?;
    Ok((ring, walker))
}

/// Puts `count` frames, each again while it is dropped, and returns the end.
fn feed_all(alloc: Global, mut ring: Ring, count: u32) -> Result<TableFeeder<Slot>, Memory>
    requires fits { 126 ≤ ring.shape.frame_size }
    requires notes { ring.notes ≡ [] }
    ensures { IfOk result (λ end. end.id ≡ ring.end.id) }
{
    let mut put = 0;
    for look in 0..LOOKS {
        if put >= count {
            break;
        }
        match ring.put(offer(alloc, put)?) {
            Ok(Put::Kept) => put += 1,
            Ok(Put::Dropped(_)) => thread::yield_now(),
            Err(_) => return Err(Memory),
        }
    }
    Ok(ring.finish().0)
}

/// Whether each packet's seconds are its place among them.
fn are_in_place(packets: &Packets) -> bool {
    for (at, packet) in packets.as_slice().iter().enumerate() {
        if packet.sec as usize != at {
            return false;
        }
    }
    true
}

/// How many slots and packets were read, and whether each packet's seconds are its place.
fn seen_of(outputs: Outputs) -> (u64, usize, bool) {
    let packets = &outputs.walked;
    (outputs.blocks, packets.len(), are_in_place(packets))
}

/// Reads `count` slots, and returns what is seen of them, and the end.
fn read_all(
    mut reader: SlotReader,
    mut walker: TableWalker<Slot>,
    count: u64,
) -> Result<((u64, usize, bool), TableWalker<Slot>), Memory>
    requires kind { walker.kind ≡ numbers_of reader.shape }
    requires held { reader.held ≡ None }
    requires hand { walker.in_hand ≡ false }
    requires taken { reader.taken ≡ [] }
    ensures ring { IfOk result (λ read. read.1.id ≡ walker.id) }
    ensures hand { IfOk result (λ read. read.1.in_hand ≡ false) }
{
    let mut read = 0;
    for look in 0..LOOKS {
        if read >= count {
            break;
        }
        if reader.step(&mut walker)? {
            read += 1;
        } else {
            thread::yield_now();
        }
    }
    Ok((seen_of(reader.outputs()), walker))
}

/// What a reader in a thread of its own sees of `count` slots, and how many are then left.
fn pass_on<R: Threads + Sync>(
    rt: &R,
    alloc: Global,
    shape: &Shape,
    count: u32,
) -> Result<((u64, usize, bool), usize), Memory>
    requires checked { IsSlotShape shape.now }
    requires fits { 126 ≤ shape.now.frame_size }
{
    let (ring, walker) = new_sides(alloc, shape)?;
    let reader = SlotReader::new(alloc, *shape, false);
    let (fed, read) = thread::join(
        rt,
        move || -> Result<TableFeeder<Slot>, Memory>
            requires { (126 ≤ ring.shape.frame_size) × (ring.notes ≡ []) }
            ensures { IfOk result (λ end. end.id ≡ ring.end.id) }
        { feed_all(alloc, ring, count) },
        move || -> Result<((u64, usize, bool), TableWalker<Slot>), Memory>
            requires { (walker.kind ≡ numbers_of reader.shape) × (reader.held ≡ None)
                × (walker.in_hand ≡ false) × (reader.taken ≡ []) }
            ensures { IfOk result (λ read. (read.1.id ≡ walker.id) × (read.1.in_hand ≡ false)) }
        { read_all(reader, walker, count as u64) },
    );
    let feeder = fed?;
    let (seen, walker) = read?;
    let pending = finish(alloc, feeder, walker)?;
    Ok((seen, pending.len()))
}

#[test]
fn a_hundred_slots_from_one_thread_to_another(rt: HostRuntime) -> Result<(), Fail> {
    let shape = sample_shape()?;
    let seen = pass_on(&rt, rt.alloc(), &shape, 100)?;
    assert_eq!(rt; seen, ((100, 100, true), 0));
    Ok(())
}
