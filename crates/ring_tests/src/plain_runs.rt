//! A ring of four slots on one thread, with the answers, the statistics and the dump that follow
//! from the rules by hand.
ghost use Rattle.std.specs.Prelude.{◌≡◌, ◌+◌, ◌<◌, ◌≤◌, false, None, length, IfOk};
ghost use Rattle.ring_words.specs.PlainRings.{has_block};
ghost use Rattle.slot_layout.specs.SlotShapes.{IsSlotShape};
ghost use Rattle.tp_layout.specs.Requests.{numbers_of};

use crate::dumps::bytes_of;
use crate::ring_calls::{Ring, new_ring, put, try_put};
use crate::sample_slots::sample_shape;
use frame_view::Memory;
use reader_walk::Outputs;
use ring_model::Put;
use std::alloc::Global;
use std::test::Fail;
use tp_layout::Shape;
use v2_ring::SlotReader;

/// What is done to a ring.
#[derive(Clone, Copy)]
enum Act {
    /// A frame of 60 bytes with this number is put.
    Put(u32),
    /// The frame is tried.
    Try(u32),
    /// A reader takes a step.
    Read,
    /// The statistics are taken.
    Stats,
}

/// Its result.
#[derive(Clone, Copy, PartialEq, Eq)]
enum Came {
    /// The frame was kept, or a slot was read.
    Done,
    /// The frame came back, or no slot was there.
    Nothing,
    /// The frame was dropped: the reader still has the slot of this number.
    Dropped(u64),
    /// The statistics.
    Counts(u64, u64, u64),
}

/// Does one act at a ring.
fn do_act(alloc: Global, ring: &mut Ring, reader: &mut SlotReader, act: Act) -> Result<Came, Memory>
    requires fits { 126 ≤ ring.old.shape.frame_size }
    requires few { length ring.old.notes < 1000 }
    requires kind { ring.old.end.kind ≡ numbers_of reader.old.shape }
    requires hand { has_block ring.old.end ≡ false }
    requires held { reader.old.held ≡ None }
    requires read { length reader.old.taken < 1000 }
    ensures shape { IfOk result (λ came. ring.new.shape ≡ ring.old.shape) }
    ensures few { IfOk result (λ came. length ring.new.notes ≤ length ring.old.notes + 1) }
    ensures kind { IfOk result (λ came. ring.new.end.kind ≡ numbers_of reader.new.shape) }
    ensures hand { IfOk result (λ came. has_block ring.new.end ≡ false) }
    ensures held { IfOk result (λ came. reader.new.held ≡ None) }
    ensures read { IfOk result
        (λ came. length reader.new.taken ≤ length reader.old.taken + 1) }
{
    match act {
        Act::Put(index) => match put(alloc, ring, index)? {
            Put::Kept => Ok(Came::Done),
            Put::Dropped(number) => Ok(Came::Dropped(number)),
        },
        Act::Try(index) => Ok(done(try_put(alloc, ring, index)?)),
        Act::Read => Ok(done(reader.step(ring)?)),
        Act::Stats => {
            let stats = ring.take_stats()?;
            Ok(Came::Counts(stats.packets, stats.drops, stats.freezes))
        }
    }
}

/// Whether a thing was done.
fn done(done: bool) -> Came {
    if done { Came::Done } else { Came::Nothing }
}

/// What is done to the ring, and the result.
static ACTS: [(Act, Came); 14] = [
    (Act::Put(0), Came::Done),
    (Act::Put(1), Came::Done),
    (Act::Put(2), Came::Done),
    (Act::Try(3), Came::Done),
    (Act::Try(4), Came::Nothing),
    (Act::Put(4), Came::Dropped(1)),
    (Act::Read, Came::Done),
    (Act::Put(5), Came::Done),
    (Act::Stats, Came::Counts(6, 1, 0)),
    (Act::Read, Came::Done),
    (Act::Put(6), Came::Done),
    (Act::Read, Came::Done),
    (Act::Read, Came::Done),
    (Act::Read, Came::Done),
];

/// The bytes of a slot's text with a frame of 60 bytes.
const TEXT: usize = 126;

/// The status of slot `at` of a dump of slots with frames of 60 bytes.
fn status(dump: &[u8], at: usize) -> Option<u8> {
    dump.get(TEXT.checked_mul(at)?).copied()
}

/// How many packets, bytes of a dump and slots were read, and the status of the first slot, the
/// fourth and the fifth.
type Seen = ((usize, usize, u64), [Option<u8>; 3]);

/// What is reported of what was read.
fn seen_of(alloc: Global, outputs: &Outputs) -> Result<Seen, Memory> {
    let dump = bytes_of(alloc, &outputs.dump)?;
    let sizes = (outputs.walked.len(), dump.len(), outputs.blocks);
    Ok((
        sizes,
        [status(&dump, 0), status(&dump, 3), status(&dump, 4)],
    ))
}

/// Does these acts at a new ring, and returns how many had another result, and what is reported of
/// what was read.
fn run(alloc: Global, shape: &Shape, acts: &[(Act, Came)]) -> Result<(u32, Seen), Memory>
    requires checked { IsSlotShape shape.now }
    requires fits { 126 ≤ shape.now.frame_size }
    requires few { length acts.now < 100 }
{
    let mut ring = new_ring(alloc, shape)?;
    let mut reader = SlotReader::new(alloc, *shape, true);
    let mut others = 0;
    for (act, came) in acts {
        if do_act(alloc, &mut ring, &mut reader, *act)? != *came {
            others += 1;
        }
    }
    Ok((others, seen_of(alloc, &reader.outputs())?))
}

#[test]
fn a_full_ring_drops_and_goes_on(rt: HostRuntime) -> Result<(), Fail> {
    let shape = sample_shape()?;
    let seen = run(rt.alloc(), &shape, &ACTS)?;
    // five slots were read, and the one after a drop has TP_STATUS_LOSING
    assert_eq!(rt; seen, (0, ((5, 630, 5), [Some(1), Some(1), Some(5)])));
    Ok(())
}
