//! Rings of two blocks of a page. A block has room for two frames of 1,514 bytes, which need 1,600
//! bytes each; its packets begin at 48.
use crate::acts::Act::{self, Put, Read, Stats, Tick, Try};
use crate::acts::Said::{self, Dropped, Finished, Kept, Refused, Ticked};
use crate::acts::{run, says};
use crate::producer_calls::new_ring;
use crate::seen_blocks::Seen;
use Found::{Free, NotAsked};
use block_ring::TickError;
use ring_model::Found;
use std::alloc::Global;
use std::process::Abort;
use std::test::Fail;
use tp_layout::RingRequest;

/// Two blocks of a page, with a time-out of 8 milliseconds.
const PAGES: RingRequest = RingRequest {
    block_size: 4096,
    block_nr: 2,
    frame_size: 2048,
    frame_nr: 4,
    tov: 0,
    sizeof_priv: 0,
    features: 0,
};

/// What is done to a ring, its notes, and the number, status and end of each block that is read.
struct Row {
    name: &'static str,
    acts: &'static [Act],
    notes: &'static [Said],
    read: &'static [Seen],
}

static ROWS: [Row; 7] = [
    Row {
        name: "two blocks that nobody reads",
        acts: &[
            Put(0, 1514),
            Put(1, 1514),
            Put(2, 1514),
            Put(3, 1514),
            Put(4, 1514),
            Put(5, 1514),
            Put(6, 1514),
        ],
        notes: &[
            Kept(0, NotAsked),
            Kept(1, NotAsked),
            Kept(2, Free),
            Kept(3, NotAsked),
            Dropped(4, 1),
            Dropped(5, 1),
            Dropped(6, 1),
            Finished,
        ],
        read: &[(1, 1, 3248), (2, 1, 3248)],
    },
    Row {
        name: "one block read, which a packet opens anew",
        acts: &[
            Put(0, 1514),
            Put(1, 1514),
            Put(2, 1514),
            Put(3, 1514),
            Put(4, 1514),
            Read,
            Put(5, 1514),
            Put(6, 1514),
        ],
        notes: &[
            Kept(0, NotAsked),
            Kept(1, NotAsked),
            Kept(2, Free),
            Kept(3, NotAsked),
            Dropped(4, 1),
            Kept(5, Free),
            Kept(6, NotAsked),
            Finished,
        ],
        read: &[(1, 1, 3248), (2, 1, 3248), (3, 5, 3248)],
    },
    Row {
        name: "frames that fill a block each",
        acts: &[Put(0, 3966), Put(1, 3966)],
        notes: &[Kept(0, NotAsked), Kept(1, Free), Finished],
        read: &[(1, 1, 4096), (2, 1, 4096)],
    },
    Row {
        name: "a tick at the deadline retires a block",
        acts: &[Put(0, 60), Tick(7), Tick(8)],
        notes: &[
            Kept(0, NotAsked),
            Ticked(7, NotAsked),
            Ticked(8, Free),
            Finished,
        ],
        read: &[(1, 33, 192)],
    },
    Row {
        name: "a tick passes an empty block over",
        acts: &[Tick(8), Put(0, 60), Tick(15), Tick(16)],
        notes: &[
            Ticked(8, NotAsked),
            Kept(0, NotAsked),
            Ticked(15, NotAsked),
            Ticked(16, Free),
            Finished,
        ],
        read: &[(1, 33, 192)],
    },
    Row {
        name: "one block read, which a tick opens anew",
        acts: &[
            Put(0, 1514),
            Put(1, 1514),
            Put(2, 1514),
            Put(3, 1514),
            Put(4, 1514),
            Read,
            Tick(8),
            Put(5, 1514),
            Put(6, 1514),
        ],
        notes: &[
            Kept(0, NotAsked),
            Kept(1, NotAsked),
            Kept(2, Free),
            Kept(3, NotAsked),
            Dropped(4, 1),
            Ticked(8, Free),
            Kept(5, NotAsked),
            Kept(6, NotAsked),
            Finished,
        ],
        read: &[(1, 1, 3248), (2, 1, 3248), (3, 5, 3248)],
    },
    Row {
        name: "tries that are refused leave the ring as it was",
        acts: &[
            Try(0, 1514),
            Try(1, 1514),
            Try(2, 1514),
            Try(3, 1514),
            Try(4, 1514),
            Try(8, 1514),
            Put(8, 1514),
        ],
        notes: &[
            Kept(0, NotAsked),
            Kept(1, NotAsked),
            Kept(2, Free),
            Kept(3, NotAsked),
            Refused(4, 1),
            Refused(8, 1),
            Dropped(8, 1),
            Finished,
        ],
        read: &[(1, 1, 3248), (2, 1, 3248)],
    },
];

/// Compares the notes and the blocks that were read with a row.
fn check_row(rt: &impl Abort, row: &Row, notes: &[Said], read: &[Seen]) {
    assert_eq!(rt; (row.name, notes, read), (row.name, row.notes, row.read));
}

/// Compares the notes and the blocks of each row's ring with the row.
fn check_rows(rt: &impl Abort, alloc: Global, rows: &[Row]) -> Result<(), Fail> {
    for row in rows {
        if row.acts.len() >= 100 {
            return Err("few acts".into());
        }
        let ran = run(alloc, PAGES, row.acts)?;
        let notes = says(alloc, &ran.notes)?;
        check_row(rt, row, notes.as_slice(), ran.read.as_slice());
    }
    Ok(())
}

#[test]
fn notes_and_blocks(rt: HostRuntime) -> Result<(), Fail> {
    check_rows(&rt, rt.alloc(), &ROWS)
}

/// Statistics are taken after a packet has thawed the ring.
static COUNTED: [Act; 9] = [
    Put(0, 1514),
    Put(1, 1514),
    Put(2, 1514),
    Put(3, 1514),
    Put(4, 1514),
    Read,
    Put(5, 1514),
    Stats,
    Put(6, 1514),
];

/// The packets, drops and freezes that are counted until then, and the blocks that are read.
fn check_counted(rt: &impl Abort, stats: &[(u64, u64, u64)], read: &[Seen]) {
    assert_eq!(rt;
        (stats, read),
        (
            &[(6, 1, 1)][..],
            &[(1, 1, 3248), (2, 1, 3248), (3, 1, 3248)][..]
        )
    );
}

#[test]
fn statistics_taken_in_between_start_anew(rt: HostRuntime) -> Result<(), Fail> {
    let ran = run(rt.alloc(), PAGES, &COUNTED)?;
    check_counted(&rt, ran.stats.as_slice(), ran.read.as_slice());
    Ok(())
}

#[test]
fn a_private_area_comes_before_the_packets(rt: HostRuntime) -> Result<(), Fail> {
    let request = RingRequest {
        sizeof_priv: 13,
        ..PAGES
    };
    let ran = run(rt.alloc(), request, &[Put(0, 60), Tick(8), Read][..])?;
    assert_eq!(rt; ran.read.as_slice(), &[(1, 33, 208)][..]);
    Ok(())
}

/// The answer to a tick.
type Answer = Result<(), TickError>;

/// What a new ring answers to ticks that go back by a millisecond and on again.
fn ticked(alloc: Global) -> Result<(Answer, Answer, Answer), Fail> {
    let shape = PAGES.check()?;
    let mut ring = new_ring(alloc, &shape)?;
    Ok((ring.tick(9), ring.tick(8), ring.tick(9)))
}

#[test]
fn the_clock_does_not_go_back(rt: HostRuntime) -> Result<(), Fail> {
    let answers = ticked(rt.alloc())?;
    assert_eq!(rt; answers, (Ok(()), Err(TickError::Backwards(9)), Ok(())));
    Ok(())
}
