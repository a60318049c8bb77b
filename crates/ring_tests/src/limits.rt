//! Requests at each limit of the rules for rings, and what follows from one.
use RequestError::{
    BlockCount, BlockSize, Feature, FrameAlign, FrameCount, FrameSmall, Private, Slots, Transmit,
};
use frame_view::Memory;
use std::alloc::Global;
use std::process::Abort;
use std::test::Fail;
use tp_layout::{RequestError, RingRequest, Shape, blocks};

/// Block size, number of blocks, frame size and number of frames of two pages.
const SIZES: [u32; 4] = [4096, 2, 2048, 4];

/// No time-out, no private area and no feature.
const NONE: [u32; 3] = [0, 0, 0];

/// A request with these sizes and this time-out, private area and features.
fn request(sizes: [u32; 4], extras: [u32; 3]) -> RingRequest {
    let [block_size, block_nr, frame_size, frame_nr] = sizes;
    let [tov, sizeof_priv, features] = extras;
    RingRequest {
        block_size,
        block_nr,
        frame_size,
        frame_nr,
        tov,
        sizeof_priv,
        features,
    }
}

/// A request for a receive ring, and its first fault.
type Receive = (&'static str, [u32; 4], [u32; 3], Option<RequestError>);

static RECEIVE: [Receive; 22] = [
    ("two pages", [4096, 2, 2048, 4], NONE, None),
    ("no byte", [0, 2, 2048, 4], NONE, Some(BlockSize)),
    (
        "a page and a byte",
        [4097, 2, 2048, 4],
        NONE,
        Some(BlockSize),
    ),
    ("blocks of 1 MiB", [1_048_576, 2, 2048, 1_024], NONE, None),
    (
        "a page more",
        [1_052_672, 2, 2048, 1_028],
        NONE,
        Some(BlockSize),
    ),
    ("one block", [4096, 1, 2048, 2], NONE, Some(BlockCount)),
    ("256 blocks", [4096, 256, 2048, 512], NONE, None),
    ("257 blocks", [4096, 257, 2048, 514], NONE, Some(BlockCount)),
    ("64 MiB", [1_048_576, 64, 2048, 32_768], NONE, None),
    (
        "65 MiB",
        [1_048_576, 65, 2048, 33_280],
        NONE,
        Some(BlockCount),
    ),
    ("a private area of 1024", SIZES, [60_000, 1_024, 1], None),
    (
        "a private area of 1025",
        SIZES,
        [0, 1_025, 0],
        Some(Private),
    ),
    (
        "frames of 67 bytes",
        [4096, 2, 67, 122],
        NONE,
        Some(FrameSmall),
    ),
    (
        "frames of 64 bytes",
        [4096, 2, 64, 128],
        NONE,
        Some(FrameSmall),
    ),
    (
        "frames of 68 bytes",
        [4096, 2, 68, 120],
        NONE,
        Some(FrameAlign),
    ),
    ("frames of 80 bytes", [4096, 2, 80, 102], NONE, None),
    (
        "a frame too few",
        [4096, 2, 2048, 3],
        NONE,
        Some(FrameCount),
    ),
    (
        "a frame too many",
        [4096, 2, 2048, 5],
        NONE,
        Some(FrameCount),
    ),
    (
        "no frame in a block",
        [4096, 2, 8192, 0],
        NONE,
        Some(FrameCount),
    ),
    ("feature 2", SIZES, [0, 0, 2], Some(Feature)),
    ("features 1 and 2", SIZES, [0, 0, 3], Some(Feature)),
    ("nothing at all", [0, 0, 0, 0], NONE, Some(BlockSize)),
];

/// Compares each request's fault with its row.
fn check_receive(rt: &impl Abort, rows: &[Receive]) {
    for (name, sizes, extras, fault) in rows {
        let found = request(*sizes, *extras).check().err();
        assert_eq!(rt; (*name, found), (*name, *fault));
    }
}

#[test]
fn requests_at_each_limit(rt: HostRuntime) {
    check_receive(&rt, &RECEIVE);
}

/// A request for another ring: its first fault as a transmit ring, and as one of TPACKET_V2.
type Other = (
    &'static str,
    [u32; 4],
    [u32; 3],
    Option<RequestError>,
    Option<RequestError>,
);

static OTHERS: [Other; 7] = [
    ("two pages", SIZES, NONE, None, None),
    (
        "a time-out",
        SIZES,
        [1, 0, 0],
        Some(Transmit),
        Some(Transmit),
    ),
    (
        "a private area",
        SIZES,
        [0, 1, 0],
        Some(Transmit),
        Some(Transmit),
    ),
    (
        "a feature",
        SIZES,
        [0, 0, 1],
        Some(Transmit),
        Some(Transmit),
    ),
    (
        "a time-out and feature 2",
        SIZES,
        [1, 0, 2],
        Some(Feature),
        Some(Feature),
    ),
    ("65,536 slots", [65_536, 128, 128, 65_536], NONE, None, None),
    (
        "66,048 slots",
        [65_536, 129, 128, 66_048],
        NONE,
        None,
        Some(Slots),
    ),
];

/// Compares each request's fault with its row.
fn check_others(rt: &impl Abort, rows: &[Other]) {
    for (name, sizes, extras, transmit, slots) in rows {
        let request = request(*sizes, *extras);
        let (sent, held) = (request.check_tx().err(), request.check_v2().err());
        assert_eq!(rt; (*name, sent, held), (*name, *transmit, *slots));
    }
}

#[test]
fn requests_of_other_rings(rt: HostRuntime) {
    check_others(&rt, &OTHERS);
}

/// Compares what follows from a request for a private area of 13 bytes with its numbers.
fn check_numbers(rt: &impl Abort, shape: &Shape) {
    let blocks = [shape.block_size(), shape.block_nr()];
    let frames = [shape.frame_size(), shape.frame_nr()];
    let room = [shape.first(), shape.room()];
    assert_eq!(rt; (blocks, frames, room), ([4096, 2], [2048, 4], [64, 4032]));
    assert_eq!(rt; (shape.tov(), shape.fill_hash()), (8, true));
}

/// There are two blocks of a page.
fn check_blocks(rt: &impl Abort, alloc: Global, shape: &Shape) -> Result<(), Memory> {
    let all = blocks(alloc, shape)?;
    assert_eq!(rt; all.len(), 2);
    for block in &all {
        assert_eq!(rt; block.bytes().len(), 4096);
    }
    Ok(())
}

#[test]
fn a_private_area_of_13_bytes(rt: HostRuntime) -> Result<(), Fail> {
    let asked = request(SIZES, [0, 13, 1]);
    let shape = asked.check().ok().ok_or("a valid request")?;
    check_numbers(&rt, &shape);
    check_blocks(&rt, rt.alloc(), &shape)?;
    Ok(())
}
