//! Whole captures, however their sources cut them. The expected values are those of pcap 2.4,
//! written by hand.
use capture_file::{CaptureError, CpuEnd};
use capture_reading::{Buffer, Reading, read_capture};
use frame_view::{ByteList, Memory, MomentList};
use std::alloc::Global;
use std::process::Abort;
use std::test::Fail;
use tap_outside::{Failed, MemSource};

/// A header of 24 bytes, for times in nanoseconds with the lowest byte first; then three records,
/// each of 16 bytes and its frame, which end at byte 42, 61 and 78. Seconds and nanoseconds,
/// captured bytes, bytes on the wire: (1, 5) 2 of 60; (1, 7) 3 of 3; (2, 9) 1 of 64.
static THREE_FRAMES: [u8; 78] = [
    0x4d, 0x3c, 0xb2, 0xa1, 2, 0, 4, 0, 0, 0, 0, 0, 0, 0, 0, 0, 0, 0, 4, 0, 1, 0, 0, 0, // header
    1, 0, 0, 0, 5, 0, 0, 0, 2, 0, 0, 0, 60, 0, 0, 0, 21, 22, // first record
    1, 0, 0, 0, 7, 0, 0, 0, 3, 0, 0, 0, 3, 0, 0, 0, 31, 32, 33, // second
    2, 0, 0, 0, 9, 0, 0, 0, 1, 0, 0, 0, 64, 0, 0, 0, 41, // third
];

/// The start of the capture, in a source that gives `piece` bytes at a time and fails at these
/// reads.
fn source_of(
    alloc: Global,
    count: usize,
    piece: usize,
    failing: &[u64],
) -> Result<MemSource, Memory> {
    let (front, _) = THREE_FRAMES.as_slice().split_at(count.min(78));
    let bytes = ByteList::from_vec(front.to_vec(alloc)?);
    let numbers = MomentList::from_vec(failing.to_vec(alloc)?);
    Ok(MemSource::new(bytes, piece.max(1), numbers))
}

/// What is read of it, as CPU 3's.
fn read(alloc: Global, count: usize, piece: usize, failing: &[u64]) -> Result<Reading, Memory> {
    read_capture(
        alloc,
        3,
        &mut Some(source_of(alloc, count, piece, failing)?),
    )
}

/// What is read of a frame: its CPU and index, its time and its bytes on the wire, and how many
/// were captured.
type Seen = ((u32, u32), (u32, u32, u32), usize);

static SEEN: [Seen; 3] = [
    ((3, 0), (1, 5, 60), 2),
    ((3, 1), (1, 7, 3), 3),
    ((3, 2), (2, 9, 64), 1),
];

/// What is read of each frame.
fn seen(alloc: Global, reading: &Reading) -> Result<Vec<Seen>, Memory> {
    let mut seen = Vec::new(alloc);
    for frame in reading.frames.as_slice() {
        seen.push((
            (frame.cpu, frame.index),
            (frame.sec, frame.nsec, frame.wire),
            frame.bytes.len(),
        ))?;
    }
    Ok(seen)
}

/// The capture whose source gives `piece` bytes at a time is read whole.
fn check_piece(rt: &impl Abort, alloc: Global, piece: usize) -> Result<(), Fail> {
    let reading = read(alloc, 78, piece, &[])?;
    let seen = seen(alloc, &reading)?;
    assert_eq!(rt;
        (piece, reading.end, reading.given, seen.as_slice()),
        (piece, CpuEnd::Whole, 78, SEEN.as_slice())
    );
    Ok(())
}

#[test]
fn captures_are_read_whole_in_pieces(rt: HostRuntime) -> Result<(), Fail> {
    for piece in [1, 7, 65_536] {
        check_piece(&rt, rt.alloc(), piece)?;
    }
    Ok(())
}

/// A capture that is cut, or whose source fails.
struct Row {
    name: &'static str,
    /// How many bytes of it there are.
    count: usize,
    /// The most bytes that a read gives.
    piece: usize,
    /// The reads that fail.
    failing: &'static [u64],
    end: CpuEnd,
    /// How many bytes and frames are read.
    read: (u64, usize),
}

static ROWS: [Row; 7] = [
    Row {
        name: "cut in the header",
        count: 23,
        piece: 7,
        failing: &[],
        end: CpuEnd::Damaged(CaptureError::Truncated(0)),
        read: (23, 0),
    },
    Row {
        name: "a header alone",
        count: 24,
        piece: 7,
        failing: &[],
        end: CpuEnd::Whole,
        read: (24, 0),
    },
    Row {
        name: "cut in a record",
        count: 77,
        piece: 7,
        failing: &[],
        end: CpuEnd::Damaged(CaptureError::Truncated(61)),
        read: (77, 2),
    },
    Row {
        name: "cut after a record",
        count: 61,
        piece: 1,
        failing: &[],
        end: CpuEnd::Whole,
        read: (61, 2),
    },
    Row {
        name: "read 1 fails",
        count: 78,
        piece: 65_536,
        failing: &[1],
        end: CpuEnd::Fault,
        read: (0, 0),
    },
    Row {
        name: "read 7 of 7 bytes fails",
        count: 78,
        piece: 7,
        failing: &[7],
        end: CpuEnd::Fault,
        read: (42, 1),
    },
    Row {
        name: "the read after all bytes fails",
        count: 78,
        piece: 65_536,
        failing: &[2],
        end: CpuEnd::Fault,
        read: (78, 3),
    },
];

/// Holds what is read of each row's source to the row.
fn check_rows(rt: &impl Abort, alloc: Global, rows: &[Row]) -> Result<(), Fail> {
    for row in rows {
        let reading = read(alloc, row.count, row.piece, row.failing)?;
        let count = (reading.given, reading.frames.len());
        assert_eq!(rt;
            (row.name, reading.end, count),
            (row.name, row.end, row.read)
        );
    }
    Ok(())
}

#[test]
fn cuts_and_faults_keep_the_frames_before_them(rt: HostRuntime) -> Result<(), Fail> {
    check_rows(&rt, rt.alloc(), &ROWS)
}

#[test]
fn damage_ends_a_capture(rt: HostRuntime) -> Result<(), Fail> {
    let bytes = ByteList::from_vec([0; 40].to_vec(rt.alloc())?);
    let mut source = Some(MemSource::new(bytes, 30, MomentList::new(rt.alloc())));
    let reading = read_capture(rt.alloc(), 0, &mut source)?;
    assert_eq!(rt;
        (reading.end, reading.given, reading.frames.len()),
        (CpuEnd::Damaged(CaptureError::BadMagic), 30, 0)
    );
    assert!(rt; source.is_some());
    Ok(())
}

#[test]
fn no_source_is_a_fault(rt: HostRuntime) -> Result<(), Fail> {
    let reading = read_capture::<MemSource>(rt.alloc(), 0, &mut None)?;
    assert_eq!(rt;
        (reading.end, reading.given, reading.frames.len()),
        (CpuEnd::Fault, 0, 0)
    );
    Ok(())
}

/// The pieces that are read of a source have these lengths, one after another.
fn check_lengths(
    rt: &impl Abort,
    buffer: &mut Buffer,
    source: &mut MemSource,
    lengths: &[usize],
) -> Result<(), Failed> {
    for length in lengths {
        buffer.read(source)?;
        assert_eq!(rt; buffer.piece().len(), *length);
    }
    Ok(())
}

#[test]
fn a_piece_has_65536_bytes_where_the_source_has_more(rt: HostRuntime) -> Result<(), Fail> {
    let bytes = ByteList::from_vec(vec![in rt.alloc(); 7; 70_000]?);
    let mut source = MemSource::new(bytes, 1_000_000, MomentList::new(rt.alloc()));
    let mut buffer = Buffer::new(rt.alloc())?;
    check_lengths(&rt, &mut buffer, &mut source, &[65_536, 4_464, 0])?;
    Ok(())
}
