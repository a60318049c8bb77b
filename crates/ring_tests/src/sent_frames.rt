//! Frames that are sent through a ring of four slots of 2048 bytes.
ghost use Rattle.std.specs.Prelude.{◌≡◌, ◌<◌, IfOk, length};

use crate::slots::{SLOTS, lengths};
use frame_view::{ByteList, Frame, Frames};
use std::alloc::Global;
use std::process::Abort;
use std::test::Fail;
use tx_ring::transmit_frames;

/// The lengths of the frames, those that are sent, how many are skipped, and where the ring stops.
struct Row {
    name: &'static str,
    skip_bad: bool,
    lengths: &'static [usize],
    sent: &'static [usize],
    skipped: u64,
    stop: Option<u32>,
}

static ROWS: [Row; 5] = [
    Row {
        name: "a longer frame stops the ring",
        skip_bad: false,
        lengths: &[60, 3000, 60],
        sent: &[60],
        skipped: 0,
        stop: Some(1),
    },
    Row {
        name: "a longer frame is skipped",
        skip_bad: true,
        lengths: &[60, 3000, 60],
        sent: &[60, 60],
        skipped: 1,
        stop: None,
    },
    Row {
        name: "more frames than slots",
        skip_bad: false,
        lengths: &[60, 61, 62, 63, 64, 65],
        sent: &[60, 61, 62, 63, 64, 65],
        skipped: 0,
        stop: None,
    },
    Row {
        name: "runts are counted and not sent",
        skip_bad: false,
        lengths: &[13, 14, 2000, 0, 2001, 60],
        sent: &[14, 2000],
        skipped: 0,
        stop: Some(4),
    },
    Row {
        name: "no frame",
        skip_bad: false,
        lengths: &[],
        sent: &[],
        skipped: 0,
        stop: None,
    },
];

/// Frames of zeros of these lengths, numbered from 0.
fn frames(alloc: Global, lengths: &[usize]) -> Result<Frames, Fail>
    requires { length lengths.now < 100 }
    ensures { IfOk result (λ frames. length frames ≡ length lengths.now) }
{
    let mut frames = Frames::new(alloc);
    for (index, length) in lengths.iter().enumerate() {
        let bytes = vec![in alloc; 0; *length]?;
        frames.push(Frame {
            cpu: 0,
            index: index as u32,
            sec: 1,
            nsec: 2,
            wire: 3000,
            bytes: ByteList::from_vec(bytes),
            tag: None,
        })?;
    }
    Ok(frames)
}

/// How many frames were sent and skipped, and where the ring stopped.
type Counts = (u64, u64, Option<u32>);

/// The lengths of the packets that a ring sends of the frames of a row, and its counts.
fn sent_of(alloc: Global, row: &Row) -> Result<(Vec<usize>, Counts), Fail> {
    let shape = SLOTS.check_tx().ok().ok_or("a valid request")?;
    if row.lengths.len() >= 100 {
        return Err("few frames".into());
    }
    let frames = frames(alloc, row.lengths)?;
    let told = transmit_frames(alloc, shape, row.skip_bad, &frames)?;
    let sent = lengths(alloc, &told.packets)?;
    Ok((sent, (told.sent, told.skipped, told.stop)))
}

/// Compares what is sent of each row's frames with the row.
fn check_rows(rt: &impl Abort, alloc: Global, rows: &[Row]) -> Result<(), Fail> {
    for row in rows {
        let (sent, counts) = sent_of(alloc, row)?;
        assert_eq!(rt; sent.as_slice(), row.sent, "{}", row.name);
        let all = row.sent.len() as u64;
        assert_eq!(rt; counts, (all, row.skipped, row.stop), "{}", row.name);
    }
    Ok(())
}

#[test]
fn frames_through_a_ring(rt: HostRuntime) -> Result<(), Fail> {
    check_rows(&rt, rt.alloc(), &ROWS)
}
