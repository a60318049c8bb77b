//! Transmit rings of four slots of 2048 bytes, which have room for 2000 bytes after their headers.
ghost use Rattle.std.specs.Prelude.{◌≡◌, ◌+◌, ◌<◌, ◌≤◌, IfOk, length};

use Act::{Place, Queue, Send, Status};
use Said::{Bad, Done, Full, HasStatus, Stopped, TooLong, Took, Wanting};
use frame_view::Packets;
use std::alloc::Global;
use std::process::Abort;
use std::test::Fail;
use tp_layout::RingRequest;
use tx_ring::{SendError, Sent, TxError, TxRing};

/// Four slots.
pub(crate) const SLOTS: RingRequest = RingRequest {
    block_size: 4096,
    block_nr: 2,
    frame_size: 2048,
    frame_nr: 4,
    tov: 0,
    sizeof_priv: 0,
    features: 0,
};

/// What is done to a ring.
#[derive(Clone, Copy)]
enum Act {
    /// This number of bytes is queued.
    Queue(usize),
    /// A frame of this length, with this offset to a next one, is placed with this number of bytes.
    Place(u32, u32, usize),
    Send,
    /// The status of a slot is asked.
    Status(u32),
}

/// What the ring answers.
#[derive(Clone, Copy, Debug, PartialEq, Eq)]
enum Said {
    Done,
    TooLong,
    Stopped(u32),
    Full,
    /// These numbers of packets were sent and skipped.
    Took(u32, u32),
    Bad(u32),
    Wanting,
    /// A slot has this status, or there is no such slot (9).
    HasStatus(u32),
}

/// What is done to a new ring, what it answers, and the lengths of the packets that it sends.
struct Row {
    name: &'static str,
    skip_bad: bool,
    acts: &'static [Act],
    said: &'static [Said],
    lengths: &'static [usize],
}

static ROWS: [Row; 6] = [
    Row {
        name: "a fifth frame, and one of 2001 bytes",
        skip_bad: false,
        acts: &[
            Queue(60),
            Queue(60),
            Queue(60),
            Queue(60),
            Queue(60),
            Queue(2001),
            Send,
        ],
        said: &[Done, Done, Done, Done, Full, TooLong, Took(4, 0)],
        lengths: &[60, 60, 60, 60],
    },
    Row {
        name: "the lengths that may be sent, bad slots skipped",
        skip_bad: true,
        acts: &[
            Queue(14),
            Queue(13),
            Queue(2000),
            Place(0, 2001, 2000),
            Send,
            Send,
        ],
        said: &[Done, Done, Done, Done, Took(2, 2), Took(0, 0)],
        lengths: &[14, 2000],
    },
    Row {
        name: "a bad slot stops the ring for good",
        skip_bad: false,
        acts: &[
            Queue(14),
            Queue(13),
            Queue(60),
            Send,
            Send,
            Queue(60),
            Queue(2001),
            Send,
        ],
        said: &[
            Done,
            Done,
            Done,
            Bad(1),
            Bad(1),
            Stopped(1),
            TooLong,
            Bad(1),
        ],
        lengths: &[14],
    },
    Row {
        name: "slots in turn",
        skip_bad: false,
        acts: &[
            Queue(60),
            Queue(61),
            Queue(62),
            Send,
            Queue(63),
            Queue(64),
            Send,
        ],
        said: &[Done, Done, Done, Took(3, 0), Done, Done, Took(2, 0)],
        lengths: &[60, 61, 62, 63, 64],
    },
    Row {
        name: "an offset to a next frame stops the ring",
        skip_bad: false,
        acts: &[Queue(60), Place(1, 65, 65), Send],
        said: &[Done, Done, Bad(1)],
        lengths: &[60],
    },
    Row {
        name: "the status of each slot",
        skip_bad: false,
        acts: &[
            Queue(60),
            Queue(13),
            Queue(60),
            Status(0),
            Send,
            Status(0),
            Status(1),
            Status(2),
            Status(3),
            Status(4),
        ],
        said: &[
            Done,
            Done,
            Done,
            HasStatus(1),
            Bad(1),
            HasStatus(0),
            HasStatus(4),
            HasStatus(1),
            HasStatus(0),
            HasStatus(9),
        ],
        lengths: &[60],
    },
];

/// The answer of a place.
fn say_place(answer: Result<(), TxError>) -> Said {
    match answer {
        Ok(()) => Done,
        Err(TxError::TooLong) => TooLong,
        Err(TxError::Stopped(slot)) => Stopped(slot),
        Err(TxError::Full) => Full,
    }
}

/// The answer of a send.
fn say_send(answer: Result<Sent, SendError>) -> Said {
    match answer {
        Ok(Sent { sent, skipped }) => Took(sent, skipped),
        Err(SendError::BadSlot(slot)) => Bad(slot),
        Err(SendError::Memory) => Wanting,
    }
}

/// Does one act at a ring, with bytes of 255.
fn do_act(ring: &mut TxRing, act: Act, out: &mut Packets) -> Said
    requires few { ring.old.placed < 1000 }
    ensures few { ring.new.placed ≤ ring.old.placed + 1 }
{
    let bytes = [255; 2100];
    match act {
        Queue(count) => say_place(ring.queue(&bytes[..count.min(2100)])),
        Place(next, length, count) => {
            say_place(ring.place(next, length, &bytes[..count.min(2100)]))
        }
        Send => say_send(ring.send(out)),
        Status(slot) => HasStatus(ring.status(slot).unwrap_or(9)),
    }
}

/// A ring of four slots.
fn four_slots(alloc: Global, skip_bad: bool) -> Result<TxRing, Fail>
    ensures { IfOk result (λ ring. ring.placed ≡ 0) }
{
    let shape = SLOTS.check_tx().ok().ok_or("a valid request")?;
    Ok(TxRing::new(alloc, shape, skip_bad)?)
}

/// What a new ring answers to these acts.
fn do_all(
    alloc: Global,
    ring: &mut TxRing,
    acts: &[Act],
    out: &mut Packets,
) -> Result<Vec<Said>, Fail>
    requires new { ring.old.placed ≡ 0 }
    requires few { length acts.now < 100 }
    ensures few { ring.new.placed ≤ length acts.now }
{
    let mut said = Vec::new(alloc);
    for act in acts {
        said.push(do_act(ring, *act, out))?;
    }
    Ok(said)
}

/// The lengths of packets.
pub(crate) fn lengths(alloc: Global, packets: &Packets) -> Result<Vec<usize>, Fail> {
    let mut all = Vec::new(alloc);
    for packet in packets.as_slice() {
        all.push(packet.bytes.len())?;
    }
    Ok(all)
}

/// What a new ring answers to the acts of a row, and the lengths of the packets that it sends.
fn said_to(alloc: Global, row: &Row) -> Result<(Vec<Said>, Vec<usize>), Fail> {
    if row.acts.len() >= 100 {
        return Err("few acts".into());
    }
    let mut ring = four_slots(alloc, row.skip_bad)?;
    let mut out = Packets::new(alloc);
    let said = do_all(alloc, &mut ring, row.acts, &mut out)?;
    Ok((said, lengths(alloc, &out)?))
}

/// Compares what a ring answers and sends with each row.
fn check_rows(rt: &impl Abort, alloc: Global, rows: &[Row]) -> Result<(), Fail> {
    for row in rows {
        let (said, sent) = said_to(alloc, row)?;
        assert_eq!(rt; said.as_slice(), row.said, "{}", row.name);
        assert_eq!(rt; sent.as_slice(), row.lengths, "{}", row.name);
    }
    Ok(())
}

#[test]
fn what_a_ring_says(rt: HostRuntime) -> Result<(), Fail> {
    check_rows(&rt, rt.alloc(), &ROWS)
}

/// What a ring sends for a frame of 16 bytes of which 14 were given, 6 each, after frames that
/// filled its slots.
fn padded(alloc: Global) -> Result<Packets, Fail> {
    let mut ring = four_slots(alloc, false)?;
    let mut out = Packets::new(alloc);
    let acts = [Queue(2000), Queue(2000), Queue(2000), Queue(2000), Send];
    let said = do_all(alloc, &mut ring, &acts, &mut out)?;
    let placed = say_place(ring.place(0, 16, &[6; 14]));
    let sent = do_act(&mut ring, Send, &mut out);
    if said.last() != Some(&Took(4, 0)) || (placed, sent) != (Done, Took(1, 0)) {
        return Err("four frames and one more are sent".into());
    }
    Ok(out)
}

#[test]
fn zeros_follow_the_bytes_that_were_given(rt: HostRuntime) -> Result<(), Fail> {
    let out = padded(rt.alloc())?;
    let packet = out.get(4).ok_or("a fifth packet")?;
    let bytes = b"\x06\x06\x06\x06\x06\x06\x06\x06\x06\x06\x06\x06\x06\x06\x00\x00";
    assert_eq!(rt; packet.bytes.as_slice(), bytes.as_slice());
    let told = (packet.wire, packet.protocol, packet.pkttype);
    assert_eq!(rt; told, (16, 0x0606, 0));
    Ok(())
}
