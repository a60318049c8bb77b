//! The frames of a capture, sent through a transmit ring: each is placed in turn, and the ring
//! sends whenever all its slots are requested, and at the end.
ghost use Rattle.std.specs.Prelude.{◌≡◌, ◌+◌, ◌^◌, ◌<◌, ◌≤◌, if◌then◌else◌, None, IfOk, OnOk};
ghost use Rattle.std.specs.Prelude.{length};
ghost use Rattle.frame_view.specs.declared.frames.Frame.{Frame};
ghost use Rattle.tp_layout.specs.Requests.{transmit_fault};
ghost use Rattle.tx_ring.specs.Rings.{room_of};
ghost use Rattle.tx_ring.specs.Transmission.{first_long, transmitted_of};

use crate::{SendError, TxRing};
use frame_view::{Frame, Frames, LINK_HEADER, Memory, Packets};
use std::alloc::Global;
use tp_layout::{RingRequest, Shape};

/// The result of sending frames.
#[derive(Debug, Drop)]
pub struct Transmitted {
    /// The packets that were sent.
    pub packets: Packets,
    /// Their number.
    pub sent: u64,
    /// The number of frames that were skipped because they are longer than what fits into a slot.
    pub skipped: u64,
    /// The number in its capture, runts counted, of the frame at which the ring stopped.
    pub stop: Option<u32>,
}

/// A run under way.
#[derive(Drop)]
pub(crate) struct Transmitter {
    /// The ring.
    pub(crate) ring: TxRing,
    /// The packets that were sent so far.
    pub(crate) packets: Packets,
    /// The number of slots that were skipped so far.
    pub(crate) skipped: u64,
}

/// The most bytes of a ring through which a capture is sent: this project's own choice.
const MOST: u32 = 4_194_304;

impl Transmitter {
    ghost use Rattle.tx_ring.specs.Transmission.{placed_in, sent_once, told_of, with_frame};

    /// Sends what is requested.
    fn send(&mut self) -> Result<(), Memory>
        requires { self.old.skipped < 2 ^ 63 }
        ensures { OnOk result (self.new ≡ sent_once self.old) }
    {
        match self.ring.send(&mut self.packets) {
            Ok(sent) => {
                self.skipped += u64::from(sent.skipped);
                Ok(())
            }
            Err(SendError::BadSlot(_)) => Ok(()),
            Err(SendError::Memory) => Err(Memory),
        }
    }

    /// Places a frame, if the ring takes it.
    fn place(&mut self, bytes: &[u8])
        requires { self.old.ring.placed < 2 ^ 54 }
        ensures { self.new ≡ placed_in self.old bytes.now }
    {
        let room = self.ring.room();
        if bytes.len() > room {
            let (front, _) = bytes.split_at(room);
            let length = bytes.len().min(u32::MAX as usize) as u32;
            let _answer = self.ring.place(0, length, front);
        } else {
            let _answer = self.ring.queue(bytes);
        }
    }

    /// Places a frame that isn't a runt; if all slots are requested it sends first.
    fn put(&mut self, frame: &Frame) -> Result<(), Memory>
        requires placed { self.old.ring.placed < 2 ^ 54 }
        requires few { self.old.skipped < 2 ^ 63 }
        ensures { OnOk result (self.new ≡ with_frame self.old frame.now) }
    {
        if frame.bytes.len() < LINK_HEADER {
            return Ok(());
        }
        if self.ring.is_full() {
            self.send()?;
        }
        self.place(frame.bytes.as_slice());
        Ok(())
    }

    /// The result for the frames that it was given. If the ring stopped, it stopped at the first
    /// one that is longer than what fits.
    fn tell(self, frames: &[Frame]) -> Transmitted
        ensures told { result ≡ told_of self frames.now }
        ensures least { 20 ≤ room_of self.ring.shape }
        ensures small { room_of self.ring.shape + 48 < 2 ^ 32 }
    {
        let room = self.ring.room();
        let stop = if self.ring.has_stopped() {
            first_long(frames, room)
        } else {
            None
        };
        Transmitted {
            sent: self.packets.len() as u64,
            packets: self.packets,
            skipped: self.skipped,
            stop,
        }
    }
}

/// Sends frames through a new ring of this shape, in order. Runts are left out. With `skip_bad` a
/// frame that is longer than what fits into a slot is skipped; without it the first such frame
/// stops the ring. What is sent doesn't depend on how many slots there are, so a large ring has
/// only as many blocks as make 4 MiB: it goes round more often, and takes no more memory than that.
pub fn transmit_frames(
    alloc: Global,
    shape: Shape,
    skip_bad: bool,
    frames: &Frames,
) -> Result<Transmitted, Memory>
    requires transmit { transmit_fault shape ≡ None }
    requires few { length frames.now < 2 ^ 54 }
    ensures { IfOk result (λ sent. sent ≡ transmitted_of (room_of shape) skip_bad frames.now) }
{
    send_through(alloc, fewer_blocks(&shape), skip_bad, frames)
}

/// This shape with at most as many blocks as make 4 MiB.
fn fewer_blocks(shape: &Shape) -> Shape
    requires { transmit_fault shape.now ≡ None }
    ensures valid { transmit_fault result ≡ None }
    ensures room { room_of result ≡ room_of shape.now }
{
    let (block_size, frame_size) = (shape.block_size(), shape.frame_size());
    let block_nr = shape.block_nr().min(MOST / block_size);
    let request = RingRequest {
        block_size,
        block_nr,
        frame_size,
        frame_nr: block_size / frame_size * block_nr,
        tov: 0,
        sizeof_priv: 0,
        features: 0,
    };
    match request.check_tx() {
        Ok(fewer) => fewer,
        Err(_) => unreachable!(),
    }
}

/// Sends frames through a new ring of exactly this shape, as `transmit_frames` does.
fn send_through(
    alloc: Global,
    shape: Shape,
    skip_bad: bool,
    frames: &Frames,
) -> Result<Transmitted, Memory>
    requires transmit { transmit_fault shape ≡ None }
    requires few { length frames.now < 2 ^ 54 }
    ensures { IfOk result (λ sent. sent ≡ transmitted_of (room_of shape) skip_bad frames.now) }
{
    let mut run = Transmitter {
        ring: TxRing::new(alloc, shape, skip_bad)?,
        packets: Packets::new(alloc),
        skipped: 0,
    };
    for frame in frames.as_slice() {
        run.put(frame)?;
    }
    run.send()?;
    Ok(run.tell(frames.as_slice()))
}

/// The number in its capture of the first frame that is longer than fits.
fn first_long(frames: &[Frame], room: usize) -> Option<u32>
    ensures { result ≡ first_long room frames.now }
{
    for frame in frames {
        if frame.bytes.len() > room {
            return Some(frame.index);
        }
    }
    None
}
