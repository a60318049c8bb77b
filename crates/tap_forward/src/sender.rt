//! A transmit ring that packets are given to one after another: the frame of each waits in its slot
//! until all slots are requested, or until the end.
ghost use Rattle.std.specs.Prelude.{◌≡◌, ◌+◌, ◌^◌, ◌<◌, ◌≤◌, [], ◌∷◌, ◌++◌, List, length, take};
ghost use Rattle.std.specs.Prelude.{IfOk, OnErr, OnOk};
ghost use Rattle.frame_view.specs.Vlan.{frame_of};
ghost use Rattle.frame_view.specs.declared.frames.Packet.{Packet as GivenPacket};
ghost use Rattle.tp_layout.specs.Requests.{transmit_fault};
ghost use Rattle.tx_ring.specs.Rings.{room_of};

use frame_view::{LINK_HEADER, Memory, Packet, Packets, retag};
use std::alloc::Global;
use tp_layout::Shape;
use tx_ring::{SendError, TxError, TxRing};

/// A transmit ring, and the result for the packets that it was given.
#[derive(Drop)]
pub(crate) struct Sender {
    /// Allocates the frames.
    pub(crate) alloc: Global,
    /// The ring. It never stops, since only good frames are queued.
    pub(crate) ring: TxRing,
    /// The packets that were sent so far.
    pub(crate) sent: Packets,
    /// How many of the packets were skipped.
    pub(crate) skipped: u64,
}

impl Sender {
    ghost use Rattle.tap_forward.specs.Senders.{IsGoing, WasGiven};

    /// A sender that was given nothing, through a ring of this shape.
    pub(crate) fn new(alloc: Global, shape: Shape) -> Result<Sender, Memory>
        requires { transmit_fault shape ≡ None }
        ensures shape { IfOk result (λ sender. sender.ring.shape ≡ shape) }
        ensures going { IfOk result (λ sender. IsGoing sender.ring) }
        ensures given { IfOk result (WasGiven []) }
    {
        Ok(Sender {
            alloc,
            ring: TxRing::new(alloc, shape, false)?,
            sent: Packets::new(alloc),
            skipped: 0,
        })
    }

    /// Gives it the packets from number `given` on, and counts them there. After `Memory` it was
    /// given those that are counted.
    pub(crate) fn give_all(&mut self, packets: &[Packet], given: &mut usize) -> Result<(), Memory>
        requires going { IsGoing self.old.ring }
        requires within { given.old ≤ length packets.now }
        requires few { self.old.ring.placed + length packets.now < given.old + 2 ^ 54 }
        requires counted { self.old.skipped + length packets.now < given.old + 2 ^ 54 }
        ensures going { IsGoing self.new.ring }
        ensures shape { self.new.ring.shape ≡ self.old.ring.shape }
        ensures within { given.new ≤ length packets.now }
        ensures given { (before : List GivenPacket)
            → WasGiven (before ++ take given.old packets.now) self.old
            → WasGiven (before ++ take given.new packets.now) self.new }
        ensures all { OnOk result (given.new ≡ length packets.now) }
    {
        while *given < packets.len() {
            self.give(&packets[*given])?;
            *given += 1;
        }
        Ok(())
    }

    /// Sends what is still requested. After `Memory` the rest is requested as before.
    pub(crate) fn send(&mut self) -> Result<(), Memory>
        requires { IsGoing self.old.ring }
        ensures going { IsGoing self.new.ring }
        ensures shape { self.new.ring.shape ≡ self.old.ring.shape }
        ensures given { (given : List GivenPacket)
            → WasGiven given self.old → WasGiven given self.new }
        ensures placed { self.new.ring.placed ≡ self.old.ring.placed }
        ensures skipped { self.new.skipped ≡ self.old.skipped }
        ensures emptied { OnOk result (self.new.ring.requests ≡ []) }
    {
        match self.ring.send(&mut self.sent) {
            Ok(_sent) => Ok(()),
            Err(SendError::BadSlot(_)) => unreachable!(),
            Err(SendError::Memory) => Err(Memory),
        }
    }

    /// Gives it a packet: its frame is queued, or skipped unless it has from 14 bytes to as many as
    /// fit. After `Memory` it was not given the packet.
    fn give(&mut self, packet: &Packet) -> Result<(), Memory>
        requires going { IsGoing self.old.ring }
        requires few { self.old.ring.placed < 2 ^ 54 }
        requires counted { self.old.skipped < 2 ^ 54 }
        ensures going { IsGoing self.new.ring }
        ensures shape { self.new.ring.shape ≡ self.old.ring.shape }
        ensures given { OnOk result ((given : List GivenPacket)
            → WasGiven given self.old → WasGiven (given ++ packet.now ∷ []) self.new) }
        ensures same { OnErr result ((given : List GivenPacket)
            → WasGiven given self.old → WasGiven given self.new) }
        ensures few { self.new.ring.placed ≤ self.old.ring.placed + 1 }
        ensures counted { self.new.skipped ≤ self.old.skipped + 1 }
    {
        if packet.tag.is_none() {
            return self.queue(packet.bytes.as_slice());
        }
        let frame = retag(self.alloc, packet)?;
        self.queue(frame.as_slice())
    }

    /// Queues a frame. One that is a runt, or is longer than what fits into a slot, is skipped.
    /// After `Memory` the frame was not queued.
    fn queue(&mut self, frame: &[u8]) -> Result<(), Memory>
        requires going { IsGoing self.old.ring }
        requires few { self.old.ring.placed < 2 ^ 54 }
        requires counted { self.old.skipped < 2 ^ 54 }
        ensures going { IsGoing self.new.ring }
        ensures shape { self.new.ring.shape ≡ self.old.ring.shape }
        ensures given { OnOk result ((given : List GivenPacket) (packet : GivenPacket)
            → frame_of packet ≡ frame.now
            → WasGiven given self.old → WasGiven (given ++ packet ∷ []) self.new) }
        ensures same { OnErr result ((given : List GivenPacket)
            → WasGiven given self.old → WasGiven given self.new) }
        ensures few { self.new.ring.placed ≤ self.old.ring.placed + 1 }
        ensures counted { self.new.skipped ≤ self.old.skipped + 1 }
    {
        if frame.len() < LINK_HEADER {
            self.skipped += 1;
            return Ok(());
        }
        self.queue_whole(frame)
    }

    /// Queues a frame that isn't a runt; if all slots are requested it sends first. A frame that is
    /// longer than what fits into a slot is skipped. After `Memory` the frame was not queued.
    fn queue_whole(&mut self, frame: &[u8]) -> Result<(), Memory>
        requires going { IsGoing self.old.ring }
        requires few { self.old.ring.placed < 2 ^ 54 }
        requires counted { self.old.skipped < 2 ^ 54 }
        requires whole { 14 ≤ length frame.now }
        ensures going { IsGoing self.new.ring }
        ensures shape { self.new.ring.shape ≡ self.old.ring.shape }
        ensures given { OnOk result ((given : List GivenPacket) (packet : GivenPacket)
            → frame_of packet ≡ frame.now
            → WasGiven given self.old → WasGiven (given ++ packet ∷ []) self.new) }
        ensures same { OnErr result ((given : List GivenPacket)
            → WasGiven given self.old → WasGiven given self.new) }
        ensures few { self.new.ring.placed ≤ self.old.ring.placed + 1 }
        ensures counted { self.new.skipped ≤ self.old.skipped + 1 }
    {
        match self.ring.queue(frame) {
            Ok(()) => Ok(()),
            Err(TxError::TooLong) => {
                self.skipped += 1;
                Ok(())
            }
            Err(TxError::Full) => {
                self.send()?;
                self.queue_free(frame);
                Ok(())
            }
            Err(TxError::Stopped(_)) => unreachable!(),
        }
    }

    /// Queues a frame that fits into a slot, if one is free.
    fn queue_free(&mut self, frame: &[u8])
        requires going { IsGoing self.old.ring }
        requires few { self.old.ring.placed < 2 ^ 54 }
        requires whole { 14 ≤ length frame.now }
        requires fits { length frame.now ≤ room_of self.old.ring.shape }
        requires free { self.old.ring.requests ≡ [] }
        ensures going { IsGoing self.new.ring }
        ensures shape { self.new.ring.shape ≡ self.old.ring.shape }
        ensures given { (given : List GivenPacket) (packet : GivenPacket)
            → frame_of packet ≡ frame.now
            → WasGiven given self.old → WasGiven (given ++ packet ∷ []) self.new }
        ensures placed { self.new.ring.placed ≡ self.old.ring.placed + 1 }
        ensures skipped { self.new.skipped ≡ self.old.skipped }
    {
        if self.ring.queue(frame).is_err() {
            unreachable!()
        }
    }
}
