//! What receives on one ring and transmits on another.
//!
//! A forwarder reads each block as a reader does, and gives the packets that were read to a sender.
//! So they go out during the run, whenever all slots of the transmit ring are requested, and the
//! rest goes out at the end. If memory runs out, the sender was given a part of the packets, and
//! the next call goes on with the rest: none is lost, and none is sent twice.
ghost use Rattle.std.specs.Prelude.{◌≡◌, ◌^◌, ◌<◌, ◌≤◌, length, None, IfOk, OnErr, OnOk};
ghost use Rattle.reader_walk.specs.Takers.{IsReadable};
ghost use Rattle.tp_layout.specs.Requests.{transmit_fault};

use crate::sender::Sender;
use frame_view::{Memory, Packets};
use reader_walk::{Outputs, Reader, Taker, a_block_has_few_packets};
use std::alloc::Global;
use std::marker::Model;
use tp_layout::{Block, Shape};

/// What a forwarder leaves.
#[derive(Debug, Drop)]
pub struct Forwarded {
    /// What a reader of the same blocks returns.
    pub outputs: Outputs,
    /// The packets that were sent, in order. Each is the frame of a packet that was read, its tag
    /// put back, with time 0 and its own length as the length on the wire.
    pub sent: Packets,
    /// The number of packets that were skipped: those whose frame has fewer than 14 bytes or more
    /// than fit after the header of a slot.
    pub skipped: u64,
}

/// Reads the blocks of a ring (PACKET_RX_RING) and sends their packets through another
/// (PACKET_TX_RING). Contracts see the blocks that it has read.
#[derive(Drop)]
pub struct Forwarder {
    /// What was received.
    reader: Reader,
    /// What it sends with.
    sender: Sender,
    /// How many of the received packets the sender was given.
    given: usize,
}

impl Model for Forwarder {
    ghost use Rattle.tap_forward.specs.Forwarders.{ForwarderValue};

    ghost Value = { ForwarderValue };

    ghost use Rattle.tap_forward.specs.ForwardersInside.{IsSound, forwarder_value};

    ghost view = { forwarder_value };

    ghost invariant = { IsSound };
}

impl Forwarder {
    ghost use Rattle.tap_forward.specs.Forwarders.{base_of, forwarded_of, has_forwarded};
    ghost use Rattle.tap_forward.specs.Forwarders.{new_forwarder};

    /// A forwarder that has read nothing: it reads blocks of the shape `shape`, keeps their texts
    /// if it is asked to, and sends through a ring of the shape `tx`, which is that of a request
    /// that passed `RingRequest::check_tx`.
    pub fn new(alloc: Global, shape: Shape, tx: Shape, dump: bool) -> Result<Forwarder, Memory>
        requires { transmit_fault tx ≡ None }
        ensures { IfOk result (λ forwarder. forwarder ≡ new_forwarder shape tx dump) }
    {
        Ok(Forwarder {
            reader: Reader::new(alloc, shape, dump),
            sender: Sender::new(alloc, tx)?,
            given: 0,
        })
    }

    /// Sends what is still requested, and returns all that was read, sent and skipped. No slot is
    /// ever refused.
    pub fn end(self) -> Result<Forwarded, Memory>
        ensures { IfOk result (λ forwarded. forwarded ≡ forwarded_of self) }
    {
        let Forwarder {
            reader,
            mut sender,
            mut given,
        } = self;
        sender.give_all(reader.walked(), &mut given)?;
        sender.send()?;
        Ok(Forwarded {
            outputs: reader.outputs(),
            sent: sender.sent,
            skipped: sender.skipped,
        })
    }

    /// Reads a block, and gives its packets to the sender.
    fn forward(&mut self, block: &Block) -> Result<(), Memory>
        requires readable { IsReadable self.old.shape block.now }
        requires few { length self.old.taken < 2 ^ 40 }
        ensures read { OnOk result (self.new ≡ has_forwarded block.now.bytes self.old) }
        ensures base { OnErr result (base_of self.new ≡ base_of self.old) }
    {
        a_block_has_few_packets(block);
        self.reader.walk_block(block)?;
        self.sender.give_all(self.reader.walked(), &mut self.given)
    }
}

impl Taker for Forwarder {
    ghost use Rattle.tap_forward.specs.Forwarders.{base_of};

    ghost base = { base_of };

    ghost taken = { λ forwarder. forwarder.taken };

    /// Reads a block, and queues the frame of each of its packets that has from 14 bytes to as many
    /// as fit after the header of a slot; if all slots are requested it sends first. Every other
    /// packet is skipped.
    fn block(&mut self, block: &Block) -> Result<(), Memory> {
        self.forward(block)
    }
}
