//! What a capture gives and what a ring keeps: a frame with its place in its capture, and a packet.
ghost use Rattle.std.specs.Prelude.{◌≡◌, ◌≤◌, ◌<◌, ◌^◌, length};
ghost use Rattle.frame_view.specs.PlainPacket.{plain_of};

use crate::{ByteList, ItemList, link_header, pkttype};

/// One IEEE 802.1Q tag: its protocol identifier and its control information, both read in network
/// order.
#[derive(Clone, Copy, Debug, PartialEq, Eq)]
pub struct Tag {
    /// The tag protocol identifier, 0x8100 or 0x88a8 where `untag` took it out.
    pub tpid: u16,
    /// The tag control information: priority, drop eligibility and VLAN identifier.
    pub tci: u16,
}

/// A frame of a capture.
#[derive(Debug, Drop)]
pub struct Frame {
    /// The CPU whose capture has it, from 0.
    pub cpu: u32,
    /// Its number in that capture, from 0, runts counted.
    pub index: u32,
    /// The seconds of its time.
    pub sec: u32,
    /// The nanoseconds of its time, at most 999,999,999.
    pub nsec: u32,
    /// Its length in bytes on the wire, at least that of `bytes`.
    pub wire: u32,
    /// Its captured bytes, from the destination address on.
    pub bytes: ByteList,
    /// The tag that was taken out of it.
    pub tag: Option<Tag>,
}

/// A packet as a reader of a ring sees it. In this order its fields leave no gaps.
#[derive(Debug, Drop)]
pub struct Packet {
    /// The bytes that the snap length left.
    pub bytes: ByteList,
    /// The seconds of its time.
    pub sec: u32,
    /// The nanoseconds of its time, at most 999,999,999.
    pub nsec: u32,
    /// Its length in bytes on the wire, without its tag.
    pub wire: u32,
    /// The receive hash, 0 if the ring isn't asked to fill it in.
    pub rxhash: u32,
    /// The protocol of the link layer, as a number.
    pub protocol: u16,
    /// The tag that was taken out of its frame.
    pub tag: Option<Tag>,
    /// 0 host, 1 broadcast, 2 multicast, 3 other host.
    pub pkttype: u8,
    /// The source address of the link layer.
    pub addr: [u8; 6],
}

impl Packet {
    /// The packet of a frame on its own, such as one to be sent: times and hash are 0, the length
    /// on the wire is the frame's own, no tag was taken out, and the packet type is that without an
    /// own address. It takes no memory.
    pub fn plain(bytes: ByteList) -> Packet
        requires whole { 14 ≤ length bytes }
        requires short { length bytes < 2 ^ 32 }
        ensures { result ≡ plain_of bytes }
    {
        let link = link_header(bytes.as_slice());
        let addr = link.from;
        Packet {
            sec: 0,
            nsec: 0,
            wire: bytes.len() as u32,
            rxhash: 0,
            protocol: link.protocol,
            pkttype: pkttype(bytes.as_slice(), None),
            addr,
            bytes,
            tag: None,
        }
    }
}

/// Frames, in order.
pub type Frames = ItemList<Frame>;

/// Packets, in order.
pub type Packets = ItemList<Packet>;
