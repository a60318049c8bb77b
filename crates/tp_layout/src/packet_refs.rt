//! A packet that is read in place.
ghost use Rattle.std.specs.Prelude.{◌≡◌, ◌+◌, ◌^◌, ◌<◌, ◌≤◌, IfOk, IfSome, length};
ghost use Rattle.tp_layout.specs.Readers.{seen};
ghost use Rattle.tp_layout.specs.Packets.{packet_at, status_of_tag, tag_at, tci_of, tpid_may};
ghost use Rattle.tp_layout.specs.Packets.{tpid_of};
ghost use Rattle.tp_layout.specs.Rows.{number_at};

use crate::fields::{u16_at, u32_at};
use crate::link_addresses::link_address_at;
use frame_view::{ByteList, Memory, Packet, Tag};
use std::alloc::Global;

/// A packet of a block, with data borrowed from the block.
#[derive(Clone, Copy, Debug, PartialEq, Eq)]
pub struct PacketRef<'a> {
    /// The seconds of its time.
    pub sec: u32,
    /// The nanoseconds of its time, at most 999,999,999.
    pub nsec: u32,
    /// Its length in bytes on the wire, without its tag.
    pub wire: u32,
    /// The receive hash, 0 if the ring isn't asked to fill it in.
    pub rxhash: u32,
    /// The protocol of the link layer, as a number.
    pub protocol: u16,
    /// 0 host, 1 broadcast, 2 multicast, 3 other host.
    pub pkttype: u8,
    /// The source address of the link layer.
    pub addr: [u8; 6],
    /// The bytes that the snap length left, in the block.
    pub bytes: &'a [u8],
    /// The tag that was taken out of its frame.
    pub tag: Option<Tag>,
}

impl PacketRef<'_> {
    /// A copy of the packet, whose data is copied once.
    pub fn to_packet(&self, alloc: Global) -> Result<Packet, Memory>
        ensures { IfOk result (λ copy. copy ≡ seen self.now) }
    {
        Ok(Packet {
            sec: self.sec,
            nsec: self.nsec,
            wire: self.wire,
            rxhash: self.rxhash,
            protocol: self.protocol,
            pkttype: self.pkttype,
            addr: self.addr,
            bytes: ByteList::from_vec(self.bytes.to_vec(alloc)?),
            tag: self.tag,
        })
    }
}

/// The packet at the start of the bytes.
#[tactic(auto, unfolding(crate::specs::Packets::packet_at))]
pub(crate) fn packet_at(bytes: &[u8]) -> PacketRef<'_>
    requires { 82 + number_at 4 12 bytes.now ≤ length bytes.now }
    ensures { seen result ≡ packet_at bytes.now }
{
    let snap = u32_at(bytes, 12);
    let link = link_address_at(bytes, 48);
    let addr = link.addr;
    let (_, rest) = bytes.split_at(82);
    let (captured, _) = rest.split_at(snap as usize);
    PacketRef {
        sec: u32_at(bytes, 4),
        nsec: u32_at(bytes, 8),
        wire: u32_at(bytes, 16),
        rxhash: u32_at(bytes, 28),
        protocol: link.protocol,
        pkttype: link.pkttype,
        addr,
        bytes: captured,
        tag: tag_at(bytes),
    }
}

/// TP_STATUS_USER of `linux/if_packet.h`.
const USER: u32 = 1;

/// TP_STATUS_USER, TP_STATUS_VLAN_VALID and TP_STATUS_VLAN_TPID_VALID of `linux/if_packet.h`.
const USER_WITH_TAG: u32 = 81;

/// The tag of the header at the start of the bytes, if its status says that it has one.
pub(crate) fn tag_at(bytes: &[u8]) -> Option<Tag>
    requires { 40 ≤ length bytes.now }
    ensures { result ≡ tag_at bytes.now }
{
    if u32_at(bytes, 20) != USER_WITH_TAG {
        return None;
    }
    Some(Tag {
        tpid: u16_at(bytes, 36),
        tci: (u32_at(bytes, 32) % 65_536) as u16,
    })
}

/// What a header says about a tag: the packet's status, the control information, the protocol
/// identifier.
pub(crate) fn vlan_fields(tag: Option<Tag>) -> (u32, u32, u16)
    ensures fields { result ≡ (status_of_tag tag, tci_of tag, tpid_of tag) }
    ensures typed { IfSome tag (λ tag. tag.tci < 2 ^ 16) }
{
    match tag {
        Some(tag) => (USER_WITH_TAG, u32::from(tag.tci), tag.tpid),
        None => (USER, 0, 0),
    }
}

/// Whether a tag's protocol identifier is one of IEEE 802.1Q or 802.1ad.
pub fn tpid_may(tag: Option<Tag>) -> bool
    ensures { result ≡ tpid_may tag }
{
    match tag {
        Some(tag) => tag.tpid == 0x8100 || tag.tpid == 0x88a8,
        None => true,
    }
}
