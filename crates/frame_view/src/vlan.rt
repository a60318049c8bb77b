//! A VLAN tag taken out of a frame, as a receive path hands it on, and put back for a file.
ghost use Rattle.std.specs.Prelude.{◌≡◌, ◌≤◌, None, Some, length, IfOk};
ghost use Rattle.frame_view.specs.Vlan.{untagged, frame_of, is_tagged, with_tag};

use crate::numbers::u16_at;
use crate::{ByteList, Frame, Memory, Packet, Tag};
use std::alloc::Global;

/// ETH_P_8021Q of `linux/if_ether.h`.
const CUSTOMER_TAG: u16 = 0x8100;

/// ETH_P_8021AD of `linux/if_ether.h`.
const SERVICE_TAG: u16 = 0x88a8;

/// Takes the first VLAN tag (IEEE 802.1Q) out of a frame, in place. A frame of at least 18 bytes
/// whose type field is 0x8100 or 0x88a8 has one: it goes to `tag`, and `wire` falls by 4. An inner
/// tag stays. That 18 bytes are needed and that `wire` falls are this project's own choices.
pub fn untag(frame: &mut Frame)
    requires bare { frame.old.tag ≡ None }
    requires whole { length frame.old.bytes ≤ frame.old.wire }
    ensures { frame.new ≡ untagged frame.old }
{
    if !begins_tagged(frame.bytes.as_slice()) {
        return;
    }
    let tag = Tag {
        tpid: u16_at(frame.bytes.as_slice(), 12),
        tci: u16_at(frame.bytes.as_slice(), 14),
    };
    frame.bytes.cut_tag();
    frame.wire -= 4;
    frame.tag = Some(tag);
}

/// Whether the bytes begin with a tag that `untag` takes out.
pub(crate) fn begins_tagged(bytes: &[u8]) -> bool
    ensures { result ≡ is_tagged bytes.now }
{
    if bytes.len() < 18 {
        return false;
    }
    let tpid = u16_at(bytes, 12);
    tpid == CUSTOMER_TAG || tpid == SERVICE_TAG
}

/// The frame of a packet: its bytes, with its tag put back after the two addresses if it has one
/// and has at least 12 bytes.
pub fn retag(alloc: Global, packet: &Packet) -> Result<ByteList, Memory>
    ensures { IfOk result (λ bytes. bytes ≡ frame_of packet.now) }
{
    let bytes = packet.bytes.as_slice();
    match packet.tag {
        Some(tag) if bytes.len() >= 12 => tagged(alloc, bytes, tag),
        _ => Ok(ByteList::from_vec(bytes.to_vec(alloc)?)),
    }
}

fn tagged(alloc: Global, bytes: &[u8], tag: Tag) -> Result<ByteList, Memory>
    requires { 12 ≤ length bytes.now }
    ensures { IfOk result (λ list. list ≡ with_tag (Some tag) bytes.now) }
{
    let (addresses, rest) = bytes.split_at(12);
    let mut whole = Vec::with_capacity(alloc, bytes.len() + 4)?;
    whole.extend_from_slice(addresses)?;
    whole.extend_from_slice(&tag.tpid.to_be_bytes())?;
    whole.extend_from_slice(&tag.tci.to_be_bytes())?;
    whole.extend_from_slice(rest)?;
    Ok(ByteList::from_vec(whole))
}
