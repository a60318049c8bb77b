//! The datagram that its fragments make up.
ghost use Rattle.std.specs.Prelude.{◌≡◌, ◌+◌, ◌-◌, ◌%◌, ◌≤◌, length, find, option_copied, IfOk};
ghost use Rattle.std.specs.Prelude.{replicate};
ghost use Rattle.std.specs.List.{AllByRecursion};
ghost use Rattle.ip_defrag.specs.Extents.{AreKept};
ghost use Rattle.ip_defrag.specs.Fragments.{to_of};
ghost use Rattle.ip_defrag.specs.Datagrams.{bytes_from, completed, data_from, framed, is_first};
ghost use Rattle.ip_defrag.specs.Datagrams.{put_u16, summed, unsummed};
ghost use Rattle.ip_defrag.specs.Held.{AreHeld, written};

use crate::extents::Extent;
use crate::fragments::Fragment;
use frame_view::{ByteList, Frame, Memory, checksum};
use std::alloc::Global;

/// The first of some fragments whose data begins their datagram.
fn first(fragments: &[Fragment]) -> Option<&Fragment>
    ensures { option_copied result ≡ find is_first fragments.now }
{
    fragments.iter().find(|fragment| fragment.from() == 0)
}

/// Writes a number over the two bytes at a place, the high byte first.
fn put_u16(bytes: &mut [u8], at: usize, number: u16)
    requires { at + 2 ≤ length bytes.old }
    ensures { bytes.new ≡ put_u16 at number bytes.old }
{
    bytes[at..at + 2].copy_from_slice(&number.to_be_bytes());
}

/// Writes a fragment's data to its place among its datagram's.
fn place(fragment: &Fragment, into: &mut [u8])
    requires { to_of fragment.now ≤ length into.old }
    ensures { into.new ≡ written fragment.now into.old }
{
    into[fragment.from()..fragment.to()].copy_from_slice(fragment.data());
}

/// Writes the data of some fragments to their places. All of them together fill the room, which
/// holds zeros.
#[tactic(auto, unfolding(crate::specs::Datagrams::data_from))]
fn fill(fragments: &[Fragment], into: &mut [u8])
    requires held { AreHeld fragments.now }
    requires within { AllByRecursion (λ fragment. to_of fragment ≤ length into.old) fragments.now }
    requires zeros { into.old ≡ replicate (length into.old) 0 }
    ensures { into.new ≡ data_from fragments.now (length into.old) }
{
    for fragment in fragments {
        place(fragment, into);
    }
}

/// Makes the headers of a fragment those of its datagram, which has this number of bytes of data:
/// the total length is set, the more bit and the offset are cleared, the other flag bits stay, and
/// the checksum is computed anew.
fn make_whole(headers: &mut [u8], len: usize)
    requires long { 34 ≤ length headers.old }
    requires short { length headers.old ≤ 74 }
    requires even { (length headers.old - 14) % 2 ≡ 0 }
    requires most { len ≤ 65475 }
    ensures { headers.new ≡ summed (unsummed headers.old len) }
{
    let total = (headers.len() - 14 + len) as u16;
    let place = u16::from_be_bytes([headers[20], headers[21]]);
    put_u16(headers, 16, total);
    put_u16(headers, 20, place / 0x4000 * 0x4000);
    put_u16(headers, 24, 0);
    let sum = checksum(&headers[14..]);
    put_u16(headers, 24, sum);
}

/// The bytes of the frame that some fragments make, the first of which is given, and their length
/// of data.
fn whole_bytes(
    alloc: Global,
    first: &Fragment,
    len: usize,
    fragments: &[Fragment],
) -> Result<ByteList, Memory>
    requires held { AreHeld fragments.now }
    requires within { AllByRecursion (λ fragment. to_of fragment ≤ len) fragments.now }
    requires most { len ≤ 65475 }
    ensures bytes { IfOk result (λ bytes. bytes ≡ bytes_from first.now len fragments.now) }
    ensures short { IfOk result (λ bytes. length bytes ≤ 65549) }
{
    let start = first.headers().len();
    let mut bytes = vec![in alloc; 0_u8; start + len]?;
    let (headers, data) = bytes.split_at_mut(start);
    headers.copy_from_slice(first.headers());
    make_whole(headers, len);
    fill(fragments, data);
    Ok(ByteList::from_vec(bytes))
}

/// The frame of a datagram, if these fragments, whose extent is given, are all of them: one is
/// last, and every place below its end is in one of them. It has the CPU, the index and the time of
/// the newest.
#[tactic(auto, unfolding(crate::specs::Datagrams::completed, crate::specs::Datagrams::datagram_from))]
pub(crate) fn completed(
    alloc: Global,
    fragments: &[Fragment],
    extent: Extent,
    newest: &Fragment,
) -> Result<Option<Frame>, Memory>
    requires { AreKept fragments.now extent }
    ensures { IfOk result (λ whole. whole ≡ completed fragments.now newest.now) }
{
    let Some(end) = extent.end else {
        return Ok(None);
    };
    if extent.filled != end {
        return Ok(None);
    }
    let Some(first) = first(fragments) else {
        return Ok(None);
    };
    let bytes = whole_bytes(alloc, first, end, fragments)?;
    Ok(Some(framed(newest.frame(), first.frame(), bytes)))
}

/// A datagram's bytes as a frame, with what it has of the frame that completed it and of its first
/// fragment.
fn framed(newest: &Frame, first: &Frame, bytes: ByteList) -> Frame
    requires { length bytes ≤ 65549 }
    ensures { result ≡ framed newest.now first.now bytes }
{
    Frame {
        cpu: newest.cpu,
        index: newest.index,
        sec: newest.sec,
        nsec: newest.nsec,
        wire: bytes.len() as u32,
        bytes,
        tag: first.tag,
    }
}
