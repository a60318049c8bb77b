//! What arrives of tagged fragments, on a path that reassembles them.
ghost use Rattle.std.specs.Prelude.{◌≡◌, ◌≤◌, None, length, IfOk};
ghost use Rattle.capture_file.specs.Laws.{IsCaptured};

use fanout_group::{Mode, Plan, ReceivePath};
use frame_view::{ByteList, Frame, Memory, Tag};
use std::alloc::Global;
use std::process::Abort;
use std::test::Fail;

/// The link header of an IPv4 frame after a customer tag, and an IPv4 header from 10.0.0.1 to
/// 10.0.0.2 with protocol 17, up to its fields of length and fragment, which follow.
const TAGGED: [u8; 18] = [
    2, 0, 0, 0, 0, 2, 2, 0, 0, 0, 0, 1, 0x81, 0x00, 0x20, 0x07, 0x08, 0x00,
];

/// A tagged frame with a fragment: its flags and offset, and its data.
fn fragment(alloc: Global, index: u32, place: u16, content: &[u8]) -> Result<Frame, Memory>
    requires few { length content.now ≤ 100 }
    ensures bare { IfOk result (λ frame. frame.tag ≡ None) }
    ensures captured { IfOk result IsCaptured }
{
    let total = 20 + content.len() as u16;
    let mut bytes = Vec::new(alloc);
    bytes.extend_from_slice(&TAGGED)?;
    bytes.extend_from_slice(&[0x45, 0])?;
    bytes.extend_from_slice(&total.to_be_bytes())?;
    bytes.extend_from_slice(&[0x12, 0x34])?;
    bytes.extend_from_slice(&place.to_be_bytes())?;
    bytes.extend_from_slice(&[64, 17, 0, 0, 10, 0, 0, 1, 10, 0, 0, 2])?;
    bytes.extend_from_slice(content)?;
    Ok(Frame {
        cpu: 0,
        index,
        sec: 0,
        nsec: 0,
        wire: bytes.len() as u32,
        bytes: ByteList::from_vec(bytes),
        tag: None,
    })
}

/// What arrives with a fragment.
fn arrive(
    alloc: Global,
    path: &mut ReceivePath,
    index: u32,
    place: u16,
    content: &[u8],
) -> Result<Option<Frame>, Memory>
    requires few { length content.now ≤ 100 }
{
    path.arrive(fragment(alloc, index, place, content)?)
}

/// Whether something arrives with the last fragment of a datagram, with its first after that, and
/// with a copy once it is whole; and what arrives with the second, which completes it.
fn arrivals(alloc: Global, plan: Plan) -> Result<([bool; 3], Option<Frame>), Memory> {
    let mut path = ReceivePath::new(alloc, plan);
    let last = arrive(alloc, &mut path, 0, 2, &[20, 21, 22, 23])?.is_some();
    let first = arrive(alloc, &mut path, 1, 0x2000, &[1; 8])?.is_some();
    let whole = arrive(alloc, &mut path, 2, 0x2001, &[2; 8])?;
    let late = arrive(alloc, &mut path, 3, 0x2001, &[2; 8])?.is_some();
    Ok(([last, first, late], whole))
}

/// Compares the datagram of 40 bytes, with the tag of its frames, with what is expected.
fn check_whole(rt: &impl Abort, whole: &Frame) {
    let tag = Tag {
        tpid: 0x8100,
        tci: 0x2007,
    };
    assert_eq!(rt; (whole.index, whole.wire, whole.tag), (2, 54, Some(tag)));
    let header = b"\x45\x00\x00\x28\x12\x34\x00\x00\x40\x11\x54\x8f";
    assert_eq!(rt; whole.bytes.as_slice().get(14..26), Some(header.as_slice()));
}

#[test]
fn tagged_fragments_arrive_as_one_datagram(rt: HostRuntime) -> Result<(), Fail> {
    let plan = Plan::check(1, Mode::Cpu, 0x8000, false)?;
    let (others, whole) = arrivals(rt.alloc(), plan)?;
    assert_eq!(rt; others, [false; 3]);
    let whole = whole.ok_or("the third fragment makes it whole")?;
    check_whole(&rt, &whole);
    Ok(())
}

/// The first bytes of a tagged frame, as a frame of their own.
fn cut(alloc: Global, length: usize) -> Result<Frame, Memory>
    ensures bare { IfOk result (λ frame. frame.tag ≡ None) }
    ensures captured { IfOk result IsCaptured }
{
    let bytes = TAGGED.get(..length).unwrap_or(&[]).to_vec(alloc)?;
    Ok(Frame {
        cpu: 0,
        index: 0,
        sec: 0,
        nsec: 0,
        wire: bytes.len() as u32,
        bytes: ByteList::from_vec(bytes),
        tag: None,
    })
}

/// How many bytes arrive of such a frame, and whether with a tag.
fn arrived(alloc: Global, plan: Plan, length: usize) -> Result<Option<(usize, bool)>, Memory> {
    let mut path = ReceivePath::new(alloc, plan);
    match path.arrive(cut(alloc, length)?)? {
        Some(frame) => Ok(Some((frame.bytes.len(), frame.tag.is_some()))),
        None => Ok(None),
    }
}

#[test]
fn a_runt_is_no_arrival_and_a_short_tag_stays(rt: HostRuntime) -> Result<(), Fail> {
    for (defrag, length, want) in [
        (false, 13, None),
        (false, 14, Some((14, false))),
        (false, 17, Some((17, false))),
        (false, 18, Some((14, true))),
        (true, 13, None),
        (true, 18, Some((14, true))),
    ] {
        let flags = if defrag { 0x8000 } else { 0 };
        let plan = Plan::check(1, Mode::Cpu, flags, false)?;
        let shape = arrived(rt.alloc(), plan, length)?;
        assert_eq!(rt; (defrag, length, shape), (defrag, length, want));
    }
    Ok(())
}
