//! Whole datagrams: their headers, which another program computed, and their data in order.
use crate::built_frames::digits;
use crate::fragments::{FIRST, MORE, Piece, data, fragment, frame, pushed};
use frame_view::{Frame, Frames, Memory, Tag};
use ip_defrag::{Defrag, reassemble};
use std::alloc::Global;
use std::process::Abort;
use std::test::Fail;

/// The IPv4 header of a frame up to a place, and whether the bytes after it are the first of a
/// datagram.
fn shown(alloc: Global, frame: &Frame, headers: usize) -> Result<(String, bool), Memory> {
    let bytes = frame.bytes.as_slice();
    let header = digits(alloc, bytes.get(14..headers).unwrap_or(&[]))?;
    let rest = bytes.get(headers..).unwrap_or(&[]);
    let len = rest.len().min(65_475) as u16;
    Ok((header, rest == data(alloc, 0, len, 0)?.as_slice()))
}

/// The datagram that some fragments make up; the last one pushed completes it.
fn whole_of(alloc: Global, pieces: &[Piece]) -> Result<Frame, Fail> {
    let (whole, _, _) = pushed(alloc, pieces)?;
    Ok(whole.ok_or("a whole datagram")?)
}

/// A frame has this header up to a place, and the first bytes of a datagram after it.
fn check_shown(
    rt: &impl Abort,
    alloc: Global,
    frame: &Frame,
    (name, headers, want): (&str, usize, &str),
) -> Result<(), Fail> {
    let (header, in_order) = shown(alloc, frame, headers)?;
    assert_eq!(rt; header.as_str(), want, "{name}");
    assert!(rt; in_order, "{name}");
    Ok(())
}

#[test]
fn puts_three_fragments_together(rt: HostRuntime) -> Result<(), Fail> {
    let a = Piece {
        index: 1,
        sec: 101,
        ..FIRST
    };
    let b = Piece {
        index: 2,
        sec: 102,
        place: MORE + 1,
        ..FIRST
    };
    let whole = whole_of(rt.alloc(), &[fragment(2, 4), a, b])?;
    let header = "45000028123400004011548f0a0000010a000002";
    check_shown(&rt, rt.alloc(), &whole, ("three", 34, header))?;
    assert_eq!(rt;
        (whole.cpu, whole.index, whole.sec, whole.nsec, whole.wire),
        (3, 2, 102, 2, 54)
    );
    Ok(())
}

/// A datagram's four fragments, of 24, 16, 8 and 5 bytes.
const A: Piece = Piece { len: 24, ..FIRST };

const B: Piece = Piece {
    place: MORE + 3,
    len: 16,
    ..FIRST
};

const C: Piece = Piece {
    place: MORE + 5,
    ..FIRST
};

const D: Piece = Piece {
    place: 6,
    len: 5,
    ..FIRST
};

/// A name, and the fragments in some order.
type Pieces = (&'static str, [Piece; 4]);

static ORDERS: [Pieces; 4] = [
    ("the first first", [A, B, C, D]),
    ("the last first", [D, C, B, A]),
    ("the second first", [B, A, D, C]),
    ("the third first", [C, D, A, B]),
];

/// In each order the fragments give the same datagram.
fn check_orders(rt: &impl Abort, alloc: Global, orders: &[Pieces]) -> Result<(), Fail> {
    let header = "45000049123400004011546e0a0000010a000002";
    for (name, order) in orders {
        let whole = whole_of(alloc, order)?;
        check_shown(rt, alloc, &whole, (name, 34, header))?;
    }
    Ok(())
}

#[test]
fn puts_four_fragments_together_in_each_order(rt: HostRuntime) -> Result<(), Fail> {
    check_orders(&rt, rt.alloc(), &ORDERS)
}

#[test]
fn meets_the_worked_example_of_rfc_791(rt: HostRuntime) -> Result<(), Fail> {
    let first = Piece {
        ident: 111,
        protocol: 6,
        ttl: 119,
        len: 256,
        ..FIRST
    };
    let last = Piece {
        place: 32,
        len: 196,
        ..first
    };
    let whole = whole_of(rt.alloc(), &[first, last])?;
    let header = "450001d8006f000077062daf0a0000010a000002";
    check_shown(&rt, rt.alloc(), &whole, ("rfc 791", 34, header))?;
    assert_eq!(rt; whole.wire, 486);
    Ok(())
}

#[test]
fn puts_the_longest_datagram_together(rt: HostRuntime) -> Result<(), Fail> {
    let first = Piece {
        options: 10,
        len: 65_472,
        ..FIRST
    };
    let whole = whole_of(rt.alloc(), &[fragment(8184, 3), first])?;
    let header =
        "4f00ffff12340000401136a30a0000010a00000201010101010101010101010101010101010101010101010101010101010101010101010101010101";
    check_shown(&rt, rt.alloc(), &whole, ("the longest", 74, header))?;
    assert_eq!(rt; whole.wire, 65_549);
    Ok(())
}

#[test]
fn keeps_flags_and_tag_of_the_first_fragment(rt: HostRuntime) -> Result<(), Fail> {
    let tag = Some(Tag {
        tpid: 0x8100,
        tci: 5,
    });
    let mut first = frame(rt.alloc(), &fragment(0xe000, 8))?;
    first.tag = tag;
    // Bytes captured after the total length aren't data.
    first.bytes.push(0xff)?;
    let mut defrag = Defrag::new(rt.alloc());
    let early = defrag.push(frame(rt.alloc(), &fragment(1, 4))?)?.whole;
    assert!(rt; early.is_none());
    let whole = defrag.push(first)?.whole.ok_or("a whole datagram")?;
    let (header, in_order) = shown(rt.alloc(), &whole, 34)?;
    assert_eq!(rt; header.as_str(), "450000201234c000401194960a0000010a000002");
    assert!(rt; in_order && whole.tag == tag);
    Ok(())
}

/// The frames of some fragments.
fn frames_of(alloc: Global, pieces: &[Piece]) -> Result<Frames, Memory> {
    let mut frames = Frames::new(alloc);
    for piece in pieces {
        frames.push(frame(alloc, piece)?)?;
    }
    Ok(frames)
}

#[test]
fn reassembles_a_list(rt: HostRuntime) -> Result<(), Fail> {
    let pieces = [FIRST, fragment(0, 8), fragment(1, 8), FIRST];
    let out = reassemble(rt.alloc(), frames_of(rt.alloc(), &pieces)?)?;
    let lengths = (
        out.get(0).map(|frame| frame.bytes.len()),
        out.get(1).map(|frame| frame.bytes.len()),
    );
    assert_eq!(rt; (out.len(), lengths), (2, (Some(42), Some(50))));
    Ok(())
}
