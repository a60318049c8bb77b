//! Frames of fragments from 10.0.0.1 to 10.0.0.2, and the results of pushing them.
use frame_view::{ByteList, Frame, Memory};
use ip_defrag::Defrag;
use std::alloc::Global;

/// The fields of a fragment, and when it came.
#[derive(Clone, Copy)]
pub(crate) struct Piece {
    pub index: u32,
    pub sec: u32,
    pub ident: u16,
    pub protocol: u8,
    pub ttl: u8,
    /// The length of its options in words of four bytes, all of them no-operation.
    pub options: u8,
    /// The flags and the offset in units of eight bytes.
    pub place: u16,
    /// The length of its data.
    pub len: u16,
    /// What is added to the place of each byte to get its value.
    pub salt: u8,
}

/// More fragments follow.
pub(crate) const MORE: u16 = 0x2000;

/// The first eight bytes of a datagram.
pub(crate) const FIRST: Piece = Piece {
    index: 0,
    sec: 100,
    ident: 0x1234,
    protocol: 17,
    ttl: 64,
    options: 0,
    place: MORE,
    len: 8,
    salt: 0,
};

/// A fragment of the same datagram with flags and offset, and a length.
pub(crate) const fn fragment(place: u16, len: u16) -> Piece {
    Piece {
        place,
        len,
        ..FIRST
    }
}

/// The bytes at some places: each place modulo 251, plus the salt.
pub(crate) fn data(alloc: Global, from: u16, len: u16, salt: u8) -> Result<Vec<u8>, Memory> {
    let mut bytes = Vec::new(alloc);
    for place in from..from.saturating_add(len) {
        bytes.push(((place % 251) as u8).wrapping_add(salt))?;
    }
    Ok(bytes)
}

/// The link header and the IPv4 header of a fragment, without options.
fn headers(alloc: Global, piece: &Piece, header: u16) -> Result<Vec<u8>, Memory> {
    let mut bytes = Vec::new(alloc);
    bytes.extend_from_slice(&[2, 0, 0, 0, 0, 2, 2, 0, 0, 0, 0, 1, 8, 0])?;
    bytes.extend_from_slice(&[0x40_u8.wrapping_add((header / 4 % 16) as u8), 0])?;
    bytes.extend_from_slice(&header.wrapping_add(piece.len).to_be_bytes())?;
    bytes.extend_from_slice(&piece.ident.to_be_bytes())?;
    bytes.extend_from_slice(&piece.place.to_be_bytes())?;
    bytes.extend_from_slice(&[piece.ttl, piece.protocol, 0, 0, 10, 0, 0, 1, 10, 0, 0, 2])?;
    Ok(bytes)
}

/// The bytes of a fragment's frame.
fn bytes_of(alloc: Global, piece: &Piece) -> Result<Vec<u8>, Memory> {
    let words = u16::from(piece.options % 11);
    let mut bytes = headers(alloc, piece, 20 + 4 * words)?;
    for _ in 0..words {
        bytes.extend_from_slice(&[1; 4])?;
    }
    let from = (piece.place % 0x2000).wrapping_mul(8);
    bytes.extend_from_slice(&data(alloc, from, piece.len, piece.salt)?)?;
    Ok(bytes)
}

/// The frame of a fragment.
pub(crate) fn frame(alloc: Global, piece: &Piece) -> Result<Frame, Memory> {
    Ok(Frame {
        cpu: 3,
        index: piece.index,
        sec: piece.sec,
        nsec: piece.index % 1000,
        wire: 65_549,
        bytes: ByteList::from_vec(bytes_of(alloc, piece)?),
        tag: None,
    })
}

/// Pushes some fragments, one after another: what the last one gives, and how many were given up in
/// all.
fn push_all(
    alloc: Global,
    defrag: &mut Defrag,
    pieces: &[Piece],
) -> Result<(Option<Frame>, u32), Memory> {
    let mut whole = None;
    let mut discarded = 0_u32;
    for piece in pieces {
        let step = defrag.push(frame(alloc, piece)?)?;
        whole = step.whole;
        discarded = discarded.saturating_add(step.discarded);
    }
    Ok((whole, discarded))
}

/// The result of some fragments, one after another: what the last one gives, how many were given up
/// in all, and how many are held.
pub(crate) fn pushed(alloc: Global, pieces: &[Piece]) -> Result<(Option<Frame>, u32, u32), Memory> {
    let mut defrag = Defrag::new(alloc);
    let (whole, discarded) = push_all(alloc, &mut defrag, pieces)?;
    Ok((whole, discarded, defrag.pending()))
}
