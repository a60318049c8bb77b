//! The bytes of a dump, in one piece.
use frame_view::Memory;
use reader_walk::Dump;
use std::alloc::Global;

/// The bytes of a dump.
pub(crate) fn bytes_of(alloc: Global, dump: &Dump) -> Result<Vec<u8>, Memory> {
    let (pieces, last) = dump.pieces();
    let mut bytes = Vec::new(alloc);
    for piece in pieces {
        bytes.extend_from_slice(piece)?;
    }
    bytes.extend_from_slice(last)?;
    Ok(bytes)
}
