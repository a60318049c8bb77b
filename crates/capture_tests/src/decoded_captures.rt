//! A decoder that is fed a capture in pieces, and the output file of the frames that it gives.
ghost use Rattle.std.specs.Prelude.{◌≡◌, IfOk};

use capture_file::{CaptureError, Decoder, pcap_text};
use frame_view::{ByteList, Frame, Frames, Memory, Packet, Packets};
use std::alloc::Global;

/// What a feed or the end returns.
pub(crate) type Answer = Result<(), CaptureError>;

/// Feeds a capture in pieces of a size. It returns the answers of the last feed and of the end, and
/// how many bytes are kept.
pub(crate) fn decode(
    alloc: Global,
    bytes: &[u8],
    size: usize,
    into: &mut Frames,
) -> (Answer, Answer, u32) {
    let mut decoder = Decoder::new(alloc, 3);
    let mut fed = Ok(());
    for piece in bytes.chunks(size.max(1)) {
        fed = decoder.feed(piece, into);
    }
    (fed, decoder.end(), decoder.rest())
}

/// The packet that a frame would become.
fn packet_of(alloc: Global, frame: &Frame) -> Result<Packet, Memory>
    ensures { IfOk result (λ packet. packet.bytes ≡ frame.now.bytes) }
{
    Ok(Packet {
        sec: frame.sec,
        nsec: frame.nsec,
        wire: frame.wire,
        rxhash: 7,
        protocol: 8,
        pkttype: 1,
        addr: [9; 6],
        bytes: ByteList::from_vec(frame.bytes.as_slice().to_vec(alloc)?),
        tag: None,
    })
}

/// The output file of short frames as packets.
pub(crate) fn text_of(alloc: Global, frames: &Frames) -> Result<ByteList, Memory> {
    let mut packets = Packets::new(alloc);
    for frame in frames.as_slice() {
        if frame.bytes.len() < 1_000 {
            packets.push(packet_of(alloc, frame)?)?;
        }
    }
    pcap_text(alloc, &packets)
}
