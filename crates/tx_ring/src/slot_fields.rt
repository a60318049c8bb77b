//! The bytes of a slot, written and read field by field.
//!
//! A slot begins with a header of 48 bytes (`struct tpacket3_hdr` of `linux/if_packet.h`), in which
//! a transmit ring has tp_next_offset at 0, tp_snaplen at 12, tp_len at 16 and tp_status at 20; the
//! other fields are 0. After it come the bytes that were given, and zeros up to the slot's end.
ghost use Rattle.std.specs.Prelude.{◌≡◌, ◌+◌, ◌-◌, ◌≤◌, ◌++◌, length, drop, replicate, take};
ghost use Rattle.byteorder.specs.Endian.{little_bytes};
ghost use Rattle.tx_ring.specs.Slots.{SlotState, header_text, slot_text};

use byteorder::{ByteOrder, LittleEndian};

/// The size of a slot's header, and the place of its data.
pub(crate) const HEADER: usize = 48;

/// The place of tp_next_offset.
pub(crate) const NEXT_OFFSET: usize = 0;

/// The place of tp_snaplen, the number of bytes that were given.
pub(crate) const SNAPLEN: usize = 12;

/// The place of tp_len, the length of the frame.
pub(crate) const LENGTH: usize = 16;

/// The place of tp_status.
pub(crate) const STATUS: usize = 20;

/// TP_STATUS_AVAILABLE of `linux/if_packet.h`.
pub(crate) const AVAILABLE: u32 = 0;

/// TP_STATUS_SEND_REQUEST of `linux/if_packet.h`.
pub(crate) const SEND_REQUEST: u32 = 1;

/// TP_STATUS_WRONG_FORMAT of `linux/if_packet.h`.
pub(crate) const WRONG_FORMAT: u32 = 4;

/// Writes a number of four bytes at a place.
pub(crate) fn write_u32(bytes: &mut [u8], at: usize, number: u32)
    requires { at + 4 ≤ length bytes.old }
    ensures { bytes.new ≡ take at bytes.old ++ (little_bytes 4 number ++ drop (at + 4) bytes.old) }
{
    let (_, field) = bytes.split_at_mut(at);
    LittleEndian::write_u32(field, number);
}

/// Writes the header of a slot that is requested.
pub(crate) fn write_header(header: &mut [u8], next_offset: u32, asked: u32, given: u32)
    requires { length header.old ≡ 48 }
    ensures { header.new ≡ little_bytes 4 next_offset ++ (replicate 8 0 ++ (little_bytes 4 given
        ++ (little_bytes 4 asked ++ (little_bytes 4 1 ++ replicate 24 0)))) }
{
    header.fill(0);
    write_u32(header, NEXT_OFFSET, next_offset);
    write_u32(header, SNAPLEN, given);
    write_u32(header, LENGTH, asked);
    write_u32(header, STATUS, SEND_REQUEST);
}

/// Writes bytes, and zeros after them, to a place that has zeros after its first `earlier` bytes.
/// So zeros are written only over those earlier bytes that come after the new ones.
#[tactic(auto, using(crate::proofs::Texts::stale_zeros))]
pub(crate) fn write_data(place: &mut [u8], from: &[u8], earlier: usize)
    requires fits { length from.now ≤ length place.old }
    requires within { earlier ≤ length place.old }
    requires zeros { drop earlier place.old ≡ replicate (length place.old - earlier) 0 }
    ensures { place.new ≡ from.now ++ replicate (length place.old - length from.now) 0 }
{
    let (front, rest) = place.split_at_mut(from.len());
    front.copy_from_slice(from);
    let (stale, _) = rest.split_at_mut(earlier.saturating_sub(from.len()));
    stale.fill(0);
}
