//! The header of a capture, and how the numbers after it are read (pcap 2.4).
ghost use Rattle.std.specs.Prelude.{◌≡◌, ◌≤◌, length};
ghost use Rattle.capture_file.specs.Pcap.{header_of, format_in, unit_of};

use crate::CaptureError;
use pcapng_blocks::Order;

/// The number of bytes of a capture's header.
pub(crate) const HEADER_SIZE: usize = 24;

/// The magic of a capture with microseconds.
const MICROSECONDS: u32 = 0xa1b2_c3d4;

/// The magic of a capture with nanoseconds.
const NANOSECONDS: u32 = 0xa1b2_3c4d;

/// LINKTYPE_ETHERNET of the registry of link types, in the low 16 bits of the link field.
const ETHERNET: u32 = 1;

/// How the numbers of a capture are read.
#[derive(Clone, Copy, Debug)]
pub(crate) struct Format {
    /// The byte order of all fields.
    pub order: Order,
    /// The nanoseconds of one unit of a fraction of a second: 1000 or 1.
    pub unit: u32,
}

/// What a header says. Magic, version and link type are tested in this order.
#[tactic(auto, unfolding(crate::specs::Pcap::header_of))]
pub(crate) fn read_header(bytes: &[u8]) -> Result<Format, CaptureError>
    requires { 24 ≤ length bytes.now }
    ensures { result ≡ header_of bytes.now }
{
    let format = format_in(Order::Little, bytes).or(format_in(Order::Big, bytes));
    let Some(format) = format else {
        return Err(CaptureError::BadMagic);
    };
    let order = format.order;
    if order.u16_at(bytes, 4) != 2 || order.u16_at(bytes, 6) != 4 {
        return Err(CaptureError::BadVersion);
    }
    let link = order.u32_at(bytes, 20);
    if link % 65536 != ETHERNET {
        return Err(CaptureError::BadLink(link));
    }
    Ok(format)
}

/// The format of a magic number that is in this byte order.
fn format_in(order: Order, bytes: &[u8]) -> Option<Format>
    requires { 24 ≤ length bytes.now }
    ensures { result ≡ format_in order bytes.now }
{
    let unit = unit_of(order.u32_at(bytes, 0))?;
    Some(Format { order, unit })
}

/// The nanoseconds of one unit of a fraction, by the magic.
fn unit_of(magic: u32) -> Option<u32>
    ensures { result ≡ unit_of magic }
{
    match magic {
        MICROSECONDS => Some(1000),
        NANOSECONDS => Some(1),
        _ => None,
    }
}
