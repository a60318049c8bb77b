//! Numbers and bytes at a place of some bytes, written and read.
ghost use Rattle.std.specs.Prelude.{◌≡◌, ◌+◌, ◌^◌, ◌<◌, ◌≤◌, ℕ, length, replicate, slice_index};
ghost use Rattle.byteorder.specs.Endian.{big_bytes, little_bytes};
ghost use Rattle.tp_layout.specs.Rows.{network_at, number_at};
ghost use Rattle.tp_layout.specs.BlockWrites.{put};

use byteorder::{BigEndian, ByteOrder, LittleEndian};

/// Writes bytes over those from a place on.
pub fn put_bytes(bytes: &mut [u8], at: usize, from: &[u8])
    requires { at + length from.now ≤ length bytes.old }
    ensures written { bytes.new ≡ put at from.now bytes.old }
    ensures typed { (i : ℕ) → slice_index from.now i < 256 }
{
    let (_, rest) = bytes.split_at_mut(at);
    let (place, _) = rest.split_at_mut(from.len());
    place.copy_from_slice(from);
}

/// Writes zeros over `count` bytes from a place on.
pub fn put_zeros(bytes: &mut [u8], at: usize, count: usize)
    requires { at + count ≤ length bytes.old }
    ensures { bytes.new ≡ put at (replicate count 0) bytes.old }
{
    let (_, rest) = bytes.split_at_mut(at);
    let (place, _) = rest.split_at_mut(count);
    place.fill(0);
}

/// Writes a number of two bytes at a place.
pub fn put_u16(bytes: &mut [u8], at: usize, number: u16)
    requires { at + 2 ≤ length bytes.old }
    ensures { bytes.new ≡ put at (little_bytes 2 number) bytes.old }
{
    let (_, field) = bytes.split_at_mut(at);
    LittleEndian::write_u16(field, number);
}

/// Writes a number of two bytes at a place, in network order.
pub fn put_network_u16(bytes: &mut [u8], at: usize, number: u16)
    requires { at + 2 ≤ length bytes.old }
    ensures { bytes.new ≡ put at (big_bytes 2 number) bytes.old }
{
    let (_, field) = bytes.split_at_mut(at);
    BigEndian::write_u16(field, number);
}

/// Writes a number of four bytes at a place.
pub fn put_u32(bytes: &mut [u8], at: usize, number: u32)
    requires { at + 4 ≤ length bytes.old }
    ensures written { bytes.new ≡ put at (little_bytes 4 number) bytes.old }
    ensures typed { number < 2 ^ 32 }
{
    let (_, field) = bytes.split_at_mut(at);
    LittleEndian::write_u32(field, number);
}

/// Writes a number of eight bytes at a place.
pub fn put_u64(bytes: &mut [u8], at: usize, number: u64)
    requires { at + 8 ≤ length bytes.old }
    ensures { bytes.new ≡ put at (little_bytes 8 number) bytes.old }
{
    let (_, field) = bytes.split_at_mut(at);
    LittleEndian::write_u64(field, number);
}

/// The number in the two bytes from a place.
#[tactic(auto, unfolding(crate::specs::Rows::number_at))]
pub fn u16_at(bytes: &[u8], at: usize) -> u16
    requires { at + 2 ≤ length bytes.now }
    ensures { result ≡ number_at 2 at bytes.now }
{
    let (_, field) = bytes.split_at(at);
    LittleEndian::read_u16(field)
}

/// The number in the two bytes from a place, in network order.
#[tactic(auto, unfolding(crate::specs::Rows::network_at))]
pub fn network_u16_at(bytes: &[u8], at: usize) -> u16
    requires { at + 2 ≤ length bytes.now }
    ensures { result ≡ network_at 2 at bytes.now }
{
    let (_, field) = bytes.split_at(at);
    BigEndian::read_u16(field)
}

/// The number in the four bytes from a place.
#[tactic(auto, unfolding(crate::specs::Rows::number_at))]
pub fn u32_at(bytes: &[u8], at: usize) -> u32
    requires { at + 4 ≤ length bytes.now }
    ensures { result ≡ number_at 4 at bytes.now }
{
    let (_, field) = bytes.split_at(at);
    LittleEndian::read_u32(field)
}

/// The number in the eight bytes from a place.
#[tactic(auto, unfolding(crate::specs::Rows::number_at))]
pub fn u64_at(bytes: &[u8], at: usize) -> u64
    requires { at + 8 ≤ length bytes.now }
    ensures { result ≡ number_at 8 at bytes.now }
{
    let (_, field) = bytes.split_at(at);
    LittleEndian::read_u64(field)
}

/// The number in the byte at a place.
#[tactic(auto, unfolding(crate::specs::Rows::number_at))]
pub fn u8_at(bytes: &[u8], at: usize) -> u8
    requires { at + 1 ≤ length bytes.now }
    ensures { result ≡ number_at 1 at bytes.now }
{
    bytes[at]
}
