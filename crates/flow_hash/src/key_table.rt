//! The table of a key: what each half of a byte adds to the hash, at each place of the input.
ghost use Rattle.std.specs.Prelude.{◌≡◌, ◌+◌, ◌-◌, ◌*◌, ◌/◌, ◌%◌, ◌^◌, ◌≤◌, ◌<◌, ◌==◌, IfOk};
ghost use Rattle.std.specs.Prelude.{if◌then◌else◌, length, take};
ghost use Rattle.std.specs.Int.{bit_at};
ghost use Rattle.flow_hash.specs.Toeplitz.{toeplitz_of, bits_of, bits_of_byte, number_of};
ghost use Rattle.flow_hash.specs.inside.KeyTable.{half_byte, entry_of, table_of};

use frame_view::Memory;
use std::alloc::Global;

/// The number of entries: 32 for each of the 36 places that a byte of the input can have.
const ENTRIES: usize = 36 * 32;

/// The table of a key.
#[tactic(auto, using(crate::proofs::Halves::entries))]
pub(crate) fn table_of(alloc: Global, key: &[u8]) -> Result<Vec<u32>, Memory>
    requires { length key.now ≡ 40 }
    ensures { IfOk result (λ table. table.items ≡ table_of key.now) }
{
    let mut table = Vec::with_capacity(alloc, ENTRIES)?;
    for entry in 0..ENTRIES {
        table.push(entry_of(key, entry))?;
    }
    Ok(table)
}

/// An entry of the table: what its byte adds, with the key from the byte's place on.
#[tactic(auto, unfolding(crate::specs::inside::KeyTable::entry_of))]
fn entry_of(key: &[u8], entry: usize) -> u32
    requires key { length key.now ≡ 40 }
    requires entry { entry < 1152 }
    ensures { result ≡ entry_of key.now entry }
{
    byte_share(key.split_at(entry / 32).1, half_byte((entry % 32) as u8))
}

/// The byte of an entry of a row: the first 16 have only an upper half, the others only a lower.
fn half_byte(entry: u8) -> u8
    requires { entry < 32 }
    ensures { result ≡ half_byte entry }
{
    if entry < 16 { entry * 16 } else { entry - 16 }
}

/// What one byte of the input adds, with the key from the byte's place on.
fn byte_share(key: &[u8], byte: u8) -> u32
    requires { 5 ≤ length key.now }
    ensures { result ≡ toeplitz_of (bits_of key.now) (bits_of_byte byte) }
{
    let window = window(key);
    let mut share = 0;
    for bit in 0..8 {
        share ^= bit_share(window, byte, bit);
    }
    share
}

/// What one bit of a byte adds, counted from the left: the 32 bits of the window from its place on,
/// if it is set.
fn bit_share(window: u64, byte: u8, bit: u32) -> u32
    requires { bit < 8 }
    ensures { result
        ≡ (if bit_at byte (7 - bit) == 1 then window / 2 ^ (8 - bit) % 2 ^ 32 else 0) }
{
    if (byte >> (7 - bit)) & 1 == 1 {
        ((window >> (8 - bit)) & 0xffff_ffff) as u32
    } else {
        0
    }
}

/// The first 40 bits of the key as a number: all that one byte of the input is combined with.
fn window(key: &[u8]) -> u64
    requires { 5 ≤ length key.now }
    ensures { result ≡ number_of (bits_of (take 5 key.now)) }
{
    u64::from_be_bytes([0, 0, 0, key[0], key[1], key[2], key[3], key[4]])
}
