//! The key of the Toeplitz hash, and its reading from hexadecimal digits.
ghost use Rattle.std.specs.Prelude.{◌≡◌, ◌≢◌, ◌<◌, Some, length, IfOk, drop};
ghost use Rattle.hex.specs.Hex.{decode_of};
ghost use Rattle.flow_hash.specs.HexKey.{IsHex, key_error, words_of};
ghost use Rattle.flow_hash.specs.Toeplitz.{toeplitz_of, bits_of, bits_of_byte};

use crate::key_table::table_of;
use frame_view::Memory;
use hex::FromHexError;
use std::alloc::Global;
use std::error::Error;
use std::fmt;
use std::marker::Model;

/// A key of 40 bytes. Contracts see it as the list of its bytes.
#[derive(Debug, Drop)]
pub struct Key {
    /// The bytes.
    bytes: [u8; 40],
    /// What each half of a byte adds to the hash, at each place of the input. By the invariant it
    /// is the table of these bytes.
    table: Vec<u32>,
}

impl Model for Key {
    ghost use Rattle.std.specs.Prelude.{◌≡◌, List, ℕ};
    ghost use Rattle.flow_hash.specs.inside.KeyTable.{table_of};

    ghost Value = { List ℕ };

    ghost view = { λ key. key.bytes };

    ghost invariant = { λ key. key.table.items ≡ table_of key.bytes };
}

/// Why a text isn't a key.
#[derive(Clone, Copy, Debug, PartialEq, Eq)]
pub enum KeyError {
    /// It isn't made of hexadecimal digits, or their number is odd.
    NotHex,
    /// It is an even number of digits, but not 80.
    WrongLength,
    /// An allocation failed.
    Memory,
}

impl fmt::Display for KeyError {
    ghost output = { λ error. Some (words_of error) };

    fn fmt<W: fmt::Write>(&self, f: &mut fmt::Formatter<W>) -> fmt::Result {
        match self {
            KeyError::NotHex => f.write_str("not hexadecimal digits"),
            KeyError::WrongLength => f.write_str("not 40 bytes"),
            KeyError::Memory => f.write_str("out of memory"),
        }
    }
}

impl Error for KeyError {}

impl From<FromHexError> for KeyError {
    ghost from_gives = { λ error result. result ≡ key_error error };

    fn from(error: FromHexError) -> KeyError {
        match error {
            FromHexError::OutOfMemory => KeyError::Memory,
            _ => KeyError::NotHex,
        }
    }
}

impl From<Memory> for KeyError {
    ghost use Rattle.flow_hash.specs.declared.hash_keys.KeyError.TheVariants as errors;

    ghost from_gives = { λ _ error. error ≡ errors.Memory };

    fn from(_: Memory) -> KeyError {
        KeyError::Memory
    }
}

impl Key {
    /// Reads a key of 40 bytes from 80 hexadecimal digits, in either case, and makes its table:
    /// 4,608 bytes more, which are allocated.
    pub fn from_hex(alloc: Global, text: &[u8]) -> Result<Key, KeyError>
        ensures key { IfOk result (λ key. decode_of text.now ≡ Ok key) }
        ensures len { IfOk result (λ key. length key ≡ 40) }
        ensures not_hex { result ≡ Err KeyError.NotHex → ¬ IsHex text.now }
        ensures wrong_length { result ≡ Err KeyError.WrongLength
            → IsHex text.now × (length text.now ≢ 80) }
    {
        let bytes = hex::decode(alloc, text)?;
        match <[u8; 40]>::try_from(bytes.as_slice()) {
            Ok(bytes) => Ok(Key::new(alloc, bytes)?),
            Err(_) => Err(KeyError::WrongLength),
        }
    }

    /// The key of these bytes.
    fn new(alloc: Global, bytes: [u8; 40]) -> Result<Key, Memory>
        ensures { IfOk result (λ key. key ≡ bytes) }
    {
        let table = table_of(alloc, &bytes)?;
        Ok(Key { bytes, table })
    }

    /// What one byte of the input adds to the hash at its place: the entries of its two halves.
    #[tactic(auto, using(crate::proofs::Halves::halves))]
    pub(crate) fn share(&self, place: usize, byte: u8) -> u32
        requires { place < 36 }
        ensures { result ≡ toeplitz_of (bits_of (drop place self.now)) (bits_of_byte byte) }
    {
        let (row, byte) = (32 * place, usize::from(byte));
        let upper = self.table[row + byte / 16];
        let lower = self.table[row + 16 + byte % 16];
        upper ^ lower
    }
}
