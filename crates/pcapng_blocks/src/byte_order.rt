//! How the numbers of a capture are read.
ghost use Rattle.std.specs.Prelude.{◌≡◌, ◌+◌, ◌≤◌, length};
ghost use Rattle.pcapng_blocks.specs.Numbers.{number_at};

use byteorder::{BigEndian, ByteOrder, LittleEndian};

/// The order of the bytes of a number.
#[derive(Clone, Copy, Debug, PartialEq, Eq)]
pub enum Order {
    /// The lowest byte first.
    Little,
    /// The highest byte first.
    Big,
}

impl Order {
    /// The number in the four bytes from a place.
    #[tactic(auto, unfolding(crate::specs::Numbers::number_at))]
    pub fn u32_at(self, bytes: &[u8], at: usize) -> u32
        requires { at + 4 ≤ length bytes.now }
        ensures { result ≡ number_at self 4 at bytes.now }
    {
        let (_, field) = bytes.split_at(at);
        match self {
            Order::Little => LittleEndian::read_u32(field),
            Order::Big => BigEndian::read_u32(field),
        }
    }

    /// The number in the two bytes from a place.
    #[tactic(auto, unfolding(crate::specs::Numbers::number_at))]
    pub fn u16_at(self, bytes: &[u8], at: usize) -> u16
        requires { at + 2 ≤ length bytes.now }
        ensures { result ≡ number_at self 2 at bytes.now }
    {
        let (_, field) = bytes.split_at(at);
        match self {
            Order::Little => LittleEndian::read_u16(field),
            Order::Big => BigEndian::read_u16(field),
        }
    }
}
