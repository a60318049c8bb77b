//! Numbers in network order, the high byte first, read from a place in some bytes.
ghost use Rattle.std.specs.Prelude.{◌≡◌, ◌+◌, ◌<◌, length};
ghost use Rattle.frame_view.specs.Numbers.{u16_at, u32_at, u64_at, u128_at};

/// The number in two bytes.
pub(crate) fn u16_at(bytes: &[u8], at: usize) -> u16
    requires { at + 1 < length bytes.now }
    ensures { result ≡ u16_at at bytes.now }
{
    u16::from_be_bytes([bytes[at], bytes[at + 1]])
}

/// The number in four bytes.
pub(crate) fn u32_at(bytes: &[u8], at: usize) -> u32
    requires { at + 3 < length bytes.now }
    ensures { result ≡ u32_at at bytes.now }
{
    (u32::from(u16_at(bytes, at)) << 16) + u32::from(u16_at(bytes, at + 2))
}

/// The number in eight bytes.
fn u64_at(bytes: &[u8], at: usize) -> u64
    requires { at + 7 < length bytes.now }
    ensures { result ≡ u64_at at bytes.now }
{
    (u64::from(u32_at(bytes, at)) << 32) + u64::from(u32_at(bytes, at + 4))
}

/// The number in sixteen bytes.
pub(crate) fn u128_at(bytes: &[u8], at: usize) -> u128
    requires { at + 15 < length bytes.now }
    ensures { result ≡ u128_at at bytes.now }
{
    (u128::from(u64_at(bytes, at)) << 64) + u128::from(u64_at(bytes, at + 8))
}
