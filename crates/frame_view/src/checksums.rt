//! The Internet checksum of a header (RFC 1071).
ghost use Rattle.std.specs.Prelude.{◌≡◌, ◌+◌, ◌/◌, ◌%◌, ◌^◌, ◌≤◌, length};
ghost use Rattle.frame_view.specs.InternetChecksum.{checksum_of};

use crate::numbers::u16_at;

/// The Internet checksum of a header (RFC 1071): the ones' complement of the ones' complement sum
/// of its words of 16 bits.
#[tactic(auto, using(crate::proofs::Words::words))]
pub fn checksum(header: &[u8]) -> u16
    requires even { length header.now % 2 ≡ 0 }
    requires short { length header.now ≤ 65535 }
    ensures { result ≡ checksum_of header.now }
{
    let mut sum = 0_u32;
    for word in 0..header.len() / 2 {
        sum += u32::from(u16_at(header, 2 * word));
    }
    !(fold(fold(sum)) as u16)
}

/// Adds what is above 16 bits to what is below.
fn fold(sum: u32) -> u32
    ensures { result ≡ sum / 2 ^ 16 + sum % 2 ^ 16 }
{
    (sum >> 16) + (sum & 0xffff)
}
