//! The header of a block, written when it is opened and when it is closed.
ghost use Rattle.std.specs.Prelude.{◌≡◌, ◌+◌, ◌≤◌, length};
ghost use Rattle.tp_layout.specs.Requests.{first_of};
ghost use Rattle.tp_layout.specs.BlockWrites.{closed, closing_times, open_header, put};
ghost use Rattle.tp_layout.specs.declared.requests.RingRequest.{RingRequest};

use crate::Closing;
use crate::fields::{put_u32, put_u64, put_zeros};
use crate::numbers::{DESCRIPTOR, VERSION};

/// Writes the header of a block without packets, and zeros up to the place of the first packet.
pub(crate) fn put_empty(bytes: &mut [u8], first: u32, number: u64)
    requires order { 48 ≤ first }
    requires fits { first ≤ length bytes.old }
    ensures { (shape : RingRequest) → first ≡ first_of shape
        → bytes.new ≡ put 0 (open_header shape number) bytes.old }
{
    put_u32(bytes, 0, VERSION);
    put_u32(bytes, 4, DESCRIPTOR);
    put_u32(bytes, 8, 0);
    put_u32(bytes, 12, 0);
    put_u32(bytes, 16, first);
    put_u32(bytes, 20, first);
    put_u64(bytes, 24, number);
    put_zeros(bytes, 32, first as usize - 32);
}

/// Writes the fields of the descriptor that are known at the end of a block, and that no packet
/// follows the last one.
#[tactic(auto, unfolding(crate::specs::BlockWrites::closed))]
pub(crate) fn put_closing(bytes: &mut [u8], closing: &Closing)
    requires behind { 48 ≤ closing.now.last_at }
    requires fits { closing.now.last_at + 4 ≤ length bytes.old }
    ensures { bytes.new ≡ closed closing.now bytes.old }
{
    put_u32(bytes, 8, closing.status);
    put_u32(bytes, 12, closing.packets);
    put_u32(bytes, 20, closing.length);
    put_times(bytes, closing);
    put_u32(bytes, closing.last_at as usize, 0);
}

/// Writes the times of the first packet and of the last.
fn put_times(bytes: &mut [u8], closing: &Closing)
    requires { 48 ≤ length bytes.old }
    ensures { bytes.new ≡ put 32 (closing_times closing.now) bytes.old }
{
    put_u32(bytes, 32, closing.first_sec);
    put_u32(bytes, 36, closing.first_nsec);
    put_u32(bytes, 40, closing.last_sec);
    put_u32(bytes, 44, closing.last_nsec);
}
