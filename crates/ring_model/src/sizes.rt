//! The room that a packet takes in a block, and when a block's time is over.
ghost use Rattle.std.specs.Prelude.{◌≡◌, ◌≤◌, ◌↔◌, IsTrue};
ghost use Rattle.ring_model.specs.Sizes.{need_of};

/// The distance of a packet's data from the packet's place: TPACKET3_HDRLEN (68 bytes of
/// `linux/if_packet.h`) and a gap of 14. The place is this project's own choice.
pub const PACKET_HEADER: u32 = 82;

/// The bytes that a packet takes in a block: its header and its data, rounded up to 8 together.
pub fn need(snap: u32) -> u32
    requires { snap ≤ 1048576 }
    ensures { result ≡ need_of snap }
{
    (PACKET_HEADER + snap + 7) / 8 * 8
}

/// Whether a deadline is reached at a moment, both in milliseconds.
pub fn due(deadline: u64, ms: u64) -> bool
    ensures { IsTrue result ↔ (deadline ≤ ms) }
{
    deadline <= ms
}
