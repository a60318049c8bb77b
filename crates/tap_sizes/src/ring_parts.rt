//! What the rings of a setup are made of.
ghost use Rattle.std.specs.Prelude.{◌≡◌, ◌<◌, ◌≤◌, true};
ghost use Rattle.slot_layout.specs.SlotShapes.{IsSlotShape};
ghost use Rattle.tap_sizes.specs.RingParts.{parts_of};

use run_reports::RingKind;
use slot_layout::a_checked_ring_is_bounded;
use tp_layout::{Shape, a_shape_is_sound};

/// By how many bytes the room of a block that keeps as much of a packet is longer than a slot: a
/// packet's data follow 82 bytes there and 66 in a slot.
const NEARER: u32 = 16;

/// What the rings of a setup are made of.
#[derive(Clone, Copy)]
pub(crate) struct RingParts {
    /// Blocks or slots.
    pub kind: RingKind,
    /// The bytes of each.
    pub size: u32,
    /// The bytes of a block that are for packets, or of one that keeps as much of a packet as a
    /// slot.
    pub room: u32,
    /// How many of them the setup's own ring has.
    pub count: u32,
}

/// What the rings of a shape are made of: slots, or else blocks.
pub(crate) fn parts_of(shape: &Shape, slots: bool) -> RingParts
    requires { slots ≡ true → IsSlotShape shape.now }
    ensures parts { result ≡ parts_of slots shape.now }
    ensures some { 82 < result.room }
    ensures few { result.room ≤ 1048592 }
{
    a_shape_is_sound(shape);
    if slots {
        return slot_parts(shape);
    }
    RingParts {
        kind: RingKind::Blocks,
        size: shape.block_size(),
        room: shape.room(),
        count: shape.block_nr(),
    }
}

/// The slots of a shape of TPACKET_V2.
fn slot_parts(shape: &Shape) -> RingParts
    requires { IsSlotShape shape.now }
    ensures parts { result ≡ parts_of true shape.now }
    ensures some { 82 < result.room }
    ensures few { result.room ≤ 1048592 }
{
    a_checked_ring_is_bounded();
    let size = shape.frame_size();
    RingParts {
        kind: RingKind::Slots,
        size,
        room: size + NEARER,
        count: shape.frame_nr(),
    }
}
