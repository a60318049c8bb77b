//! A slot with each of its bytes changed in turn.
ghost use Rattle.std.specs.Prelude.{◌≡◌, ◌≤◌, length};
ghost use Rattle.slot_layout.specs.SlotShapes.{IsSlotShape};

use crate::sample_slots::sample_shape;
use crate::slot_texts::filled;
use frame_view::Memory;
use slot_layout::read_slot;
use std::alloc::Global;
use std::process::Abort;
use std::test::Fail;
use tp_layout::{LayoutKind, Shape};

/// A fault with its place.
type Fault = Option<(LayoutKind, u32)>;

/// The fault of a slot whose byte at this place was changed by xor with 1; the frame's length is
/// 14, its nanoseconds are 2,000 and its packet type is 1. The tag's fields are tested separately.
fn fault_at(place: u32) -> Fault {
    match place {
        0..=3 => Some((LayoutKind::Field, 0)),
        8..=11 => Some((LayoutKind::Snap, 8)),
        12..=13 => Some((LayoutKind::Offset, 12)),
        14..=15 => Some((LayoutKind::Offset, 14)),
        32..=33 => Some((LayoutKind::Field, 32)),
        36..=39 => Some((LayoutKind::Field, 36)),
        40..=41 => Some((LayoutKind::Field, 40)),
        28..=31 | 43 | 50..=65 => Some((LayoutKind::Field, place)),
        _ => None,
    }
}

/// The same, with the fields of the tag: they are 0 in a slot without a tag; with one the control
/// information is free.
fn fault_with_tag(place: u32, tagged: bool) -> Fault {
    match place {
        24..=25 => {
            if tagged {
                None
            } else {
                Some((LayoutKind::Field, 24))
            }
        }
        26..=27 => Some((LayoutKind::Field, 26)),
        _ => fault_at(place),
    }
}

/// The fault of these bytes with one changed by xor with 1.
fn changed(alloc: Global, shape: &Shape, slot: &[u8], place: u32) -> Result<Fault, Memory>
    requires { length slot.now ≡ shape.now.frame_size }
{
    let mut bytes = slot.to_vec(alloc)?;
    if let Some(byte) = bytes.get_mut(place as usize) {
        *byte ^= 1;
    }
    let read = read_slot(bytes.as_slice(), shape);
    Ok(read.err().map(|error| (error.kind, error.at)))
}

/// Each changed byte of a slot gives the expected fault.
fn check_bytes(
    rt: &impl Abort,
    alloc: Global,
    shape: &Shape,
    slot: &[u8],
    tagged: bool,
) -> Result<(), Memory>
    requires { length slot.now ≡ shape.now.frame_size }
{
    for place in 0..84 {
        let fault = changed(alloc, shape, slot, place)?;
        assert_eq!(rt; (place, fault), (place, fault_with_tag(place, tagged)));
    }
    Ok(())
}

/// The same for a slot that is written with a tag or without.
fn check_slot(rt: &impl Abort, alloc: Global, shape: &Shape, tagged: bool) -> Result<(), Memory>
    requires checked { IsSlotShape shape.now }
    requires room { 80 ≤ shape.now.frame_size }
{
    let (slot, _) = filled(alloc, shape, tagged, false)?;
    check_bytes(rt, alloc, shape, slot.bytes(), tagged)
}

#[test]
fn each_byte_of_a_slot_changed(rt: HostRuntime) -> Result<(), Fail> {
    let alloc = rt.alloc();
    let shape = sample_shape()?;
    check_slot(&rt, alloc, &shape, false)?;
    check_slot(&rt, alloc, &shape, true)?;
    Ok(())
}
