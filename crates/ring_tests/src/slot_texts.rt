//! Slots that are written and read, with a tag and without.
ghost use Rattle.std.specs.Prelude.{◌≡◌, ◌≤◌, IfOk};
ghost use Rattle.slot_layout.specs.SlotShapes.{IsSlotShape};

use crate::sample_slots::{FRAME, HEADER, TAG, frame_offered, sample_shape};
use frame_view::{Memory, Tag};
use slot_layout::{Slot, read_slot, slots, write_slot};
use std::alloc::Global;
use std::test::Fail;
use tp_layout::{PacketRef, Shape};

/// A slot of this shape with that frame, and the status that was reported.
pub(crate) fn filled(
    alloc: Global,
    shape: &Shape,
    tagged: bool,
    losing: bool,
) -> Result<(Slot, u32), Memory>
    requires checked { IsSlotShape shape.now }
    requires room { 80 ≤ shape.now.frame_size }
    ensures { IfOk result (λ filled. filled.0.shape ≡ shape.now) }
{
    let mut slot = one_slot(alloc, shape)?;
    let offer = frame_offered(alloc, tagged)?;
    let mut room = Vec::with_capacity(alloc, shape.frame_size() as usize)?;
    let status = write_slot(&mut slot, &mut room, &offer, losing);
    Ok((slot, status))
}

/// A slot of this shape.
fn one_slot(alloc: Global, shape: &Shape) -> Result<Slot, Memory>
    requires { IsSlotShape shape.now }
    ensures { IfOk result (λ slot. slot.shape ≡ shape.now) }
{
    let mut all = slots(alloc, shape)?;
    match all.pop() {
        Some(slot) => Ok(slot),
        None => Err(Memory),
    }
}

/// The bytes that a slot with that frame begins with, with this status and, if it has a tag,
/// VLAN 100.
fn expected(alloc: Global, status: u8, tagged: bool) -> Result<Vec<u8>, Memory> {
    let mut bytes = HEADER.to_vec(alloc)?;
    bytes.extend_from_slice(&FRAME)?;
    if let Some(byte) = bytes.get_mut(0) {
        *byte = status;
    }
    if tagged {
        if let Some(byte) = bytes.get_mut(24) {
            *byte = 100;
        }
        if let Some(byte) = bytes.get_mut(27) {
            *byte = 0x81;
        }
    }
    Ok(bytes)
}

/// Whether a packet is that frame, with this tag and no hash.
fn is_that_packet(packet: &PacketRef<'_>, tag: Option<Tag>) -> bool {
    (packet.sec, packet.nsec, packet.wire, packet.rxhash) == (1, 2_000, 14, 0)
        && (packet.protocol, packet.pkttype, packet.tag) == (0x0806, 1, tag)
        && packet.addr == [2, 0, 0, 0, 0, 1]
        && packet.bytes == FRAME.as_slice()
}

/// What is read from a slot with that frame: its status, whether it begins with these bytes, and
/// whether its packet is that frame.
fn seen(
    alloc: Global,
    shape: &Shape,
    tagged: bool,
    losing: bool,
    bytes: &[u8],
) -> Result<(u32, bool, bool), Memory>
    requires checked { IsSlotShape shape.now }
    requires room { 80 ≤ shape.now.frame_size }
{
    let (slot, status) = filled(alloc, shape, tagged, losing)?;
    let tag = if tagged { Some(TAG) } else { None };
    let is_read = match read_slot(slot.bytes(), shape) {
        Ok(packet) => is_that_packet(&packet, tag),
        Err(_) => false,
    };
    Ok((status, slot.bytes().starts_with(bytes), is_read))
}

#[test]
fn a_slot_is_read_as_it_was_written(rt: HostRuntime) -> Result<(), Fail> {
    let alloc = rt.alloc();
    let shape = sample_shape()?;
    // whether it has a tag, whether packets were lost, and the status
    for (tagged, losing, status) in [
        (false, false, 1),
        (false, true, 5),
        (true, false, 81),
        (true, true, 85),
    ] {
        let bytes = expected(alloc, status, tagged)?;
        let seen = seen(alloc, &shape, tagged, losing, bytes.as_slice())?;
        assert_eq!(rt; seen, (u32::from(status), true, true));
    }
    Ok(())
}
