//! The tests of a slot, in the order in which their faults are reported.
ghost use Rattle.std.specs.Prelude.{◌≡◌, ◌+◌, ◌-◌, ◌≤◌, ◌&&◌, nat_le, IfOk, length};
ghost use Rattle.slot_layout.specs.SlotFaults.{is_slot_status, slot_head_fault, slot_text_fault};
ghost use Rattle.slot_layout.specs.SlotFaults.{slot_vlan_fault};
ghost use Rattle.tp_layout.specs.Checks.{told};
ghost use Rattle.tp_layout.specs.Rows.{number_at};

use crate::numbers::{LAST_NANOSECOND, MAC, NET};
use crate::packet_fields::vlan_fields;
use crate::slot_reads::tag_at;
use tp_layout::fields::{u16_at, u32_at};
use tp_layout::link_addresses::check_link_address;
use tp_layout::{LayoutError, LayoutKind, Shape, check_zeros, tpid_may};

/// Tests everything before a slot's data.
#[tactic(auto, unfolding(crate::specs::SlotFaults::slot_text_fault))]
pub(crate) fn check_fields(bytes: &[u8], shape: &Shape) -> Result<(), LayoutError>
    requires { length bytes.now ≡ shape.now.frame_size }
    ensures fault { told result ≡ slot_text_fault shape.now bytes.now }
    ensures snap { IfOk result (λ _. 66 + number_at 4 8 bytes.now ≤ length bytes.now) }
{
    check_head(bytes, shape)?;
    check_vlan(bytes)?;
    check_zeros(bytes, 0, 28, 32)?;
    check_link_address(bytes, 0, 32)?;
    check_zeros(bytes, 0, 50, 66)
}

/// Tests the fields of `struct tpacket2_hdr` whose faults come first: tp_status, tp_snaplen,
/// tp_mac, tp_net, tp_nsec.
#[tactic(auto, unfolding(crate::specs::SlotFaults::slot_head_fault))]
fn check_head(bytes: &[u8], shape: &Shape) -> Result<(), LayoutError>
    requires { length bytes.now ≡ shape.now.frame_size }
    ensures fault { told result ≡ slot_head_fault shape.now bytes.now }
    ensures header { 66 ≤ length bytes.now }
    ensures snap { IfOk result (λ _. 66 + number_at 4 8 bytes.now ≤ length bytes.now) }
{
    let size = shape.frame_size();
    if !is_status(u32_at(bytes, 0)) {
        return Err(LayoutError::new(LayoutKind::Field, 0));
    }
    if !snap_may(u32_at(bytes, 8), u32_at(bytes, 4), size) {
        return Err(LayoutError::new(LayoutKind::Snap, 8));
    }
    if u16_at(bytes, 12) != MAC {
        return Err(LayoutError::new(LayoutKind::Offset, 12));
    }
    if u16_at(bytes, 14) != NET {
        return Err(LayoutError::new(LayoutKind::Offset, 14));
    }
    if u32_at(bytes, 20) > LAST_NANOSECOND {
        return Err(LayoutError::new(LayoutKind::Field, 20));
    }
    Ok(())
}

/// Whether a filled slot may have this status: TP_STATUS_USER (1), alone or with TP_STATUS_LOSING
/// (4), with TP_STATUS_VLAN_VALID and TP_STATUS_VLAN_TPID_VALID (80), or with all of them.
fn is_status(status: u32) -> bool
    ensures { result ≡ is_slot_status status }
{
    status == 1 || status == 5 || status == 81 || status == 85
}

/// Whether a snap length is at least 1 and at most the wire length, and the data ends within a slot
/// of `size` bytes.
fn snap_may(snap: u32, wire: u32, size: u32) -> bool
    requires { 66 ≤ size }
    ensures { result ≡ (nat_le 1 snap && nat_le snap wire && nat_le snap (size - 66)) }
{
    snap >= 1 && snap <= wire && snap <= size - 66
}

/// Tests tp_vlan_tci and tp_vlan_tpid.
#[tactic(auto, unfolding(crate::specs::SlotFaults::slot_vlan_fault))]
fn check_vlan(bytes: &[u8]) -> Result<(), LayoutError>
    requires { 66 ≤ length bytes.now }
    ensures { told result ≡ slot_vlan_fault bytes.now }
{
    let tag = tag_at(bytes);
    let (tci, tpid) = vlan_fields(tag);
    if u16_at(bytes, 24) != tci {
        return Err(LayoutError::new(LayoutKind::Field, 24));
    }
    if u16_at(bytes, 26) != tpid || !tpid_may(tag) {
        return Err(LayoutError::new(LayoutKind::Field, 26));
    }
    Ok(())
}
