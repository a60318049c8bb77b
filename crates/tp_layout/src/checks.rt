//! The tests of a block, in the order in which their faults are reported.
ghost use Rattle.std.specs.Prelude.{◌≡◌, ◌+◌, ◌-◌, ◌^◌, ◌≤◌, ◌<◌, true, IfOk, length};
ghost use Rattle.tp_layout.specs.Blocks.{is_status};
ghost use Rattle.tp_layout.specs.Checks.{fits_of, fixed_tests, head_tests, header_tests};
ghost use Rattle.tp_layout.specs.Checks.{packet_tests, told};
ghost use Rattle.tp_layout.specs.Faults.{next_of, snap_may};
ghost use Rattle.tp_layout.specs.Packets.{need_at};
ghost use Rattle.tp_layout.specs.Rows.{first_fault, number_at, zeros};

use crate::fields::{u16_at, u32_at, u64_at};
use crate::link_addresses::check_link_address;
use crate::numbers::{DESCRIPTOR, LAST_NANOSECOND, MAC, NET, VERSION};
use crate::packet_refs::{tag_at, tpid_may, vlan_fields};
use crate::{LayoutError, LayoutKind, Shape};
use ring_model::need;

/// Where the packets of a block may end, in bytes.
#[derive(Clone, Copy)]
pub(crate) enum Ends {
    /// At this place or before it.
    UpTo(u32),
    /// At this place exactly.
    At(usize),
}

/// Tests the descriptor up to the times.
#[tactic(auto, unfolding(crate::specs::Checks::head_tests))]
pub(crate) fn check_head(bytes: &[u8], shape: &Shape, ends: Ends) -> Result<(), LayoutError>
    requires { 48 ≤ length bytes.now }
    ensures fault { told result ≡ head_tests (fits_of ends shape.now) shape.now bytes.now }
    ensures end { IfOk result (λ _. fits_of ends shape.now (number_at 4 20 bytes.now) ≡ true) }
    ensures some { IfOk result (λ _. 0 < number_at 4 12 bytes.now) }
{
    if u32_at(bytes, 0) != VERSION {
        return Err(LayoutError::new(LayoutKind::Version, 0));
    }
    if u32_at(bytes, 4) != DESCRIPTOR {
        return Err(LayoutError::new(LayoutKind::Offset, 4));
    }
    if !is_status(u32_at(bytes, 8)) {
        return Err(LayoutError::new(LayoutKind::Field, 8));
    }
    if u32_at(bytes, 12) == 0 {
        return Err(LayoutError::new(LayoutKind::Count, 12));
    }
    if u32_at(bytes, 16) != shape.first() {
        return Err(LayoutError::new(LayoutKind::Offset, 16));
    }
    if !ends_well(u32_at(bytes, 20), shape, ends) {
        return Err(LayoutError::new(LayoutKind::Length, 20));
    }
    if u64_at(bytes, 24) == 0 {
        return Err(LayoutError::new(LayoutKind::Field, 24));
    }
    Ok(())
}

/// Whether a retired block may have this status: TP_STATUS_USER (1), with TP_STATUS_LOSING (4),
/// TP_STATUS_BLK_TMO (32) or both.
fn is_status(status: u32) -> bool
    ensures { result ≡ is_status status }
{
    status == 1 || status == 5 || status == 33 || status == 37
}

/// Whether the packets of a block of this shape may end at this place.
fn ends_well(end: u32, shape: &Shape, ends: Ends) -> bool
    ensures { result ≡ fits_of ends shape.now end }
{
    if end % 8 != 0 || end <= shape.first() {
        return false;
    }
    match ends {
        Ends::UpTo(most) => end <= most,
        Ends::At(size) => end <= shape.block_size() && end as usize == size,
    }
}

/// Tests that the bytes from one place to another are zeros, in a header that is itself at `base`;
/// a fault is reported with its place from there.
#[tactic(auto, using(crate::proofs::Chains::zero_rules))]
pub fn check_zeros(bytes: &[u8], base: u32, from: u32, to: u32) -> Result<(), LayoutError>
    requires order { from ≤ to }
    requires within { to ≤ length bytes.now }
    requires small { base + to < 2 ^ 32 }
    ensures { told result ≡ first_fault base from (zeros from (to - from)) bytes.now }
{
    for at in from..to {
        if bytes[at as usize] != 0 {
            return Err(LayoutError::new(LayoutKind::Field, base + at));
        }
    }
    Ok(())
}

/// Tests the packet at the start of bytes that are at `at`, and reports how many of them it takes.
#[tactic(auto, unfolding(crate::specs::Checks::packet_tests))]
pub(crate) fn check_packet(bytes: &[u8], at: u32, last: bool) -> Result<u32, LayoutError>
    requires small { at + length bytes.now ≤ 1048576 }
    ensures fault { told result ≡ packet_tests last at bytes.now }
    ensures need { IfOk result (λ need. need ≡ need_at bytes.now) }
    ensures within { IfOk result (λ need. (88 ≤ length bytes.now) × (need ≤ length bytes.now)) }
{
    if bytes.len() < LEAST_PACKET {
        return Err(LayoutError::new(LayoutKind::Count, 12));
    }
    if !snap_may(bytes) {
        return Err(LayoutError::new(LayoutKind::Snap, at + 12));
    }
    let snap = u32_at(bytes, 12);
    check_fixed(bytes, at, last)?;
    check_zeros(bytes, at, 82 + snap, need(snap))?;
    Ok(need(snap))
}

/// The fewest bytes that a packet takes: a header of 82 and one byte of data, rounded up to 8.
const LEAST_PACKET: usize = 88;

/// Whether the snap length of the packet at the start is at least 1 and at most its wire length,
/// and the packet ends within the bytes.
fn snap_may(bytes: &[u8]) -> bool
    requires header { 88 ≤ length bytes.now }
    requires small { length bytes.now ≤ 1048576 }
    ensures { result ≡ snap_may bytes.now }
{
    let snap = u32_at(bytes, 12);
    let most = bytes.len() as u32;
    snap >= 1 && snap <= u32_at(bytes, 16) && snap <= most && need(snap) <= most
}

/// Tests all fields of the packet at the start before its data.
fn check_fixed(bytes: &[u8], at: u32, last: bool) -> Result<(), LayoutError>
    requires small { at + length bytes.now ≤ 1048576 }
    requires snap { 82 + number_at 4 12 bytes.now ≤ length bytes.now }
    ensures { told result ≡ fixed_tests at (next_of last bytes.now) bytes.now }
{
    check_header(bytes, at, next_of(bytes, last))?;
    check_zeros(bytes, at, 40, 48)?;
    check_link_address(bytes, at, 48)?;
    check_zeros(bytes, at, 66, 82)
}

/// What the offset to the next packet has to be: 0 in the last packet, otherwise what the packet
/// takes.
fn next_of(bytes: &[u8], last: bool) -> u32
    requires snap { 82 + number_at 4 12 bytes.now ≤ length bytes.now }
    requires small { length bytes.now ≤ 1048576 }
    ensures { result ≡ next_of last bytes.now }
{
    if last { 0 } else { need(u32_at(bytes, 12)) }
}

/// Tests the fields of `struct tpacket3_hdr`.
#[tactic(auto, unfolding(crate::specs::Checks::header_tests))]
fn check_header(bytes: &[u8], at: u32, next: u32) -> Result<(), LayoutError>
    requires small { at ≤ 1048576 }
    requires snap { 82 + number_at 4 12 bytes.now ≤ length bytes.now }
    ensures { told result ≡ header_tests at next bytes.now }
{
    if u32_at(bytes, 0) != next {
        return Err(LayoutError::new(LayoutKind::Offset, at));
    }
    if u32_at(bytes, 8) > LAST_NANOSECOND {
        return Err(LayoutError::new(LayoutKind::Field, at + 8));
    }
    let tag = tag_at(bytes);
    let (status, tci, tpid) = vlan_fields(tag);
    if u32_at(bytes, 20) != status {
        return Err(LayoutError::new(LayoutKind::Field, at + 20));
    }
    if u16_at(bytes, 24) != MAC {
        return Err(LayoutError::new(LayoutKind::Field, at + 24));
    }
    if u16_at(bytes, 26) != NET {
        return Err(LayoutError::new(LayoutKind::Field, at + 26));
    }
    if u32_at(bytes, 32) != tci {
        return Err(LayoutError::new(LayoutKind::Field, at + 32));
    }
    if u16_at(bytes, 36) != tpid || !tpid_may(tag) {
        return Err(LayoutError::new(LayoutKind::Field, at + 36));
    }
    if u16_at(bytes, 38) != 0 {
        return Err(LayoutError::new(LayoutKind::Field, at + 38));
    }
    Ok(())
}
