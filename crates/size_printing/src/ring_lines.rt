//! The lines of rings and of what they drop.
ghost use Rattle.std.specs.Prelude.{◌≡◌, IfOk, codes, string_bytes};
ghost use Rattle.size_printing.specs.SizeLines.{beyond_text, drops_text, group_line, is_beyond};
ghost use Rattle.size_printing.specs.SizeLines.{member_drops_line, member_ring_line, most_units};
ghost use Rattle.size_printing.specs.SizeLines.{place_text, reached_text, ring_text};
ghost use Rattle.size_printing.specs.SizeLines.{total_drops_line, unit_text};

use frame_view::Memory;
use ring_sizes::{DropRange, Reached};
use run_reports::RingKind;
use std::alloc::Global;

/// The fewest blocks, or slots, that a setup may ask for.
const LEAST_UNITS: u64 = 2;

/// The most bytes of a ring that a setup may ask for.
const LARGEST_RING: u128 = 67_108_864;

/// The line of a member's ring.
#[tactic(auto, unfolding(crate::specs::SizeLines::member_ring_line))]
pub(crate) fn member_ring_line(
    alloc: Global,
    kind: RingKind,
    unit: u32,
    member: usize,
    found: Reached,
) -> Result<String, Memory>
    ensures { IfOk result (λ line. string_bytes line ≡ member_ring_line kind unit member found) }
{
    let ring = ring_text(alloc, kind, unit, found)?;
    Ok(format!(in alloc; "member {member}{ring}\n")?)
}

/// The line of the group's rings.
#[tactic(auto, unfolding(crate::specs::SizeLines::group_line))]
pub(crate) fn group_line(
    alloc: Global,
    kind: RingKind,
    unit: u32,
    found: Reached,
) -> Result<String, Memory>
    ensures { IfOk result (λ line. string_bytes line ≡ group_line kind unit found) }
{
    let ring = ring_text(alloc, kind, unit, found)?;
    Ok(format!(in alloc; "group{ring}\n")?)
}

/// The line of a member's drops.
#[tactic(auto, unfolding(crate::specs::SizeLines::member_drops_line))]
pub(crate) fn member_drops_line(
    alloc: Global,
    member: usize,
    drops: DropRange,
) -> Result<String, Memory>
    ensures { IfOk result (λ line. string_bytes line ≡ member_drops_line member drops) }
{
    let drops = drops_text(alloc, drops)?;
    Ok(format!(in alloc; "member {member}{drops}\n")?)
}

/// The line of what all members together drop.
#[tactic(auto, unfolding(crate::specs::SizeLines::total_drops_line))]
pub(crate) fn total_drops_line(alloc: Global, drops: DropRange) -> Result<String, Memory>
    ensures { IfOk result (λ line. string_bytes line ≡ total_drops_line drops) }
{
    let drops = drops_text(alloc, drops)?;
    Ok(format!(in alloc; "total{drops}\n")?)
}

/// A ring and where it is needed.
#[tactic(auto, unfolding(crate::specs::SizeLines::ring_text))]
fn ring_text(alloc: Global, kind: RingKind, unit: u32, found: Reached) -> Result<String, Memory>
    ensures { IfOk result (λ text. string_bytes text ≡ ring_text kind unit found) }
{
    let number = found.number.max(LEAST_UNITS);
    let place = place_text(alloc, found)?;
    let units = unit_text(kind);
    let beyond = beyond_text(kind, unit, found.number);
    Ok(format!(in alloc; " {units} {number}{place}{beyond}")?)
}

/// The fewest and the most packets that are dropped, and where.
#[tactic(auto, unfolding(crate::specs::SizeLines::drops_text))]
fn drops_text(alloc: Global, drops: DropRange) -> Result<String, Memory>
    ensures { IfOk result (λ text. string_bytes text ≡ drops_text drops) }
{
    let fewest = reached_text(alloc, drops.fewest)?;
    let most = reached_text(alloc, drops.most)?;
    Ok(format!(in alloc; " drops least {fewest} most {most}")?)
}

/// A number, and where it is reached.
#[tactic(auto, unfolding(crate::specs::SizeLines::reached_text))]
fn reached_text(alloc: Global, found: Reached) -> Result<String, Memory>
    ensures { IfOk result (λ text. string_bytes text ≡ reached_text found) }
{
    let number = found.number;
    let place = place_text(alloc, found)?;
    Ok(format!(in alloc; "{number}{place}")?)
}

/// A phase and a beginning.
#[tactic(auto, unfolding(crate::specs::SizeLines::place_text))]
fn place_text(alloc: Global, found: Reached) -> Result<String, Memory>
    ensures { IfOk result (λ text. string_bytes text ≡ place_text found) }
{
    let phase = found.phase;
    let from = found.from;
    Ok(format!(in alloc; " phase {phase} from {from}")?)
}

/// What a ring is made of.
#[tactic(auto, unfolding(crate::specs::SizeLines::unit_text))]
fn unit_text(kind: RingKind) -> &'static str
    ensures { result.now ≡ unit_text kind }
{
    match kind {
        RingKind::Blocks => "blocks",
        RingKind::Slots => "slots",
    }
}

/// The mark of a number that no setup may ask for.
#[tactic(auto, unfolding(crate::specs::SizeLines::beyond_text))]
fn beyond_text(kind: RingKind, unit: u32, number: u64) -> &'static str
    ensures { result.now ≡ beyond_text kind unit number }
{
    if is_beyond(kind, unit, number) {
        " beyond"
    } else {
        ""
    }
}

/// Whether no setup may ask for so many blocks, or slots, of these bytes.
fn is_beyond(kind: RingKind, unit: u32, number: u64) -> bool
    ensures { result ≡ is_beyond kind unit number }
{
    let bytes = u128::from(unit) * u128::from(number);
    most_units(kind) < number || LARGEST_RING < bytes
}

/// The most blocks, or slots, that a setup may ask for.
fn most_units(kind: RingKind) -> u64
    ensures { result ≡ most_units kind }
{
    match kind {
        RingKind::Blocks => 256,
        RingKind::Slots => 65_536,
    }
}
