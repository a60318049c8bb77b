//! The answers: the least ring of each member and of the group.
ghost use Rattle.std.specs.Prelude.{◌≡◌, ◌+◌, ◌<◌, ◌≤◌, ◌^◌, ℕ, true, None, IfOk, get_or, length};
ghost use Rattle.std.specs.Prelude.{if◌then◌else◌};
ghost use Rattle.std.specs.List.{AllByRecursion, sum_by};
ghost use Rattle.reader_pace.specs.Sound.{IsReader};
ghost use Rattle.ring_sizes.specs.declared.tries.Reached.{Reached};
ghost use Rattle.ring_sizes.specs.Phases.{AreTried, IsFirstMost};
ghost use Rattle.run_reports.specs.declared.ring_kind.RingKind.TheVariants.{Slots};
ghost use Rattle.setup_text.specs.Sound.{IsSetup};
ghost use Rattle.slot_layout.specs.SlotShapes.{IsSlotShape};
ghost use Rattle.tap_sizes.specs.Tried.{unanswered_pace};
ghost use Rattle.tap_sizes.specs.inside.Passes.{AreDropRanges, AreFirstMost, IsAnsweredBy};
ghost use Rattle.tap_sizes.specs.inside.Passes.{IsEarly, IsTotalRange, greatest_ring, is_greater};
ghost use Rattle.tap_sizes.specs.inside.Passes.{least_by};
ghost use Rattle.tp_layout.specs.Requests.{time_out_of};

use crate::reader_tries::{pace_of, rolls_over, stalls_of, tries_of};
use crate::ring_parts::{RingParts, parts_of};
use crate::size_texts::time_out;
use frame_deals::{Dealt, DealtList};
use frame_view::Memory;
use reader_pace::PacedReader;
use ring_sizes::{
    Arrival, DropRange, Reached, StallTime, Timing, Trial, Tries, least_of_all, losses_of_all,
};
use run_reports::RingKind;
use setup_text::Setup;
use size_printing::{DropRanges, ReachedList, ReadFiles, SizeReport};
use slot_sizes::{least_slots_of_all, slot_losses_of_all};
use std::alloc::Global;
use std::slice::from_ref;
use std::thread::Threads;

/// More arrivals than memory holds.
const TOO_MANY: usize = 1 << 60;

/// What is found out about the rings of a setup, from what its members are given.
pub(crate) fn answers_of<R: Threads + Sync>(
    rt: &R,
    alloc: Global,
    setup: &Setup,
    reader: &PacedReader,
    dealt: &Dealt,
    files: ReadFiles,
) -> Result<SizeReport, Memory>
    requires setup { IsSetup setup.now }
    requires reader { (cpus : ℕ) × IsReader cpus (time_out_of setup.now.shape) reader.now }
    requires answered { unanswered_pace reader.now.pace ≡ None }
    requires slots { reader.now.slots ≡ true → IsSlotShape setup.now.shape }
    requires some { 0 < length dealt.now.members.items }
    requires early { AllByRecursion IsEarly dealt.now.members.items }
    requires soon { dealt.now.end < 2 ^ 53 }
    ensures { IfOk result
        (IsAnsweredBy setup.now reader.now dealt.now.members.items dealt.now.end files) }
{
    let tov = time_out(setup);
    let pace = pace_of(reader.pace, tov);
    let tries = tries_of(reader, tov);
    let stalls = stalls_of(alloc, reader)?;
    let parts = parts_of(&setup.shape, reader.slots);
    let rings = least_rings(rt, alloc, &parts, &pace, &tries, stalls.as_slice(), dealt)?;
    let group = greatest(rings.as_slice());
    if rolls_over(&setup.plan) {
        return Ok(SizeReport {
            files,
            members: ReachedList::new(alloc),
            group,
            drops: DropRanges::new(alloc),
            total: None,
        });
    }
    let drops = all_drops(rt, alloc, &parts, &pace, &tries, stalls.as_slice(), dealt)?;
    let (drops, total) = drops;
    Ok(SizeReport {
        files,
        members: rings,
        group,
        drops,
        total: Some(total),
    })
}

/// The least ring of each member.
fn least_rings<R: Threads + Sync>(
    rt: &R,
    alloc: Global,
    parts: &RingParts,
    pace: &Timing,
    tries: &Tries,
    stalls: &[StallTime],
    dealt: &Dealt,
) -> Result<ReachedList, Memory>
    requires tried { AreTried pace.now tries.now }
    requires once { parts.now.kind ≡ Slots → tries.now.phase_end ≡ tries.now.first_phase + 1 }
    requires early { AllByRecursion IsEarly dealt.now.members.items }
    requires soon { dealt.now.end < 2 ^ 53 }
    ensures { IfOk result (AreFirstMost parts.now
        (record { pace = pace.now; stalls = stalls.now; end = dealt.now.end })
        tries.now dealt.now.members.items) }
{
    let mut rings = ReachedList::new(alloc);
    for arrivals in &dealt.members {
        let ring = least_ring(rt, parts, pace, tries, stalls, arrivals, dealt.end)?;
        rings.push(ring)?;
    }
    Ok(rings)
}

/// The least ring of a member, and the first phase and beginning at which it is needed.
fn least_ring<R: Threads + Sync>(
    rt: &R,
    parts: &RingParts,
    pace: &Timing,
    tries: &Tries,
    stalls: &[StallTime],
    arrivals: &DealtList,
    end: u64,
) -> Result<Reached, Memory>
    requires tried { AreTried pace.now tries.now }
    requires once { parts.now.kind ≡ Slots → tries.now.phase_end ≡ tries.now.first_phase + 1 }
    requires early { IsEarly arrivals.now }
    requires soon { end < 2 ^ 53 }
    ensures { IfOk result (IsFirstMost tries.now (least_by parts.now
        (record { pace = pace.now; stalls = stalls.now; end = end }) arrivals.now)) }
{
    let trial = Trial {
        pace: *pace,
        tries: *tries,
        stalls,
        end,
    };
    let arrivals = counted(arrivals)?;
    match parts.kind {
        RingKind::Blocks => Ok(least_of_all(rt, parts.room, &trial, arrivals)),
        RingKind::Slots => Ok(least_slots_of_all(rt, pace, tries, stalls, arrivals)),
    }
}

/// What a member is given, as a pass takes it.
fn counted(arrivals: &DealtList) -> Result<&[Arrival], Memory>
    ensures same { IfOk result (λ slice. slice.now ≡ arrivals.now) }
    ensures few { IfOk result (λ slice. length slice.now < 2 ^ 60) }
{
    // No memory holds so many.
    if TOO_MANY <= arrivals.len() {
        return Err(Memory);
    }
    Ok(arrivals.as_slice())
}

/// What the setup's own rings drop: each member's, and all together.
fn all_drops<R: Threads + Sync>(
    rt: &R,
    alloc: Global,
    parts: &RingParts,
    pace: &Timing,
    tries: &Tries,
    stalls: &[StallTime],
    dealt: &Dealt,
) -> Result<(DropRanges, DropRange), Memory>
    requires tried { AreTried pace.now tries.now }
    requires once { parts.now.kind ≡ Slots → tries.now.phase_end ≡ tries.now.first_phase + 1 }
    requires early { AllByRecursion IsEarly dealt.now.members.items }
    requires soon { dealt.now.end < 2 ^ 53 }
    ensures each { IfOk result (λ drops. AreDropRanges parts.now
        (record { pace = pace.now; stalls = stalls.now; end = dealt.now.end })
        tries.now dealt.now.members.items drops.0) }
    ensures total { IfOk result (λ drops. IsTotalRange parts.now
        (record { pace = pace.now; stalls = stalls.now; end = dealt.now.end })
        tries.now dealt.now.members.items drops.1) }
{
    let ranges = drop_ranges(rt, alloc, parts, pace, tries, stalls, dealt)?;
    let total = total_range(rt, parts, pace, tries, stalls, dealt, ranges.as_slice())?;
    Ok((ranges, total))
}

/// The fewest and the most packets that the setup's own ring of each member drops.
fn drop_ranges<R: Threads + Sync>(
    rt: &R,
    alloc: Global,
    parts: &RingParts,
    pace: &Timing,
    tries: &Tries,
    stalls: &[StallTime],
    dealt: &Dealt,
) -> Result<DropRanges, Memory>
    requires tried { AreTried pace.now tries.now }
    requires once { parts.now.kind ≡ Slots → tries.now.phase_end ≡ tries.now.first_phase + 1 }
    requires early { AllByRecursion IsEarly dealt.now.members.items }
    requires soon { dealt.now.end < 2 ^ 53 }
    ensures { IfOk result (AreDropRanges parts.now
        (record { pace = pace.now; stalls = stalls.now; end = dealt.now.end })
        tries.now dealt.now.members.items) }
{
    let mut ranges = DropRanges::new(alloc);
    for arrivals in &dealt.members {
        let member = from_ref(arrivals);
        let range = range_of(rt, parts, pace, tries, stalls, member, dealt.end)?;
        ranges.push(range)?;
    }
    Ok(ranges)
}

/// The fewest and the most packets that the setup's own rings of all members together drop. Of one
/// member they are its own, so that no pass is made twice.
fn total_range<R: Threads + Sync>(
    rt: &R,
    parts: &RingParts,
    pace: &Timing,
    tries: &Tries,
    stalls: &[StallTime],
    dealt: &Dealt,
    ranges: &[DropRange],
) -> Result<DropRange, Memory>
    requires tried { AreTried pace.now tries.now }
    requires once { parts.now.kind ≡ Slots → tries.now.phase_end ≡ tries.now.first_phase + 1 }
    requires early { AllByRecursion IsEarly dealt.now.members.items }
    requires soon { dealt.now.end < 2 ^ 53 }
    requires ranges { AreDropRanges parts.now
        (record { pace = pace.now; stalls = stalls.now; end = dealt.now.end })
        tries.now dealt.now.members.items ranges.now }
    ensures { IfOk result (IsTotalRange parts.now
        (record { pace = pace.now; stalls = stalls.now; end = dealt.now.end })
        tries.now dealt.now.members.items) }
{
    if let [own] = ranges {
        return Ok(*own);
    }
    let members = dealt.members.as_slice();
    range_of(rt, parts, pace, tries, stalls, members, dealt.end)
}

/// The fewest and the most packets that the setup's own rings of some members together drop.
fn range_of<R: Threads + Sync>(
    rt: &R,
    parts: &RingParts,
    pace: &Timing,
    tries: &Tries,
    stalls: &[StallTime],
    members: &[DealtList],
    end: u64,
) -> Result<DropRange, Memory>
    requires tried { AreTried pace.now tries.now }
    requires once { parts.now.kind ≡ Slots → tries.now.phase_end ≡ tries.now.first_phase + 1 }
    requires early { AllByRecursion IsEarly members.now }
    requires soon { end < 2 ^ 53 }
    ensures { IfOk result (IsTotalRange parts.now
        (record { pace = pace.now; stalls = stalls.now; end = end }) tries.now members.now) }
{
    check_count(members)?;
    let trial = Trial {
        pace: *pace,
        tries: *tries,
        stalls,
        end,
    };
    let (room, count) = (parts.room, parts.count);
    match parts.kind {
        RingKind::Blocks => Ok(losses_of_all(rt, room, count, &trial, members)),
        RingKind::Slots => Ok(slot_losses_of_all(rt, count, pace, tries, stalls, members)),
    }
}

/// That some members are given no more than memory holds.
fn check_count(members: &[DealtList]) -> Result<(), Memory>
    ensures { IfOk result (λ done. sum_by (λ arrivals. length arrivals) members.now < 2 ^ 60) }
{
    let mut count = 0;
    for arrivals in members {
        count += arrivals.len();
        if TOO_MANY <= count {
            return Err(Memory);
        }
    }
    Ok(())
}

/// The greatest of some rings, and of those that are as great the one at the first phase and
/// beginning.
fn greatest(rings: &[Reached]) -> Reached
    requires { 0 < length rings.now }
    ensures { (first : Reached) × (first ≡ get_or rings.now 0 first)
        × (result ≡ greatest_ring first rings.now) }
{
    greatest_ring(rings[0], rings)
}

/// The greatest of some rings and of one more, and of those that are as great the one at the first
/// phase and beginning.
fn greatest_ring(first: Reached, rings: &[Reached]) -> Reached
    ensures { result ≡ greatest_ring first rings.now }
{
    let mut found = first;
    for ring in rings {
        found = greater(*ring, found);
    }
    found
}

/// The greater of a ring and the one that was found.
fn greater(ring: Reached, found: Reached) -> Reached
    ensures { result ≡ (if is_greater ring found then ring else found) }
{
    if is_greater(ring, found) { ring } else { found }
}

/// Whether a ring is greater than another, or as great at an earlier phase or beginning.
fn is_greater(ring: Reached, other: Reached) -> bool
    ensures { result ≡ is_greater ring other }
{
    if ring.number != other.number {
        return other.number < ring.number;
    }
    if ring.phase != other.phase {
        return ring.phase < other.phase;
    }
    ring.from < other.from
}
