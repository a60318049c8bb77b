//! When a reader reads, and what is tried of it.
ghost use Rattle.std.specs.Prelude.{◌≡◌, ◌+◌, ◌*◌, ◌^◌, ◌<◌, ◌≤◌, ℕ, false, None, Some, IfOk};
ghost use Rattle.fanout_group.specs.Plans.{rolls_over};
ghost use Rattle.pace_laws.specs.Paces.{pace_of, stalls_of};
ghost use Rattle.reader_pace.specs.Sound.{AreBeginnings, ArePhases, IsPace, IsReader};
ghost use Rattle.tap_sizes.specs.Tried.{beginnings_below, first_from_of, first_phase_of};
ghost use Rattle.tap_sizes.specs.Tried.{from_end_of, phase_end_of, tries_by};
ghost use Rattle.tap_sizes.specs.Tried.{unanswered_by, unanswered_pace};

use crate::Unanswered;
use fanout_group::{Mode, Plan};
use frame_view::Memory;
use reader_pace::{Beginnings, Pace, PacedReader, Phases, Stall};
use ring_sizes::{StallTime, Timing, Tries};
use std::alloc::Global;

/// The flag of rollover (`PACKET_FANOUT_FLAG_ROLLOVER` of linux/if_packet.h).
const ROLLOVER: u32 = 0x1000;

/// The nanoseconds of a millisecond and of a second.
const MILLISECOND: u64 = 1_000_000;

const SECOND: u64 = 1_000_000_000;

/// Why the program can't answer a reader yet, if it can't.
pub(crate) fn unanswered(reader: &PacedReader) -> Option<Unanswered>
    ensures { result ≡ unanswered_by reader.now }
{
    unanswered_pace(reader.pace)
}

/// Whether the packets of a group roll over to other members.
pub(crate) fn rolls_over(plan: &Plan) -> bool
    ensures { result ≡ rolls_over plan.now }
{
    matches!(plan.mode(), Mode::Rollover) || plan.flags() & ROLLOVER != 0
}

/// Why the program can't answer a pace yet, if it can't.
fn unanswered_pace(pace: Pace) -> Option<Unanswered>
    ensures { result ≡ unanswered_pace pace }
{
    match pace {
        Pace::Poll(_) => Some(Unanswered::Poll),
        Pace::Pause(_) | Pace::Blocks(_) => None,
    }
}

/// When the timer ticks and a reader makes its steps, at phase 0 and beginning 0.
pub(crate) fn pace_of(pace: Pace, tov: u32) -> Timing
    requires sound { IsPace pace }
    requires answered { unanswered_pace pace ≡ None }
    ensures pace { pace_of tov pace ≡ Some result }
    ensures tov { result.tov ≡ tov }
    ensures span { (0 < result.span) × (result.span < 2 ^ 60) }
    ensures parts { (0 < result.parts) × (result.parts ≤ 8 * result.span) }
{
    match pace {
        Pace::Pause(period) => Timing {
            tov,
            phase: 0,
            span: u64::from(period) * MILLISECOND,
            parts: 1,
            start: 0,
            takes_all: true,
        },
        Pace::Blocks(count) => Timing {
            tov,
            phase: 0,
            span: SECOND,
            parts: count,
            start: 0,
            takes_all: false,
        },
        Pace::Poll(_) => unreachable!(),
    }
}

/// The phases and the beginnings of a reader that are tried.
pub(crate) fn tries_of(reader: &PacedReader, tov: u32) -> Tries
    requires reader { (cpus : ℕ) × IsReader cpus tov reader.now }
    requires answered { unanswered_pace reader.now.pace ≡ None }
    requires phases { ArePhases tov false reader.now.phases }
    requires some { 1 ≤ tov }
    ensures tries { result ≡ tries_by reader.now tov }
    ensures phases { result.first_phase < result.phase_end }
    ensures below { result.phase_end ≤ tov }
    ensures beginnings { result.first_from < result.from_end }
    ensures few { result.from_end ≤ 2 ^ 32 }
{
    Tries {
        first_phase: first_phase(reader.phases),
        phase_end: phase_end(reader.phases, tov),
        first_from: first_from(reader.beginnings),
        from_end: from_end(reader.pace, reader.beginnings),
    }
}

/// The first phase that is tried.
fn first_phase(phases: Phases) -> u32
    ensures { result ≡ first_phase_of phases }
{
    match phases {
        Phases::All => 0,
        Phases::One(phase) => phase,
    }
}

/// The phase after the last that is tried.
fn phase_end(phases: Phases, tov: u32) -> u32
    requires { ArePhases tov false phases }
    ensures { result ≡ phase_end_of tov phases }
{
    match phases {
        Phases::All => tov,
        Phases::One(phase) => phase + 1,
    }
}

/// The first beginning that is tried.
fn first_from(beginnings: Beginnings) -> u32
    ensures { result ≡ first_from_of beginnings }
{
    match beginnings {
        Beginnings::All => 0,
        Beginnings::One(from) => from,
    }
}

/// The beginning after the last that is tried.
fn from_end(pace: Pace, beginnings: Beginnings) -> u32
    requires pace { IsPace pace }
    requires beginnings { AreBeginnings pace beginnings }
    ensures { result ≡ from_end_of pace beginnings }
{
    match beginnings {
        Beginnings::All => beginnings_below(pace),
        Beginnings::One(from) => from + 1,
    }
}

/// How many whole milliseconds are below the period of a reader.
fn beginnings_below(pace: Pace) -> u32
    requires { IsPace pace }
    ensures { result ≡ beginnings_below pace }
{
    match pace {
        Pace::Pause(period) => period,
        Pace::Poll(_) => 1,
        Pace::Blocks(count) => {
            let count = u64::from(count);
            ((999 + count) / count) as u32
        }
    }
}

/// The stalls of a reader, in nanoseconds.
pub(crate) fn stalls_of(alloc: Global, reader: &PacedReader) -> Result<Vec<StallTime>, Memory>
    ensures { IfOk result (λ stalls. stalls.items ≡ stalls_of reader.now.stalls) }
{
    let mut stalls = Vec::with_capacity(alloc, reader.stalls.len())?;
    for stall in reader.stalls.as_slice() {
        stalls.push(stall_of(*stall))?;
    }
    Ok(stalls)
}

/// A stall in nanoseconds.
fn stall_of(stall: Stall) -> StallTime
    ensures from { result.from ≡ stall.from * 1000000 }
    ensures length { result.length ≡ stall.length * 1000000 }
{
    StallTime {
        from: u64::from(stall.from) * MILLISECOND,
        length: u64::from(stall.length) * MILLISECOND,
    }
}
