//! When frames come, a timer ticks and a reader reads. Moments are in nanoseconds from the first
//! frame on.
ghost use Rattle.std.specs.Prelude.{◌≡◌, ◌+◌, ◌-◌, ◌<◌, ◌≤◌, ◌^◌, ◌&&◌, ℕ, nat_le, nat_lt};
ghost use Rattle.ring_sizes.specs.Phases.{begun};
ghost use Rattle.ring_sizes.specs.Schedules.{IsPace, awake, is_stalled, step_moment};
ghost use Rattle.ring_sizes.specs.Schedules.{steps_before, tick_moment, ticks_by};

use frame_view::ItemList;

pub(crate) const MILLISECOND: u64 = 1_000_000;

/// A moment after that of each frame.
const LATEST: u64 = 1 << 53;

/// A frame of a ring.
#[derive(Clone, Copy, Debug)]
pub struct Arrival {
    /// When it comes.
    pub at: u64,
    /// The bytes of a block that it takes.
    pub need: u32,
}

/// The frames of a ring, in the order in which they come.
pub type ArrivalList = ItemList<Arrival>;

/// The reader makes no step from this moment on, for so long.
#[derive(Clone, Copy, Debug)]
pub struct StallTime {
    pub from: u64,
    pub length: u64,
}

/// When a timer ticks and a reader makes its steps.
#[derive(Clone, Copy, Debug)]
pub struct Timing {
    /// The time-out, in milliseconds: the timer ticks so often.
    pub tov: u32,
    /// How long before the first frame the timer was started, in milliseconds.
    pub phase: u32,
    /// The nanoseconds in which the reader makes `parts` steps.
    pub span: u64,
    pub parts: u32,
    /// When the reader makes its first step, in nanoseconds after the first frame.
    pub start: u64,
    /// A step takes all blocks that are there, and not one alone.
    pub takes_all: bool,
}

impl Timing {
    /// The same timer and reader, of which the timer was started so many milliseconds before the
    /// first frame, and the reader begins so many milliseconds after it.
    pub fn begun(&self, phase: u32, from: u32) -> Timing
        ensures { result ≡ begun self.now phase from }
    {
        Timing {
            phase,
            start: u64::from(from) * MILLISECOND,
            ..*self
        }
    }

    /// The moment of a tick, counted from 1.
    pub fn tick_moment(&self, number: u64) -> u64
        requires { tick_moment self.now number < 2 ^ 64 }
        ensures { result ≡ tick_moment self.now number }
    {
        let span = u128::from(self.tov) * u128::from(MILLISECOND);
        let shift = u128::from(self.phase) * u128::from(MILLISECOND);
        (u128::from(number) * span).saturating_sub(shift) as u64
    }

    /// How many ticks come by a moment.
    pub fn ticks_by(&self, at: u64) -> u64
        requires sound { IsPace self.now }
        requires early { at ≤ 2 ^ 53 }
        ensures { result ≡ ticks_by self.now at }
    {
        (at + u64::from(self.phase) * MILLISECOND) / (u64::from(self.tov) * MILLISECOND)
    }

    /// The moment of the reader's step, counted from 1.
    pub fn step_moment(&self, number: u64) -> u64
        requires sound { IsPace self.now }
        requires small { step_moment self.now number < 2 ^ 64 }
        ensures { result ≡ step_moment self.now number }
    {
        if self.parts == 1 {
            return self.start + number.saturating_sub(1) * self.span;
        }
        let spans = u128::from(number.saturating_sub(1)) * u128::from(self.span);
        (u128::from(self.start) + spans / u128::from(self.parts)) as u64
    }

    /// How many of the reader's steps come before a moment.
    pub fn steps_before(&self, at: u64) -> u64
        requires sound { IsPace self.now }
        requires early { at ≤ 2 ^ 53 }
        ensures { result ≡ steps_before self.now at }
    {
        let since = at.saturating_sub(self.start);
        if self.parts == 1 {
            return (since + (self.span - 1)) / self.span;
        }
        let parts = u128::from(since) * u128::from(self.parts);
        ((parts + u128::from(self.span - 1)) / u128::from(self.span)) as u64
    }

    /// How many of the reader's steps from one number on, up to another, aren't in a stall. It
    /// takes no longer than the stalls that begin and end between them.
    pub fn awake(&self, from: u64, to: u64, stalls: &[StallTime]) -> u64
        requires sound { IsPace self.now }
        requires early { to ≤ steps_before self.now (2 ^ 53) }
        ensures { result ≡ awake stalls.now self.now from (to - from) }
    {
        if stalls.is_empty() {
            return to.saturating_sub(from);
        }
        let mut awake = 0;
        let mut done = from;
        while done < to {
            let moment = self.step_moment(done + 1);
            let next = self.steps_before(next_change(moment, stalls)).min(to);
            if !is_stalled(moment, stalls) {
                awake += next - done;
            }
            done = next;
        }
        awake
    }
}

/// Whether the reader makes no step at a moment.
fn is_stalled(moment: u64, stalls: &[StallTime]) -> bool
    ensures { result ≡ is_stalled stalls.now moment }
{
    for stall in stalls {
        if stall.holds(moment) {
            return true;
        }
    }
    false
}

/// A moment later than this one, up to which no stall begins or ends.
fn next_change(moment: u64, stalls: &[StallTime]) -> u64
    requires { moment < 2 ^ 53 }
    ensures later { moment < result }
    ensures early { result ≤ 2 ^ 53 }
    ensures same { (at : ℕ) → moment ≤ at → at < result
        → is_stalled stalls.now at ≡ is_stalled stalls.now moment }
{
    let mut next = LATEST;
    for stall in stalls {
        next = next.min(stall.next_change(moment));
    }
    next
}

impl StallTime {
    /// Whether the reader makes no step at a moment.
    fn holds(&self, moment: u64) -> bool
        ensures { result ≡ (nat_le self.now.from moment
            && nat_lt moment (self.now.from + self.now.length)) }
    {
        self.from <= moment && moment - self.from < self.length
    }

    /// A moment later than this one, up to which it doesn't begin or end.
    fn next_change(&self, moment: u64) -> u64
        requires { moment < 2 ^ 53 }
        ensures later { moment < result }
        ensures same { (at : ℕ) → moment ≤ at → at < result
            → (nat_le self.now.from at && nat_lt at (self.now.from + self.now.length))
            ≡ (nat_le self.now.from moment && nat_lt moment (self.now.from + self.now.length)) }
    {
        let end = self.from.saturating_add(self.length);
        if moment < self.from {
            self.from
        } else if moment < end {
            end
        } else {
            LATEST
        }
    }
}
