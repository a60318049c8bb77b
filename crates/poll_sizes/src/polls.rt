//! A timer, a reader that wakes some time after a block is handed over, and when it wakes. Moments
//! are in nanoseconds from the first frame on.
ghost use Rattle.std.specs.Prelude.{◌≡◌, ◌+◌, ◌<◌, ◌≤◌, ◌^◌, true, false};
ghost use Rattle.poll_sizes.specs.Beats.{timer_of};
ghost use Rattle.poll_sizes.specs.PollPhases.{polled_at};
ghost use Rattle.poll_sizes.specs.Wakes.{after_stall, wake_after, wake_of, wakes_before};
ghost use Rattle.ring_sizes.specs.Schedules.{IsPace, tick_moment, ticks_by};

use ring_sizes::{StallTime, Timing};

/// The latest moment of a run.
const LATEST: u128 = 1 << 53;

/// A timer, and a reader that wakes some time after a block is handed over.
#[derive(Clone, Copy, Debug)]
pub struct PollTiming {
    /// The time-out, in milliseconds: the timer ticks so often.
    pub tov: u32,
    /// How long before the first frame the timer was started, in milliseconds.
    pub phase: u32,
    /// How long after a block is handed over the reader wakes, in nanoseconds, if it isn't to wake
    /// already: with 0 at once, after all ticks and frames of that moment.
    pub delay: u64,
}

/// What a ring and its reader have come to.
#[derive(Clone, Copy)]
pub(crate) struct Polled<R> {
    pub(crate) ring: R,
    /// When the reader wakes, if a block was handed over since it last read.
    pub(crate) wake: Option<u128>,
}

impl PollTiming {
    /// The timer, as one beside a reader of which no step is used.
    fn timer(&self) -> Timing
        ensures { result ≡ timer_of self.now }
    {
        Timing {
            tov: self.tov,
            phase: self.phase,
            span: 1,
            parts: 1,
            start: 0,
            takes_all: true,
        }
    }

    /// The same reader, beside a timer that was started so long before the first frame, in
    /// milliseconds.
    pub(crate) fn at(&self, phase: u32) -> PollTiming
        ensures { result ≡ polled_at self.now phase }
    {
        PollTiming { phase, ..*self }
    }

    /// The moment of a tick, counted from 1.
    pub(crate) fn tick_moment(&self, number: u64) -> u64
        requires { tick_moment (timer_of self.now) number < 2 ^ 64 }
        ensures { result ≡ tick_moment (timer_of self.now) number }
    {
        self.timer().tick_moment(number)
    }

    /// How many ticks come by a moment.
    pub(crate) fn ticks_by(&self, at: u64) -> u64
        requires sound { IsPace (timer_of self.now) }
        requires early { at ≤ 2 ^ 53 }
        ensures { result ≡ ticks_by (timer_of self.now) at }
    {
        self.timer().ticks_by(at)
    }

    /// The tick to go on with, after so many and up to the last one. With a ring of which a tick
    /// changes nothing but the clock and the deadline, `is_idle`, it is the last one before the
    /// reader wakes: those between make no difference.
    pub(crate) fn next_tick(&self, is_idle: bool, wake: Option<u128>, ticks: u64, last: u64) -> u64
        requires sound { IsPace (timer_of self.now) }
        requires more { ticks < last }
        ensures later { ticks < result }
        ensures last { result ≤ last }
        ensures skips { ticks + 1 < result → (is_idle ≡ true)
            × (wakes_before (tick_moment (timer_of self.now) result) wake ≡ false) }
    {
        if !is_idle {
            return ticks + 1;
        }
        match wake {
            None => last,
            Some(wake) => {
                let by = self.ticks_by(wake.min(LATEST) as u64);
                by.min(last).max(ticks + 1)
            }
        }
    }
}

/// Whether a reader wakes before a moment.
pub(crate) fn wakes_before(wake: Option<u128>, at: u64) -> bool
    ensures { result ≡ wakes_before at wake }
{
    match wake {
        Some(wake) => wake < u128::from(at),
        None => false,
    }
}

/// When a reader wakes after an event that handed a block over or not: where it would wake at this
/// moment, but for stalls, and isn't to wake already.
pub(crate) fn wake_after(
    wake: Option<u128>,
    handed: bool,
    at: u128,
    stalls: &[StallTime],
) -> Option<u128>
    ensures { result ≡ wake_after stalls.now at handed wake }
{
    match wake {
        Some(wake) => Some(wake),
        None => {
            if handed {
                Some(wake_of(at, stalls))
            } else {
                None
            }
        }
    }
}

/// The first moment, from one on, that is in no stall.
fn wake_of(moment: u128, stalls: &[StallTime]) -> u128
    ensures { result ≡ wake_of stalls.now moment }
{
    let mut at = moment;
    let mut left = stalls.len();
    while 0 < left {
        let next = after_stall(at, stalls);
        if next == at {
            return at;
        }
        at = next;
        left -= 1;
    }
    at
}

/// The end of the first stall that holds a moment, or else the moment itself.
fn after_stall(at: u128, stalls: &[StallTime]) -> u128
    ensures { result ≡ after_stall stalls.now at }
{
    for stall in stalls {
        let from = u128::from(stall.from);
        let end = from + u128::from(stall.length);
        if from <= at && at < end {
            return end;
        }
    }
    at
}
