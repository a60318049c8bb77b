//! The least ring for frames at their moments, with a timer and a reader beside them.
ghost use Rattle.std.specs.Prelude.{◌≡◌, ◌↔◌, ◌+◌, ◌*◌, ◌<◌, ◌≤◌, ◌^◌, ℕ, List, All, length};
ghost use Rattle.ring_events.specs.Happenings.{NeverFreezes};
ghost use Rattle.ring_events.specs.declared.events.Happening.{Happening};
ghost use Rattle.ring_sizes.specs.EventLists.{events_of};
ghost use Rattle.ring_sizes.specs.Passes.{IsWithin, first_pass, passed_all};
ghost use Rattle.ring_sizes.specs.Phases.{least_of};
ghost use Rattle.ring_sizes.specs.Places.{IsQuiet, place_at};
ghost use Rattle.ring_sizes.specs.Rests.{after_last, after_next, read_to, rested};
ghost use Rattle.ring_sizes.specs.Schedules.{IsPace, schedule_to, steps_before, tick_moment};
ghost use Rattle.ring_sizes.specs.Schedules.{ticks_by};

use crate::{Arrival, Event, Pass, StallTime, Timing};

/// How far the timer and the reader have come at a frame's moment.
#[derive(Clone, Copy)]
struct TimedPlace {
    /// How many ticks came by then, and when the next one comes.
    ticks: u64,
    tick_at: u64,
    /// How many of the reader's steps came before then, and when the next one comes.
    steps: u64,
    step_at: u64,
}

/// The least number of blocks, at least 1, with which a ring never freezes whose frames come at
/// these moments, beside a timer and a reader, in a run that ends at a moment. Between two frames
/// it takes no longer than the ticks that open a block and the stalls that begin and end.
pub fn least_at(
    room: u32,
    pace: &Timing,
    stalls: &[StallTime],
    arrivals: &[Arrival],
    end: u64,
) -> u64
    requires sound { IsPace pace.now }
    requires early { All (λ arrival. arrival.at < 2 ^ 53) arrivals.now }
    requires soon { end < 2 ^ 53 }
    requires few { length arrivals.now < 2 ^ 60 }
    ensures some { 1 ≤ result }
    ensures least { result ≡ least_of room stalls.now pace.now arrivals.now end }
    ensures threshold { (blocks : ℕ) (happenings : List Happening)
        → events_of happenings ≡ schedule_to stalls.now pace.now arrivals.now end → 1 ≤ blocks
        → NeverFreezes (record { room = room; blocks = blocks; tov = pace.now.tov }) happenings
        ↔ (result ≤ blocks) }
{
    timed_pass(room, pace, stalls, arrivals, end).least()
}

/// The pass of a ring whose frames come at these moments, beside a timer and a reader.
pub fn timed_pass(
    room: u32,
    pace: &Timing,
    stalls: &[StallTime],
    arrivals: &[Arrival],
    end: u64,
) -> Pass
    requires sound { IsPace pace.now }
    requires early { All (λ arrival. arrival.at < 2 ^ 53) arrivals.now }
    requires soon { end < 2 ^ 53 }
    requires few { length arrivals.now < 2 ^ 60 }
    ensures { result ≡ passed_all room pace.now.tov
        (schedule_to stalls.now pace.now arrivals.now end) (first_pass pace.now.tov) }
{
    let tov = u64::from(pace.tov);
    let mut pass = Pass::new(tov);
    let mut place = TimedPlace::new(pace, 0);
    let mut until = place.until();
    let mut at = 0;
    for arrival in arrivals {
        at = at.max(arrival.at);
        if until <= at {
            let next = TimedPlace::new(pace, at);
            pass = place.rest(pass, pace, stalls, next.ticks, next.steps);
            place = next;
            until = place.until();
        }
        pass.offer(arrival.need, room, tov);
    }
    place.rest(
        pass,
        pace,
        stalls,
        pace.ticks_by(end),
        pace.steps_before(end + 1),
    )
}

impl Timing {
    /// A moment; before a frame that comes before it, and after one at `at`, neither a tick nor a
    /// step comes.
    pub fn quiet_until(&self, at: u64) -> u64
        requires sound { IsPace self.now }
        requires early { at ≤ 2 ^ 53 }
        ensures { IsQuiet self.now at result }
    {
        TimedPlace::new(self, at).until()
    }
}

impl TimedPlace {
    /// At a frame's moment.
    fn new(pace: &Timing, at: u64) -> TimedPlace
        requires sound { IsPace pace.now }
        requires early { at ≤ 2 ^ 53 }
        ensures { result ≡ place_at pace.now at }
    {
        let ticks = pace.ticks_by(at);
        let steps = pace.steps_before(at);
        TimedPlace {
            ticks,
            tick_at: pace.tick_moment(ticks + 1),
            steps,
            step_at: pace.step_moment(steps + 1),
        }
    }

    /// A moment; before a frame that comes before it neither a tick nor a step comes.
    fn until(self) -> u64
        ensures { (at : ℕ) → at < result → (at < self.tick_at) × (at ≤ self.step_at) }
    {
        self.tick_at.min(self.step_at.saturating_add(1))
    }

    /// The pass after the ticks up to this number and so many steps. It has both by value, so that
    /// a caller's loop keeps them in registers.
    fn rest(self, pass: Pass, pace: &Timing, stalls: &[StallTime], last: u64, to: u64) -> Pass
        requires sound { IsPace pace.now }
        requires ticks { last ≤ ticks_by pace.now (2 ^ 53) }
        requires steps { to ≤ steps_before pace.now (2 ^ 53) }
        requires within { IsWithin (2 ^ 62) pass }
        requires next { self.tick_at ≡ tick_moment pace.now (self.ticks + 1) }
        ensures { result ≡ rested stalls.now pace.now self.ticks last self.steps to pass }
    {
        let mut pass = pass;
        if pass.is_empty() || last <= self.ticks {
            pass.tick_on(self.ticks, last, pace);
            pass.read_to(self.steps, to, pace, stalls);
        } else {
            let steps = pace.steps_before(self.tick_at);
            pass.read_to(self.steps, steps, pace, stalls);
            pass.tick((self.ticks + 1) * u64::from(pace.tov), u64::from(pace.tov));
            pass.tick_on(self.ticks + 1, last, pace);
            pass.read_to(steps, to, pace, stalls);
        }
        pass
    }
}

impl Pass {
    /// Takes the last tick of those after one, of which only the last matters with an empty block.
    fn tick_on(&mut self, ticks: u64, last: u64, pace: &Timing)
        requires small { last * pace.now.tov < 2 ^ 63 }
        requires within { IsWithin (2 ^ 63) self.old }
        ensures { self.new ≡ after_last pace.now ticks last self.old }
    {
        if ticks < last {
            self.tick(last * u64::from(pace.tov), u64::from(pace.tov));
        }
    }

    /// Takes the reader's steps from one number on, up to another.
    fn read_to(&mut self, from: u64, to: u64, pace: &Timing, stalls: &[StallTime])
        requires sound { IsPace pace.now }
        requires early { to ≤ steps_before pace.now (2 ^ 53) }
        requires within { IsWithin (2 ^ 63) self.old }
        ensures { self.new ≡ read_to stalls.now pace.now from to self.old }
    {
        self.read(pace.awake(from, to, stalls), pace.takes_all);
    }
}
