//! The least ring that never freezes, where its reader wakes some time after a block is handed
//! over.
ghost use Rattle.std.specs.Prelude.{◌≡◌, ◌↔◌, ◌+◌, ◌-◌, ◌<◌, ◌≤◌, ◌^◌, ℕ, List, All, length};
ghost use Rattle.poll_sizes.specs.Beats.{beats_from, ticks_on, timer_of};
ghost use Rattle.poll_sizes.specs.Polls.{all_beaten, beaten, first_polled_pass};
ghost use Rattle.poll_sizes.specs.Polls.{least_polled_of, pass_done, polled_events, read_before};
ghost use Rattle.ring_events.specs.Happenings.{NeverFreezes};
ghost use Rattle.ring_events.specs.declared.events.Happening.{Happening};
ghost use Rattle.ring_sizes.specs.EventLists.{events_of};
ghost use Rattle.ring_sizes.specs.Passes.{IsWithin, passed};
ghost use Rattle.ring_sizes.specs.Schedules.{IsPace, ticks_by};

use crate::PollTiming;
use crate::polls::{Polled, wake_after, wakes_before};
use ring_sizes::{Arrival, Event, Pass, StallTime};

/// The least number of blocks, at least 1, with which a ring never freezes whose frames come at
/// these moments, beside a timer and a reader that wakes some time after a block of this ring is
/// handed over and takes all that is there, in a run that ends at a moment. Ticks that change
/// nothing take no time.
pub fn least_polled(
    room: u32,
    pace: &PollTiming,
    stalls: &[StallTime],
    arrivals: &[Arrival],
    end: u64,
) -> u64
    requires sound { IsPace (timer_of pace.now) }
    requires early { All (λ arrival. arrival.at < 2 ^ 53) arrivals.now }
    requires soon { end < 2 ^ 53 }
    requires few { length arrivals.now < 2 ^ 60 }
    ensures some { 1 ≤ result }
    ensures least { result ≡ least_polled_of room stalls.now pace.now arrivals.now end }
    ensures threshold { (blocks : ℕ) (happenings : List Happening)
        → events_of happenings ≡ polled_events room blocks stalls.now pace.now arrivals.now end
        → 1 ≤ blocks
        → NeverFreezes (record { room = room; blocks = blocks; tov = pace.now.tov }) happenings
        ↔ (result ≤ blocks) }
{
    polled_pass(room, pace, stalls, arrivals, end).ring.least()
}

/// The pass of the ring that always has a block more, beside its own reader.
fn polled_pass(
    room: u32,
    pace: &PollTiming,
    stalls: &[StallTime],
    arrivals: &[Arrival],
    end: u64,
) -> Polled<Pass>
    requires sound { IsPace (timer_of pace.now) }
    requires early { All (λ arrival. arrival.at < 2 ^ 53) arrivals.now }
    requires soon { end < 2 ^ 53 }
    requires few { length arrivals.now < 2 ^ 60 }
    ensures { result ≡ read_before (passed room pace.now.tov) (end + 1)
        (all_beaten (passed room pace.now.tov) pass_done stalls.now pace.now.delay
        (beats_from pace.now end 0 arrivals.now) (first_polled_pass pace.now.tov)) }
{
    let mut polled = Polled {
        ring: Pass::new(u64::from(pace.tov)),
        wake: None,
    };
    let mut at = 0;
    let mut ticks = pace.ticks_by(at);
    for arrival in arrivals {
        at = at.max(arrival.at);
        let last = pace.ticks_by(at);
        polled.rest(ticks, last, room, pace, stalls);
        polled.beat(at, Event::Packet(arrival.need), room, pace, stalls);
        ticks = last;
    }
    polled.rest(ticks, pace.ticks_by(end), room, pace, stalls);
    polled.read_before(end + 1, room, pace);
    polled
}

impl Polled<Pass> {
    /// Takes the next ticks after so many, up to a last one.
    fn rest(&mut self, ticks: u64, last: u64, room: u32, pace: &PollTiming, stalls: &[StallTime])
        requires sound { IsPace (timer_of pace.now) }
        requires few { (ticks < 2 ^ 54) × (last ≤ ticks_by (timer_of pace.now) (2 ^ 53)) }
        requires within { IsWithin (2 ^ 62) self.old.ring }
        ensures goes { self.new ≡ all_beaten (passed room pace.now.tov) pass_done stalls.now
            pace.now.delay (ticks_on pace.now (last - ticks) ticks) self.old }
        ensures within { (bound most : ℕ) → ticks ≤ most → last ≤ most
            → IsWithin (bound + ticks) self.old.ring → IsWithin (bound + most) self.new.ring }
    {
        let mut done = ticks;
        while done < last {
            let next = pace.next_tick(self.ring.is_empty(), self.wake, done, last);
            let at = pace.tick_moment(next);
            let label = next * u64::from(pace.tov);
            self.beat(at, Event::Tick(label), room, pace, stalls);
            done = next;
        }
    }

    /// Takes an event, after the reader, if it wakes before that.
    fn beat(&mut self, at: u64, event: Event, room: u32, pace: &PollTiming, stalls: &[StallTime])
        requires { IsWithin (2 ^ 62 + 2 ^ 61) self.old.ring }
        ensures goes { self.new ≡ beaten (passed room pace.now.tov) pass_done stalls.now
            pace.now.delay (record { at = at; event = event }) self.old }
        ensures within { (bound : ℕ) → IsWithin bound self.old.ring
            → IsWithin (bound + 1) self.new.ring }
    {
        self.read_before(at, room, pace);
        let done = self.ring.done();
        self.ring.take(event, room, u64::from(pace.tov));
        let wake = u128::from(at) + u128::from(pace.delay);
        self.wake = wake_after(self.wake, done < self.ring.done(), wake, stalls);
    }

    /// Reads all that is there, if the reader wakes before a moment.
    fn read_before(&mut self, at: u64, room: u32, pace: &PollTiming)
        requires { IsWithin (2 ^ 62 + 2 ^ 61) self.old.ring }
        ensures goes { self.new ≡ read_before (passed room pace.now.tov) at self.old }
        ensures within { (bound : ℕ) → IsWithin bound self.old.ring
            → IsWithin bound self.new.ring }
    {
        if wakes_before(self.wake, at) {
            self.ring.take(Event::ReadAll, room, u64::from(pace.tov));
            self.wake = None;
        }
    }
}
