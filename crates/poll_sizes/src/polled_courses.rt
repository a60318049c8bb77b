//! What a ring of a given size loses, where its reader wakes some time after a block is handed
//! over.
ghost use Rattle.std.specs.Prelude.{◌≡◌, ◌+◌, ◌-◌, ◌<◌, ◌≤◌, ◌^◌, ℕ, List, All, length};
ghost use Rattle.poll_sizes.specs.Beats.{beats_from, ticks_on, timer_of};
ghost use Rattle.poll_sizes.specs.Polls.{all_beaten, beaten, course_done, first_polled_course};
ghost use Rattle.poll_sizes.specs.Polls.{polled_events, read_before};
ghost use Rattle.ring_events.specs.Happenings.{IsPlain, all_happened};
ghost use Rattle.ring_events.specs.declared.events.Happening.{Happening};
ghost use Rattle.ring_model.specs.Fates.{totals_of};
ghost use Rattle.ring_model.specs.Ring.{Size};
ghost use Rattle.ring_model.specs.Rings.{fresh};
ghost use Rattle.ring_sizes.specs.Courses.{IsSmall, all_went_on, course_stats, first_course};
ghost use Rattle.ring_sizes.specs.Courses.{went_on};
ghost use Rattle.ring_sizes.specs.EventLists.{events_of};
ghost use Rattle.ring_sizes.specs.Schedules.{IsPace, ticks_by};

use crate::PollTiming;
use crate::polls::{Polled, wake_after, wakes_before};
use ring_model::Stats;
use ring_sizes::{Arrival, Course, Event, StallTime};

/// The statistics over the whole run of a ring: with blocks that have this room for packets, and
/// this number of them, whose frames come at these moments, beside a timer and a reader that wakes
/// some time after a block of this ring is handed over and takes all that is there, in a run that
/// ends at a moment. Ticks that change nothing take no time.
pub fn polled_losses(
    room: u32,
    blocks: u32,
    pace: &PollTiming,
    stalls: &[StallTime],
    arrivals: &[Arrival],
    end: u64,
) -> Stats
    requires sound { IsPace (timer_of pace.now) }
    requires early { All (λ arrival. arrival.at < 2 ^ 53) arrivals.now }
    requires soon { end < 2 ^ 53 }
    requires few { length arrivals.now < 2 ^ 60 }
    ensures stats { result ≡ course_stats (all_went_on room blocks pace.now.tov
        (polled_events room blocks stalls.now pace.now arrivals.now end)
        (first_course pace.now.tov)) }
    ensures totals { (happenings : List Happening)
        → events_of happenings ≡ polled_events room blocks stalls.now pace.now arrivals.now end
        → IsPlain happenings
        → let size : Size = record { room = room; blocks = blocks; tov = pace.now.tov } in
        result ≡ totals_of size (all_happened happenings (fresh size)).notes }
{
    let mut polled = Polled {
        ring: Course::new(u64::from(pace.tov)),
        wake: None,
    };
    let mut at = 0;
    let mut ticks = pace.ticks_by(at);
    for arrival in arrivals {
        at = at.max(arrival.at);
        let last = pace.ticks_by(at);
        polled.rest(ticks, last, room, blocks, pace, stalls);
        polled.beat(at, Event::Packet(arrival.need), room, blocks, pace, stalls);
        ticks = last;
    }
    polled.rest(ticks, pace.ticks_by(end), room, blocks, pace, stalls);
    polled.read_before(end + 1, room, blocks, pace);
    polled.ring.stats()
}

impl Polled<Course> {
    /// Takes the next ticks after so many, up to a last one.
    fn rest(
        &mut self,
        ticks: u64,
        last: u64,
        room: u32,
        blocks: u32,
        pace: &PollTiming,
        stalls: &[StallTime],
    )
        requires sound { IsPace (timer_of pace.now) }
        requires few { (ticks < 2 ^ 54) × (last ≤ ticks_by (timer_of pace.now) (2 ^ 53)) }
        requires small { IsSmall (2 ^ 62) self.old.ring }
        ensures goes { self.new ≡ all_beaten (went_on room blocks pace.now.tov) course_done
            stalls.now pace.now.delay (ticks_on pace.now (last - ticks) ticks) self.old }
        ensures small { (bound most : ℕ) → ticks ≤ most → last ≤ most
            → IsSmall (bound + ticks) self.old.ring → IsSmall (bound + most) self.new.ring }
    {
        let mut done = ticks;
        while done < last {
            let next = pace.next_tick(self.ring.is_idle(blocks), self.wake, done, last);
            let at = pace.tick_moment(next);
            let label = next * u64::from(pace.tov);
            self.beat(at, Event::Tick(label), room, blocks, pace, stalls);
            done = next;
        }
    }

    /// Takes an event, after the reader, if it wakes before that.
    fn beat(
        &mut self,
        at: u64,
        event: Event,
        room: u32,
        blocks: u32,
        pace: &PollTiming,
        stalls: &[StallTime],
    )
        requires { IsSmall (2 ^ 62 + 2 ^ 61) self.old.ring }
        ensures goes { self.new ≡ beaten (went_on room blocks pace.now.tov) course_done stalls.now
            pace.now.delay (record { at = at; event = event }) self.old }
        ensures small { (bound : ℕ) → IsSmall bound self.old.ring
            → IsSmall (bound + 1) self.new.ring }
    {
        self.read_before(at, room, blocks, pace);
        let done = self.ring.done();
        self.ring.take(event, room, blocks, u64::from(pace.tov));
        let wake = u128::from(at) + u128::from(pace.delay);
        self.wake = wake_after(self.wake, done < self.ring.done(), wake, stalls);
    }

    /// Reads all that is there, if the reader wakes before a moment.
    fn read_before(&mut self, at: u64, room: u32, blocks: u32, pace: &PollTiming)
        requires { IsSmall (2 ^ 62 + 2 ^ 61) self.old.ring }
        ensures goes { self.new ≡ read_before (went_on room blocks pace.now.tov) at self.old }
        ensures small { (bound : ℕ) → IsSmall bound self.old.ring → IsSmall bound self.new.ring }
    {
        if wakes_before(self.wake, at) {
            self.ring
                .take(Event::ReadAll, room, blocks, u64::from(pace.tov));
            self.wake = None;
        }
    }
}
