//! What a ring of a given size loses of frames at their moments, with a timer and a reader beside
//! them.
ghost use Rattle.std.specs.Prelude.{◌≡◌, ◌+◌, ◌-◌, ◌*◌, ◌<◌, ◌≤◌, ◌^◌, ℕ, List, All, length};
ghost use Rattle.ring_events.specs.Happenings.{IsPlain, all_happened};
ghost use Rattle.ring_events.specs.declared.events.Happening.{Happening};
ghost use Rattle.ring_model.specs.Fates.{totals_of};
ghost use Rattle.ring_model.specs.Ring.{Size};
ghost use Rattle.ring_model.specs.Rings.{fresh};
ghost use Rattle.ring_sizes.specs.Courses.{IsSmall, all_went_on, course_stats, first_course};
ghost use Rattle.ring_sizes.specs.EventLists.{events_of};
ghost use Rattle.ring_sizes.specs.Places.{IsQuiet};
ghost use Rattle.ring_sizes.specs.Rests.{course_last, course_read};
ghost use Rattle.ring_sizes.specs.Schedules.{IsPace, awake, beats, beats_between, schedule_to};
ghost use Rattle.ring_sizes.specs.Schedules.{steps_before, ticks_by};

use crate::{Arrival, Course, Event, StallTime, Timing};
use ring_model::Stats;

/// The statistics over the whole run of a ring: with blocks that have this room for packets, and
/// this number of them, whose frames come at these moments, beside a timer and a reader, in a run
/// that ends at a moment.
pub fn losses_at(
    room: u32,
    blocks: u32,
    pace: &Timing,
    stalls: &[StallTime],
    arrivals: &[Arrival],
    end: u64,
) -> Stats
    requires sound { IsPace pace.now }
    requires early { All (λ arrival. arrival.at < 2 ^ 53) arrivals.now }
    requires soon { end < 2 ^ 53 }
    requires few { length arrivals.now < 2 ^ 60 }
    ensures stats { result ≡ course_stats (all_went_on room blocks pace.now.tov
        (schedule_to stalls.now pace.now arrivals.now end) (first_course pace.now.tov)) }
    ensures totals { (happenings : List Happening)
        → events_of happenings ≡ schedule_to stalls.now pace.now arrivals.now end
        → IsPlain happenings
        → let size : Size = record { room = room; blocks = blocks; tov = pace.now.tov } in
        result ≡ totals_of size (all_happened happenings (fresh size)).notes }
{
    let tov = u64::from(pace.tov);
    let mut course = Course::new(tov);
    let mut at = 0;
    let mut until = pace.quiet_until(at);
    for arrival in arrivals {
        let next = at.max(arrival.at);
        until = course.rest_between(blocks, pace, stalls, at, next, until);
        course.take(Event::Packet(arrival.need), room, blocks, tov);
        at = next;
    }
    course.rest(blocks, pace, stalls, at, pace.ticks_by(end), end + 1);
    course.stats()
}

impl Course {
    /// Takes what comes between two frames with these moments, and returns the moment up to which
    /// nothing comes before the next frame. `until` is that of the first one.
    fn rest_between(
        &mut self,
        blocks: u32,
        pace: &Timing,
        stalls: &[StallTime],
        since: u64,
        at: u64,
        until: u64,
    ) -> u64
        requires sound { IsPace pace.now }
        requires early { at < 2 ^ 53 }
        requires later { since ≤ at }
        requires quiet { IsQuiet pace.now since until }
        requires small { IsSmall (2 ^ 62) self.old }
        ensures goes { (room : ℕ) → self.new
            ≡ all_went_on room blocks pace.now.tov (beats_between stalls.now pace.now since at)
            self.old }
        ensures small { (bound : ℕ) → IsSmall (bound + ticks_by pace.now since) self.old
            → IsSmall (bound + ticks_by pace.now at) self.new }
        ensures quiet { IsQuiet pace.now at result }
    {
        if at < until {
            return until;
        }
        self.rest(blocks, pace, stalls, since, pace.ticks_by(at), at);
        pace.quiet_until(at)
    }

    /// Takes what the timer and the reader do from one moment on: the ticks up to this number, and
    /// the steps before another moment. It takes no longer than the ticks up to one that leaves an
    /// empty block.
    pub fn rest(
        &mut self,
        blocks: u32,
        pace: &Timing,
        stalls: &[StallTime],
        since: u64,
        last: u64,
        at: u64,
    )
        requires sound { IsPace pace.now }
        requires early { (since < 2 ^ 53) × (at ≤ 2 ^ 53) }
        requires last { last ≤ ticks_by pace.now at }
        requires small { IsSmall (2 ^ 62) self.old }
        ensures goes { (room : ℕ) → self.new
            ≡ all_went_on room blocks pace.now.tov
            (beats stalls.now pace.now (last - ticks_by pace.now since) (ticks_by pace.now since)
            since at) self.old }
        ensures small { (bound most : ℕ) → ticks_by pace.now since ≤ most → last ≤ most
            → IsSmall (bound + ticks_by pace.now since) self.old
            → IsSmall (bound + most) self.new }
    {
        let tov = u64::from(pace.tov);
        let mut ticks = pace.ticks_by(since);
        let mut from = since;
        while ticks < last && !self.is_still((ticks + 1) * tov) {
            let next = pace.tick_moment(ticks + 1);
            self.read_from(from, next, pace, stalls);
            self.tick((ticks + 1) * tov, blocks, tov);
            ticks += 1;
            from = next;
        }
        self.tick_on(ticks, last, blocks, tov);
        self.read_from(from, at, pace, stalls);
    }

    /// Takes the last tick of those after one, of which only the last matters with an empty block.
    fn tick_on(&mut self, ticks: u64, last: u64, blocks: u32, tov: u64)
        requires small { IsSmall (2 ^ 63) self.old }
        requires early { last * tov < 2 ^ 63 }
        ensures goes { self.new ≡ course_last blocks tov ticks last self.old }
        ensures used { self.new.used < 2 ^ 32 }
    {
        if ticks < last {
            self.tick(last * tov, blocks, tov);
        }
    }

    /// Takes the reader's steps from one moment on, before another.
    fn read_from(&mut self, since: u64, at: u64, pace: &Timing, stalls: &[StallTime])
        requires sound { IsPace pace.now }
        requires early { (since ≤ 2 ^ 53) × (at ≤ 2 ^ 53) }
        requires small { IsSmall (2 ^ 63) self.old }
        ensures { self.new ≡ course_read pace.now.takes_all
            (awake stalls.now pace.now (steps_before pace.now since)
            (steps_before pace.now at - steps_before pace.now since)) self.old }
    {
        let steps = pace.awake(pace.steps_before(since), pace.steps_before(at), stalls);
        self.read(steps, pace.takes_all);
    }
}
