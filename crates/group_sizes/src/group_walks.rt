//! What a group drops of frames at their moments, with a timer and readers beside them.
ghost use Rattle.std.specs.Prelude.{◌≡◌, ◌+◌, ◌<◌, ◌≤◌, ◌^◌, ℕ, [], All, length, sum_by};
ghost use Rattle.group_sizes.specs.Groups.{AreRings, IsGroup, IsRoute, all_routed};
ghost use Rattle.group_sizes.specs.Walks.{AreFrames, group_drops_of};
ghost use Rattle.ring_sizes.specs.Courses.{IsSmall};
ghost use Rattle.ring_sizes.specs.Schedules.{IsPace, beats_to, schedule_to};

use crate::member_rests::{rest, rest_between};
use crate::{GroupRings, Route};
use ring_sizes::{Arrival, Course, StallTime, Timing};

/// The most members of a group, and the most CPUs.
const MOST: usize = 8;

/// How many packets a group of rings drops over a whole run, whose frames come at these moments and
/// each on its route, beside a timer and a reader for each ring, all alike, in a run that ends at a
/// moment.
pub fn group_drops_at(
    rings: &GroupRings,
    routes: &[Route],
    pace: &Timing,
    stalls: &[StallTime],
    arrivals: &[Arrival],
    end: u64,
) -> u64
    requires frames { AreFrames rings.now routes.now arrivals.now end }
    requires sound { IsPace pace.now }
    ensures { result ≡ group_drops_of rings.now routes.now stalls.now pace.now arrivals.now end }
{
    let mut all_courses = [Course::new(u64::from(pace.tov)); MOST];
    let (courses, _) = all_courses.split_at_mut(rings.members as usize);
    let mut all_presents = [0; MOST];
    let (presents, _) = all_presents.split_at_mut(rings.cpus as usize);
    let at = walk(rings, courses, presents, routes, pace, stalls, arrivals);
    let last = pace.ticks_by(end);
    rest(courses, rings.blocks, pace, stalls, at, last, end + 1);
    drops_of(courses)
}

/// Takes all frames, with what the timer and the readers do before each, and returns the moment of
/// the last one.
fn walk(
    rings: &GroupRings,
    courses: &mut [Course],
    presents: &mut [u16],
    routes: &[Route],
    pace: &Timing,
    stalls: &[StallTime],
    arrivals: &[Arrival],
) -> u64
    requires rings { AreRings rings.now }
    requires group { IsGroup rings.now
        (record { courses = courses.old; presents = presents.old }) }
    requires new { All (IsSmall 1) courses.old }
    requires each { length routes.now ≡ length arrivals.now }
    requires routes { All (IsRoute rings.now) routes.now }
    requires sound { IsPace pace.now }
    requires early { All (λ arrival. arrival.at < 2 ^ 53) arrivals.now }
    requires few { length arrivals.now < 2 ^ 60 }
    ensures goes { (end : ℕ) → all_routed rings.now pace.now.tov
        (schedule_to stalls.now pace.now arrivals.now end) routes.now
        (record { courses = courses.old; presents = presents.old })
        ≡ all_routed rings.now pace.now.tov (beats_to stalls.now pace.now result end) []
        (record { courses = courses.new; presents = presents.new }) }
    ensures small { All (IsSmall (2 ^ 60 + 2 ^ 54)) courses.new }
    ensures early { result < 2 ^ 53 }
{
    let tov = u64::from(pace.tov);
    let mut at = 0;
    let mut until = pace.quiet_until(at);
    for (index, arrival) in arrivals.iter().enumerate() {
        let next = at.max(arrival.at);
        until = rest_between(courses, rings.blocks, pace, stalls, at, next, until);
        rings.give(courses, presents, arrival.need, routes[index], tov);
        at = next;
    }
    at
}

/// How many packets the rings drop together.
fn drops_of(courses: &[Course]) -> u64
    requires few { length courses.now ≤ 8 }
    requires small { All (IsSmall (2 ^ 61)) courses.now }
    ensures { result ≡ sum_by (λ course. course.dropped) courses.now }
{
    let mut drops = 0;
    for course in courses {
        drops += course.stats().drops;
    }
    drops
}
