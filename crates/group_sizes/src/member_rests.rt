//! What the timer and the readers do to each ring of a group between two frames.
ghost use Rattle.std.specs.Prelude.{◌≡◌, ◌-◌, ◌<◌, ◌≤◌, ◌^◌, ℕ, All, map};
ghost use Rattle.ring_sizes.specs.Courses.{IsSmall, all_went_on};
ghost use Rattle.ring_sizes.specs.Places.{IsQuiet};
ghost use Rattle.ring_sizes.specs.Schedules.{IsPace, beats, beats_between, ticks_by};

use ring_sizes::{Course, StallTime, Timing};

/// Takes, for each ring, what comes between two frames with these moments, and returns the moment
/// up to which nothing comes before the next frame. `until` is that of the first one.
pub(crate) fn rest_between(
    courses: &mut [Course],
    blocks: u32,
    pace: &Timing,
    stalls: &[StallTime],
    since: u64,
    at: u64,
    until: u64,
) -> u64
    requires sound { IsPace pace.now }
    requires early { at < 2 ^ 53 }
    requires later { since ≤ at }
    requires quiet { IsQuiet pace.now since until }
    requires small { All (IsSmall (2 ^ 62)) courses.old }
    ensures goes { (room : ℕ) → courses.new
        ≡ map (all_went_on room blocks pace.now.tov
        (beats_between stalls.now pace.now since at)) courses.old }
    ensures quiet { IsQuiet pace.now at result }
{
    if at < until {
        return until;
    }
    rest(courses, blocks, pace, stalls, since, pace.ticks_by(at), at);
    pace.quiet_until(at)
}

/// Takes, for each ring, the ticks from one moment on up to this number, and the steps of its
/// reader before another moment.
pub(crate) fn rest(
    courses: &mut [Course],
    blocks: u32,
    pace: &Timing,
    stalls: &[StallTime],
    since: u64,
    last: u64,
    at: u64,
)
    requires sound { IsPace pace.now }
    requires early { (since < 2 ^ 53) × (at ≤ 2 ^ 53) }
    requires last { last ≤ ticks_by pace.now at }
    requires small { All (IsSmall (2 ^ 62)) courses.old }
    ensures goes { (room : ℕ) → courses.new
        ≡ map (all_went_on room blocks pace.now.tov
        (beats stalls.now pace.now (last - ticks_by pace.now since) (ticks_by pace.now since)
        since at)) courses.old }
{
    for course in courses.iter_mut() {
        course.rest(blocks, pace, stalls, since, last, at);
    }
}
