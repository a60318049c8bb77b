//! What a ring of a given number of slots loses.
ghost use Rattle.std.specs.Prelude.{◌≡◌, ◌+◌, ◌<◌, ◌≤◌, ◌^◌, ℕ, List, All, length};
ghost use Rattle.ring_events.specs.Happenings.{IsPlain};
ghost use Rattle.ring_events.specs.declared.events.Happening.{Happening};
ghost use Rattle.ring_model.specs.Ring.{Size};
ghost use Rattle.ring_model.specs.Rings.{fresh};
ghost use Rattle.ring_sizes.specs.EventLists.{events_of};
ghost use Rattle.ring_sizes.specs.Schedules.{IsPace};
ghost use Rattle.slot_layout.specs.SlotFates.{slot_totals_of};
ghost use Rattle.slot_sizes.specs.SlotCourses.{all_slots_went_on, first_slot_course};
ghost use Rattle.slot_sizes.specs.SlotCourses.{slot_course_read, slot_course_stats, slot_fed};
ghost use Rattle.slot_sizes.specs.SlotHappenings.{all_slots_happened};
ghost use Rattle.slot_sizes.specs.SlotSchedules.{slot_schedule_to};

use ring_model::Stats;
use ring_sizes::{Arrival, StallTime, Timing};

/// What a ring of slots has come to.
#[derive(Clone, Copy)]
pub struct SlotCourse {
    /// Filled slots: packets kept.
    done: u64,
    /// Released slots.
    released: u64,
    /// Packets dropped.
    dropped: u64,
}

/// The statistics over the whole run of a ring of this number of slots, whose frames come at these
/// moments, beside a reader. The timer of the pace has no meaning, nor has the end of the run.
pub fn slot_losses_at(
    slots: u32,
    pace: &Timing,
    stalls: &[StallTime],
    arrivals: &[Arrival],
) -> Stats
    requires sound { IsPace pace.now }
    requires early { All (λ arrival. arrival.at < 2 ^ 53) arrivals.now }
    ensures stats { (end : ℕ) → result ≡ slot_course_stats (all_slots_went_on slots
        (slot_schedule_to stalls.now pace.now arrivals.now end) first_slot_course) }
    ensures totals { (size : Size) (end : ℕ) (happenings : List Happening)
        → events_of happenings ≡ slot_schedule_to stalls.now pace.now arrivals.now end
        → IsPlain happenings → size.blocks ≡ slots
        → result ≡ slot_totals_of (all_slots_happened happenings (fresh size)).notes }
{
    let mut course = SlotCourse::new();
    let mut at = 0;
    let mut steps = 0;
    for arrival in arrivals {
        at = at.max(arrival.at);
        let next = pace.steps_before(at);
        course.read(pace.awake(steps, next, stalls), pace.takes_all);
        steps = next;
        course.feed(slots);
    }
    course.stats()
}

impl SlotCourse {
    /// Before the first packet.
    pub fn new() -> SlotCourse
        ensures { result ≡ first_slot_course }
    {
        SlotCourse {
            done: 0,
            released: 0,
            dropped: 0,
        }
    }

    /// The statistics of the run.
    pub fn stats(&self) -> Stats
        requires { self.now.done + self.now.dropped < 2 ^ 64 }
        ensures { result ≡ slot_course_stats self.now }
    {
        Stats {
            packets: self.done + self.dropped,
            drops: self.dropped,
            freezes: 0,
        }
    }

    /// Takes a packet.
    pub fn feed(&mut self, slots: u32)
        requires few { self.old.done + self.old.dropped < 2 ^ 63 }
        ensures { self.new ≡ slot_fed slots self.old }
    {
        if self.released < (self.done + 1).saturating_sub(u64::from(slots)) {
            self.dropped += 1;
        } else {
            self.done += 1;
        }
    }

    /// Takes steps of the reader, each of which reads all that is there, or one slot.
    pub fn read(&mut self, steps: u64, takes_all: bool)
        requires few { self.old.done < 2 ^ 63 }
        requires behind { self.old.released ≤ self.old.done }
        ensures { self.new ≡ slot_course_read takes_all steps self.old }
    {
        if !takes_all {
            self.released += steps.min(self.done - self.released);
        } else if 0 < steps {
            self.released = self.done;
        }
    }
}
