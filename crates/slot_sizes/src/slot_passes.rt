//! The least number of slots with which a ring loses nothing.
ghost use Rattle.std.specs.Prelude.{◌≡◌, ◌↔◌, ◌<◌, ◌≤◌, ◌^◌, ℕ, List, All, length};
ghost use Rattle.ring_events.specs.declared.events.Happening.{Happening};
ghost use Rattle.ring_model.specs.Ring.{Size};
ghost use Rattle.ring_sizes.specs.EventLists.{events_of};
ghost use Rattle.ring_sizes.specs.Schedules.{IsPace};
ghost use Rattle.slot_sizes.specs.SlotHappenings.{IsNeverFull};
ghost use Rattle.slot_sizes.specs.SlotPasses.{first_slot_pass, slots_read, with_slot};
ghost use Rattle.slot_sizes.specs.SlotSchedules.{least_slots_of, slot_schedule_to};

use ring_sizes::{Arrival, StallTime, Timing};

/// What a ring that always has a slot more has come to.
#[derive(Clone, Copy)]
pub struct SlotPass {
    /// Filled slots.
    done: u64,
    /// Released slots.
    released: u64,
    /// The least number of slots with which each packet so far finds its slot free.
    least: u64,
}

/// The least number of slots, at least 1, with which no packet of a ring finds its slot still the
/// reader's: its frames come at these moments, beside a reader. The timer of the pace has no
/// meaning, nor has the end of the run.
pub fn least_slots_at(pace: &Timing, stalls: &[StallTime], arrivals: &[Arrival]) -> u64
    requires sound { IsPace pace.now }
    requires early { All (λ arrival. arrival.at < 2 ^ 53) arrivals.now }
    ensures some { 1 ≤ result }
    ensures least { (end : ℕ) → result ≡ least_slots_of stalls.now pace.now arrivals.now end }
    ensures threshold { (size : Size) (end : ℕ) (happenings : List Happening)
        → events_of happenings ≡ slot_schedule_to stalls.now pace.now arrivals.now end
        → 1 ≤ size.blocks → IsNeverFull size happenings ↔ (result ≤ size.blocks) }
{
    let mut pass = SlotPass::new();
    let mut at = 0;
    let mut steps = 0;
    for arrival in arrivals {
        at = at.max(arrival.at);
        let next = pace.steps_before(at);
        pass.read(pace.awake(steps, next, stalls), pace.takes_all);
        steps = next;
        pass.fill();
    }
    pass.least
}

impl SlotPass {
    /// Before the first packet.
    pub fn new() -> SlotPass
        ensures { result ≡ first_slot_pass }
    {
        SlotPass {
            done: 0,
            released: 0,
            least: 1,
        }
    }

    /// The least number of slots, at least 1, with which a ring has lost nothing so far.
    pub fn least(&self) -> u64
        ensures { result ≡ self.now.least }
    {
        self.least
    }

    /// Takes a packet.
    pub fn fill(&mut self)
        requires few { self.old.done < 2 ^ 63 }
        requires behind { self.old.released ≤ self.old.done }
        ensures { self.new ≡ with_slot self.old }
    {
        self.done += 1;
        self.least = self.least.max(self.done - self.released);
    }

    /// Takes steps of the reader, each of which reads all that is there, or one slot.
    pub fn read(&mut self, steps: u64, takes_all: bool)
        requires few { self.old.done < 2 ^ 63 }
        requires behind { self.old.released ≤ self.old.done }
        ensures { self.new ≡ slots_read takes_all steps self.old }
    {
        if !takes_all {
            self.released += steps.min(self.done - self.released);
        } else if 0 < steps {
            self.released = self.done;
        }
    }
}
