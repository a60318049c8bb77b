//! Numbers that rings come to, whenever a timer and a reader began.
ghost use Rattle.std.specs.Prelude.{◌≡◌, ◌<◌, ◌≤◌, ℕ};
ghost use Rattle.ring_sizes.specs.Orders.{IsUnit, at_phase};
ghost use Rattle.ring_sizes.specs.Schedules.{IsPace};
ghost use Rattle.ring_sizes.specs.declared.paces.Timing.{Timing as GivenTiming};

use crate::Timing;

/// A number that depends on when the timer and the reader began.
pub trait Measure {
    // The number with this timer and this reader.
    ghost number: { Self → GivenTiming → ℕ };

    // Its frames are early enough and few enough.
    ghost ready: { Self → Type 0 };

    /// The number with this timer and this reader.
    fn number_at(&self, pace: &Timing) -> u64
        requires ready { ready self.now }
        requires sound { IsPace pace.now }
        ensures { result ≡ number self.now pace.now };

    /// The first of the phases after this one, up to an end, with which the number may be another.
    /// `unit` is that of this timer and this reader.
    fn next_other(&self, pace: &Timing, unit: u128, phase_end: u32) -> u32
        requires ready { ready self.now }
        requires sound { IsPace pace.now }
        requires unit { IsUnit pace.now unit }
        requires phases { (pace.now.phase < phase_end) × (phase_end ≤ pace.now.tov) }
        ensures later { pace.now.phase < result }
        ensures last { result ≤ phase_end }
        ensures same { (phase : ℕ) → pace.now.phase ≤ phase → phase < result
            → number self.now (at_phase pace.now phase) ≡ number self.now pace.now };
}
