//! How far a timer's phase may grow with which all comes in the same order.
ghost use Rattle.std.specs.Prelude.{◌≡◌, ◌+◌, ◌*◌, ◌<◌, ◌≤◌, ◌^◌, ℕ, List, All};
ghost use Rattle.ring_sizes.specs.Orders.{IsUnit, PassesNoFrame, PassesNoStep, at_phase};
ghost use Rattle.ring_sizes.specs.Schedules.{IsPace, schedule_to, tick_moment, ticks_by};
ghost use Rattle.ring_sizes.specs.declared.paces.StallTime.{StallTime};

use crate::paces::MILLISECOND;
use crate::{Arrival, Timing};

impl Timing {
    /// The first of the phases after this one, up to an end, with which the events may come in
    /// another order. `unit` is that of this timer and this reader.
    pub(crate) fn next_order(
        &self,
        unit: u128,
        phase_end: u32,
        arrivals: &[Arrival],
        end: u64,
    ) -> u32
        requires sound { IsPace self.now }
        requires unit { IsUnit self.now unit }
        requires phases { (self.now.phase < phase_end) × (phase_end ≤ self.now.tov) }
        requires early { All (λ arrival. arrival.at < 2 ^ 53) arrivals.now }
        requires soon { end < 2 ^ 53 }
        ensures later { self.now.phase < result }
        ensures last { result ≤ phase_end }
        ensures same { (stalls : List StallTime) (phase : ℕ)
            → self.now.phase ≤ phase → phase < result
            → schedule_to stalls (at_phase self.now phase) arrivals.now end
            ≡ schedule_to stalls self.now arrivals.now end }
    {
        let by_steps = self.leeway_to_steps(unit);
        if by_steps < MILLISECOND {
            return self.phase + 1;
        }
        let leeway = by_steps.min(self.leeway_to_frames(arrivals, end)) / MILLISECOND;
        let more = leeway.min(u64::from(phase_end - self.phase - 1)) as u32;
        self.phase + 1 + more
    }

    /// The greatest time that divides that between two ticks and that between two steps of the
    /// reader, in parts of a nanosecond, of which a nanosecond has `parts`.
    pub(crate) fn unit(&self) -> u128
        requires { IsPace self.now }
        ensures { IsUnit self.now result }
    {
        let mut unit = u128::from(self.tov) * u128::from(MILLISECOND) * u128::from(self.parts);
        let mut rest = u128::from(self.span);
        while 0 < rest {
            let next = unit % rest;
            unit = rest;
            rest = next;
        }
        unit
    }

    /// By how much earlier all ticks may come that no tick passes a step of the reader, in
    /// nanoseconds.
    fn leeway_to_steps(&self, unit: u128) -> u64
        requires sound { IsPace self.now }
        requires unit { IsUnit self.now unit }
        ensures { (phase : ℕ) → self.now.phase ≤ phase
            → phase * 1000000 ≤ self.now.phase * 1000000 + result
            → PassesNoStep self.now phase }
    {
        let parts = u128::from(self.parts);
        let shift = u128::from(self.phase) * u128::from(MILLISECOND) + u128::from(self.start);
        ((unit - 1 - shift * parts % unit) / parts) as u64
    }

    /// By how much earlier all ticks may come that no tick passes a frame or the end, in
    /// nanoseconds; 0 where it is less than a millisecond.
    fn leeway_to_frames(&self, arrivals: &[Arrival], end: u64) -> u64
        requires sound { IsPace self.now }
        requires early { All (λ arrival. arrival.at < 2 ^ 53) arrivals.now }
        requires soon { end < 2 ^ 53 }
        ensures { (phase : ℕ) → self.now.phase ≤ phase
            → phase * 1000000 ≤ self.now.phase * 1000000 + result
            → PassesNoFrame self.now phase end 0 arrivals.now }
    {
        let mut leeway = u64::MAX;
        let mut at = 0;
        let mut next = self.next_tick(at);
        for arrival in arrivals {
            at = at.max(arrival.at);
            if next <= at {
                next = self.next_tick(at);
            }
            leeway = leeway.min(next - 1 - at);
            if leeway < MILLISECOND {
                return 0;
            }
        }
        leeway.min(self.next_tick(end) - 1 - end)
    }

    /// The moment of the first tick after a moment.
    fn next_tick(&self, at: u64) -> u64
        requires sound { IsPace self.now }
        requires early { at < 2 ^ 53 }
        ensures moment { result ≡ tick_moment self.now (ticks_by self.now at + 1) }
        ensures later { at < result }
    {
        self.tick_moment(self.ticks_by(at) + 1)
    }
}
