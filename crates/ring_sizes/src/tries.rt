//! Which beginnings of a timer and a reader are tried, and what was found.
ghost use Rattle.std.specs.Prelude.{◌≡◌};
ghost use Rattle.ring_sizes.specs.Phases.{fewer_first, more_first, or_fewer, or_more};

use crate::{StallTime, Timing};

/// The beginnings of a timer and a reader that are tried, in whole milliseconds: each phase of the
/// timer with each beginning of the reader.
#[derive(Clone, Copy, Debug)]
pub struct Tries {
    /// How long before the first frame the timer was started: from this phase on, ..
    pub first_phase: u32,
    /// .. below this one.
    pub phase_end: u32,
    /// How long after the first frame the reader makes its first step: from this beginning on, ..
    pub first_from: u32,
    /// .. below this one.
    pub from_end: u32,
}

/// What comes to rings beside their frames: a timer and a reader, whenever they began, and the end
/// of the run.
#[derive(Clone, Copy, Debug)]
pub struct Trial<'a> {
    /// The timer and the reader, with any phase and start.
    pub pace: Timing,
    /// When they began.
    pub tries: Tries,
    /// When the reader does nothing.
    pub stalls: &'a [StallTime],
    /// The moment at which the run ends, in nanoseconds from the first frame on.
    pub end: u64,
}

/// A number, and the first phase at which it is reached, with the first beginning of this phase.
#[derive(Clone, Copy, Debug, PartialEq, Eq)]
pub struct Reached {
    pub number: u64,
    /// How many milliseconds before the first frame the timer was started.
    pub phase: u32,
    /// How many milliseconds after the first frame the reader makes its first step.
    pub from: u32,
}

impl Reached {
    /// The one with the greater number; of equal ones the first.
    pub fn or_more(self, other: Reached) -> Reached
        ensures { result ≡ or_more self other }
    {
        if self.number < other.number {
            other
        } else {
            self
        }
    }

    /// The one with the lesser number; of equal ones the first.
    pub fn or_fewer(self, other: Reached) -> Reached
        ensures { result ≡ or_fewer self other }
    {
        if other.number < self.number {
            other
        } else {
            self
        }
    }

    /// The one with the greater number; of equal ones that at the earlier phase, or else this one.
    pub(crate) fn more_first(self, other: Reached) -> Reached
        ensures { result ≡ more_first self other }
    {
        let is_same = self.number == other.number;
        if self.number < other.number || is_same && other.phase < self.phase {
            other
        } else {
            self
        }
    }

    /// The one with the lesser number; of equal ones that at the earlier phase, or else this one.
    pub(crate) fn fewer_first(self, other: Reached) -> Reached
        ensures { result ≡ fewer_first self other }
    {
        let is_same = self.number == other.number;
        if other.number < self.number || is_same && other.phase < self.phase {
            other
        } else {
            self
        }
    }
}
