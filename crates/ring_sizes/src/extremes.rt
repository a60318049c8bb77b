//! The least and the greatest number, whenever the timer and the reader began.
ghost use Rattle.std.specs.Prelude.{◌≡◌, ◌+◌};
ghost use Rattle.ring_sizes.specs.Phases.{AreTried, IsFirstFewest, IsFirstMost, begun};
ghost use Rattle.ring_sizes.specs.Phases.{or_fewer, or_more};
ghost use Rattle.ring_sizes.specs.Shares.{AreExtremes};
ghost use Rattle.std.specs.Thread.{IsSync};

use crate::measures::Measure;
use crate::threads::thread_count;
use crate::{Reached, Timing, Tries};
use std::thread::{Threads, join};

/// The least and the greatest of some numbers, each with the first beginning at which it is
/// reached.
#[derive(Clone, Copy)]
pub struct Extremes {
    pub fewest: Reached,
    pub most: Reached,
}

/// The least and the greatest number at the beginnings that are tried. `pace` has any phase and
/// start. The phases are shared out over threads, as many as there are processors and at most
/// eight.
pub fn extremes_of_all<M: Measure + Sync, R: Threads + Sync>(
    rt: &R,
    measure: &M,
    pace: &Timing,
    tries: &Tries,
) -> Extremes
    requires tried { AreTried pace.now tries.now }
    requires ready { M.ready measure.now }
    ensures { AreExtremes (λ phase from. M.number measure.now (begun pace.now phase from)) tries.now
        result }
{
    extremes_shared(rt, thread_count(rt), measure, pace, tries)
}

/// The same on at most so many threads, each with some of the phases.
fn extremes_shared<M: Measure + Sync, R: Threads + Sync>(
    rt: &R,
    threads: u32,
    measure: &M,
    pace: &Timing,
    tries: &Tries,
) -> Extremes
    requires tried { AreTried pace.now tries.now }
    requires ready { M.ready measure.now }
    ensures { AreExtremes (λ phase from. M.number measure.now (begun pace.now phase from)) tries.now
        result }
{
    let phases = tries.phase_end - tries.first_phase;
    if threads < 2 || phases < 2 {
        return extremes_of_phases(measure, pace, tries);
    }
    let middle = tries.first_phase + (phases / threads * (threads / 2)).max(1);
    let front = Tries {
        phase_end: middle,
        ..*tries
    };
    let back = Tries {
        first_phase: middle,
        ..*tries
    };
    let in_front = || -> Extremes
        requires { IsSync R.row × IsSync M.row × AreTried pace.now front × M.ready measure.now }
        ensures { AreExtremes
            (λ phase from. M.number measure.entry.now (begun pace.entry.now phase from)) front
            result }
    { extremes_shared(rt, threads / 2, measure, pace, &front) };
    let behind = || -> Extremes
        requires { IsSync R.row × IsSync M.row × AreTried pace.now back × M.ready measure.now }
        ensures { AreExtremes
            (λ phase from. M.number measure.entry.now (begun pace.entry.now phase from)) back
            result }
    { extremes_shared(rt, threads - threads / 2, measure, pace, &back) };
    let (one, other) = join(rt, in_front, behind);
    Extremes {
        fewest: one.fewest.or_fewer(other.fewest),
        most: one.most.or_more(other.most),
    }
}

/// The same on this thread.
fn extremes_of_phases<M: Measure>(measure: &M, pace: &Timing, tries: &Tries) -> Extremes
    requires tried { AreTried pace.now tries.now }
    requires ready { M.ready measure.now }
    ensures { AreExtremes (λ phase from. M.number measure.now (begun pace.now phase from)) tries.now
        result }
{
    let mut extremes = extremes_from(measure, pace, tries);
    let mut from = tries.first_from + 1;
    while from < tries.from_end {
        let here = Tries {
            first_from: from,
            ..*tries
        };
        let found = extremes_from(measure, pace, &here);
        extremes = Extremes {
            fewest: extremes.fewest.fewer_first(found.fewest),
            most: extremes.most.more_first(found.most),
        };
        from += 1;
    }
    extremes
}

/// The same for the first beginning of those that are tried. A phase with which the number is that
/// of the one before it isn't asked for it.
fn extremes_from<M: Measure>(measure: &M, pace: &Timing, tries: &Tries) -> Extremes
    requires tried { AreTried pace.now tries.now }
    requires ready { M.ready measure.now }
    ensures fewest { IsFirstFewest (record tries.now { from_end = tries.now.first_from + 1 })
        (λ phase from. M.number measure.now (begun pace.now phase from)) result.fewest }
    ensures most { IsFirstMost (record tries.now { from_end = tries.now.first_from + 1 })
        (λ phase from. M.number measure.now (begun pace.now phase from)) result.most }
{
    let from = tries.first_from;
    let first = pace.begun(tries.first_phase, from);
    let unit = first.unit();
    let number = measure.number_at(&first);
    let mut extremes = Extremes::only(Reached {
        number,
        phase: tries.first_phase,
        from,
    });
    let mut phase = measure.next_other(&first, unit, tries.phase_end);
    while phase < tries.phase_end {
        let here = pace.begun(phase, from);
        let number = measure.number_at(&here);
        extremes = extremes.or(Reached {
            number,
            phase,
            from,
        });
        phase = measure.next_other(&here, unit, tries.phase_end);
    }
    extremes
}

impl Extremes {
    /// Those of one number.
    fn only(found: Reached) -> Extremes
        ensures { result ≡ (record { fewest = found; most = found }) }
    {
        Extremes {
            fewest: found,
            most: found,
        }
    }

    /// Those with one number more.
    fn or(self, found: Reached) -> Extremes
        ensures { result ≡ (record {
          fewest = or_fewer self.fewest found;
          most = or_more self.most found;
        }) }
    {
        Extremes {
            fewest: self.fewest.or_fewer(found),
            most: self.most.or_more(found),
        }
    }
}
