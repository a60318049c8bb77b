//! The rule of a queue of works, and what each step shows. These types are for the proofs alone.
ghost use Rattle.std.specs.Prelude.{⊤};
ghost use Rattle.work_queue.specs.Happened.{Happened};
ghost use Rattle.work_queue.specs.Logs.{first_of, gathered, grown, opening, rest_of, spent};
ghost use Rattle.work_queue.specs.Steps.{Drained, Fetched, Handed, Tells};

use crate::Work;
use crate::knowledge::Log;
use crossbeam_queue::protocol::{Join, Lesson, Outcome, Protocol, Split};

/// Each work that was handed is fetched once, or is still in the queue.
pub struct EachOnce;

impl Protocol<Work, Log> for EachOnce {
    ghost holds = { Happened };

    ghost first = { opening };
}

/// A pass that represents all grows by one. The other half is nobody's.
pub struct GrowStep;

impl Split<Log> for GrowStep {
    ghost left = { grown };

    ghost right = { λ v. spent };
}

/// The first of the passes that one represents leaves it.
pub struct PartStep;

impl Split<Log> for PartStep {
    ghost left = { rest_of };

    ghost right = { first_of };
}

/// A pass takes in another.
pub struct TakeInStep;

impl Join<Log> for TakeInStep {
    ghost both = { gathered };

    ghost spent = { spent };
}

/// A work is handed.
pub struct HandStep;

impl Outcome<Work, Log> for HandStep {
    ghost then = { Handed };
}

/// A work is fetched. A poll that finds none reports nothing.
pub struct FetchStep;

impl Outcome<Work, Log> for FetchStep {
    ghost then = { Fetched };
}

impl Lesson<Work, Log> for FetchStep {
    ghost fact = { λ v items. ⊤ };
}

/// A work is taken out as the queue is closed. A poll that finds none reports all that happened.
pub struct DrainStep;

impl Outcome<Work, Log> for DrainStep {
    ghost then = { Drained };
}

impl Lesson<Work, Log> for DrainStep {
    ghost fact = { Tells };
}
