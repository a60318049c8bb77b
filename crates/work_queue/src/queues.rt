//! The queue itself.
ghost use Rattle.std.specs.Prelude.{◌≡◌, ◌<◌};

use crate::Work;
use crate::knowledge::Log;
use crate::plays::EachOnce;
use crossbeam_queue::RuledSegQueue;
use std::marker::Model;

/// An unbounded queue of works between threads, with a fixed number of passes.
pub struct WorkQueue {
    /// The works, under the rule that each that was handed is fetched once or still there.
    pub(crate) queue: RuledSegQueue<Work, Log, EachOnce>,
    /// The number of passes.
    pub(crate) passes: u32,
}

impl Model for WorkQueue {
    ghost use Rattle.std.specs.Prelude.{◌<◌};
    ghost use Rattle.work_queue.specs.Passes.{QueueValue};

    ghost Value = { QueueValue };

    ghost view = { λ queue. record { id = queue.queue.web; passes = queue.passes } };

    ghost invariant = { λ queue. 0 < queue.passes };
}

impl WorkQueue {
    /// Its ruled queue. The type says that it is under the rule of which `the_history_holds`
    /// speaks.
    pub fn queue(&self) -> &RuledSegQueue<Work, Log, EachOnce>
        ensures { result.now.web ≡ self.now.id }
    {
        &self.queue
    }

    /// Its ruled queue, and the number of its passes.
    pub(crate) fn into_parts(self) -> (RuledSegQueue<Work, Log, EachOnce>, u32)
        ensures id { result.0.web ≡ self.id }
        ensures passes { result.1 ≡ self.passes }
        ensures some { 0 < result.1 }
    {
        let Self { queue, passes } = self;
        (queue, passes)
    }
}

impl Drop for WorkQueue {
    fn drop(self) {
        let Self { queue, passes: _ } = self;
        queue.destroy();
    }
}
