//! How a queue is closed.
ghost use Rattle.std.specs.Prelude.{◌≡◌, ◌<◌, [], ◌∷◌, length, IfOk, OnOk};
ghost use Rattle.std.specs.List.{AllByRecursion};
ghost use Rattle.crossbeam_queue.specs.SegTies.{IsSegPassOf};
ghost use Rattle.work_queue.specs.Logs.{log};
ghost use Rattle.work_queue.specs.Passes.{IsHistory, IsPassAt, IsPassOf, parts_of};
ghost use Rattle.work_queue.specs.Steps.{Tells};

use crate::knowledge::Log;
use crate::plays::{DrainStep, EachOnce, TakeInStep};
use crate::{Work, WorkPass, WorkQueue};
use crossbeam_queue::{RuledSegQueue, SegPass};
use frame_view::Memory;
use std::alloc::Global;
use std::sync::Wait;

/// One pass of the queue that represents all of these.
fn gather(
    queue: &RuledSegQueue<Work, Log, EachOnce>,
    mut passes: Vec<WorkPass>,
    count: u32,
) -> SegPass<Work, Log>
    requires some { 0 < length passes.items }
    requires own { AllByRecursion (IsPassAt queue.now.web count) passes.items }
    ensures own { IsSegPassOf queue.now result }
    ensures all { result.me.view.client ≡ log count (parts_of passes.items) [] }
{
    let Some(last) = passes.pop() else {
        unreachable!()
    };
    let WorkPass { pass, calls: _ } = last;
    let mut root = pass;
    while let Some(other) = passes.pop() {
        let WorkPass { pass, calls: _ } = other;
        queue.absorb::<TakeInStep>(&mut root, pass);
    }
    root
}

/// Takes out all works, with a pass that represents all.
fn drain<R: Wait>(
    rt: &R,
    alloc: Global,
    queue: &RuledSegQueue<Work, Log, EachOnce>,
    root: SegPass<Work, Log>,
) -> Result<Vec<Work>, Memory>
    requires own { IsSegPassOf queue.now root }
    requires some { 0 < length root.me.view.client.parts }
    requires all { length root.me.view.client.parts ≡ root.me.view.client.all }
    requires none { root.me.view.client.left ≡ [] }
    ensures { IfOk result (λ left.
        Tells (log root.me.view.client.all root.me.view.client.parts left.items) []) }
{
    let mut root = root;
    let mut left = Vec::new(alloc);
    for _ in rt.forever() {
        let Some(work) = queue.pop_as::<DrainStep, R>(rt, &mut root) else {
            return Ok(left);
        };
        left.push(work)?;
    }
    unreachable!()
}

impl WorkQueue {
    /// The works that were handed and not fetched, in order, when all passes are handed in. What
    /// all passes fetched and what is left are then together what was handed, each once. The only
    /// error is that an allocation fails.
    pub fn close<R: Wait>(
        self,
        rt: &R,
        alloc: Global,
        passes: Vec<WorkPass>,
    ) -> Result<Vec<Work>, Memory>
        requires all { length passes.items ≡ self.passes }
        requires own { AllByRecursion (IsPassOf self) passes.items }

        ensures left { IfOk result (λ left. IsHistory passes.items left.items) }
    {
        let (queue, count) = self.into_parts();
        let root = gather(&queue, passes, count);
        let left = drain(rt, alloc, &queue, root);
        queue.destroy();
        left
    }
}
