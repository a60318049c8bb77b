//! How a queue is made.
ghost use Rattle.std.specs.Prelude.{◌≡◌, ◌+◌, ◌-◌, ◌<◌, ◌≤◌, [], ◌∷◌, ◌++◌, length, IfOk, OnOk};
ghost use Rattle.crossbeam_queue.specs.SegTies.{IsSegPassOf};
ghost use Rattle.work_queue.specs.Logs.{fresh_parts, log};
ghost use Rattle.work_queue.specs.Passes.{fresh_passes};

use crate::knowledge::Log;
use crate::plays::{EachOnce, GrowStep, PartStep};
use crate::{Work, WorkPass, WorkQueue};
use crossbeam_queue::{RuledSegQueue, SegPass};
use frame_view::Memory;
use std::alloc::Global;

/// Lets the first pass represent `passes` more.
fn grow(queue: &RuledSegQueue<Work, Log, EachOnce>, root: &mut SegPass<Work, Log>, passes: u32)
    requires own { IsSegPassOf queue.now root.old }
    requires some { 0 < passes }
    requires first { root.old.me.view.client ≡ log 1 (fresh_parts 0 1) [] }
    ensures own { IsSegPassOf queue.now root.new }
    ensures grown { root.new.me.view.client ≡ log passes (fresh_parts 0 passes) [] }
{
    for _ in 1..passes {
        let _nobodys = queue.another::<GrowStep>(root);
    }
}

/// The passes that one represents, each by itself.
fn part(
    queue: &RuledSegQueue<Work, Log, EachOnce>,
    root: SegPass<Work, Log>,
    passes: u32,
    made: &mut Vec<WorkPass>,
) -> Result<(), Memory>
    requires own { IsSegPassOf queue.now root }
    requires some { 0 < passes }
    requires all { root.me.view.client ≡ log passes (fresh_parts 0 passes) [] }
    requires none { made.old.items ≡ [] }
    ensures { OnOk result (made.new.items ≡ fresh_passes queue.now.web passes 0 passes) }
{
    let mut root = root;
    for _ in 0..passes - 1 {
        let pass = queue.another::<PartStep>(&mut root);
        made.push(WorkPass { pass, calls: 0 })?;
    }
    made.push(WorkPass {
        pass: root,
        calls: 0,
    })?;
    Ok(())
}

/// The passes of a queue.
fn make_passes(
    alloc: Global,
    queue: &RuledSegQueue<Work, Log, EachOnce>,
    root: SegPass<Work, Log>,
    passes: u32,
) -> Result<Vec<WorkPass>, Memory>
    requires own { IsSegPassOf queue.now root }
    requires some { 0 < passes }
    requires first { root.me.view.client ≡ log 1 (fresh_parts 0 1) [] }
    ensures { IfOk result (λ made. made.items ≡ fresh_passes queue.now.web passes 0 passes) }
{
    let mut root = root;
    let mut made = Vec::new(alloc);
    grow(queue, &mut root, passes);
    part(queue, root, passes, &mut made)?;
    Ok(made)
}

impl WorkQueue {
    /// An empty queue, and `passes` passes, 1 to 17: the passes of a run's members and workers. The
    /// names of the passes are their numbers, from 0. The only error is that an allocation fails.
    pub fn new(alloc: Global, passes: u32) -> Result<(WorkQueue, Vec<WorkPass>), Memory>
        requires some { 0 < passes }
        requires few { passes ≤ 17 }

        ensures passes { IfOk result (λ made. made.0.passes ≡ passes) }
        ensures fresh { IfOk result (λ made.
            made.1.items ≡ fresh_passes made.0.id passes 0 passes) }
    {
        let (queue, root) = RuledSegQueue::<Work, Log, EachOnce>::with_rule(alloc)?;
        match make_passes(alloc, &queue, root, passes) {
            Ok(made) => Ok((WorkQueue { queue, passes }, made)),
            Err(Memory) => {
                queue.destroy();
                Err(Memory)
            }
        }
    }
}
