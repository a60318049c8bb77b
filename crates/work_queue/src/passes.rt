//! A pass of a queue.
ghost use Rattle.std.specs.Prelude.{◌≡◌, [], ◌∷◌};
ghost use Rattle.work_queue.specs.Logs.{log};
ghost use Rattle.work_queue.specs.Passes.{part_of};

use crate::Work;
use crate::knowledge::Log;
use crossbeam_queue::SegPass;
use std::marker::Model;

/// A pass of a queue of works. It crosses threads, and only its owner hands and fetches with it.
#[derive(Drop)]
pub struct WorkPass {
    /// Its pass at the ruled queue.
    pub(crate) pass: SegPass<Work, Log>,
    /// How often `fetch` was called with it.
    pub(crate) calls: u64,
}

impl Model for WorkPass {
    ghost use Rattle.work_queue.specs.Passes.{PassValue};

    ghost Value = { PassValue };

    ghost use Rattle.work_queue.specs.PassesInside.{pass_value, IsPass};

    ghost view = { pass_value };

    ghost invariant = { IsPass };
}

impl WorkPass {
    /// Its pass at the ruled queue, which knows what contracts see of it.
    pub fn pass(&self) -> &SegPass<Work, Log>
        ensures queue { result.now.web ≡ self.now.queue }
        ensures known { result.now.me.view.client
            ≡ log self.now.of (part_of self.now ∷ []) [] }
    {
        &self.pass
    }
}
