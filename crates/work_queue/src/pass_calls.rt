//! What a pass does: it hands works, and fetches them.
ghost use Rattle.std.specs.Prelude.{◌≡◌, ◌+◌, ◌<◌, ◌^◌, length, IfErr, IfSome, MatchOption, OnOk};
ghost use Rattle.work_queue.specs.Passes.{IsPassOf, has_called, has_fetched, has_handed};
ghost use Rattle.work_queue.specs.Works.{IsLawfulWork};

use crate::plays::{FetchStep, HandStep};
use crate::{Unhanded, Work, WorkPass, WorkQueue};
use std::sync::Wait;

impl WorkQueue {
    /// Puts a work at the back of the queue. The pass has handed fewer than 2^40 works. The only
    /// error is that an allocation fails; the work comes back then, and nothing was put.
    pub fn hand<R: Wait>(&self, rt: &R, pass: &mut WorkPass, work: Work) -> Result<(), Unhanded>
        requires own { IsPassOf self.now pass.old }
        requires few { length pass.old.handed < 2 ^ 40 }
        requires lawful { IsLawfulWork work }

        ensures handed { OnOk result (pass.new ≡ has_handed pass.old work) }
        ensures unhanded { IfErr result (λ back. (back.work ≡ work) × (pass.new ≡ pass.old)) }
    {
        match self.queue.push_as::<HandStep, R>(rt, &mut pass.pass, work) {
            Ok(()) => Ok(()),
            Err(work) => Err(Unhanded { work }),
        }
    }

    /// Takes the work at the front of the queue, if there is one. It was called fewer than 2^40
    /// times with the pass.
    pub fn fetch<R: Wait>(&self, rt: &R, pass: &mut WorkPass) -> Option<Work>
        requires own { IsPassOf self.now pass.old }
        requires few { pass.old.calls < 2 ^ 40 }

        ensures fetched { MatchOption result (pass.new ≡ has_called pass.old)
            (λ work. pass.new ≡ has_fetched pass.old work) }
        ensures lawful { IfSome result IsLawfulWork }
    {
        pass.calls += 1;
        self.queue.pop_as::<FetchStep, R>(rt, &mut pass.pass)
    }
}
