//! The laws of a queue of works, each the contract of a function that does nothing.
ghost use Rattle.std.specs.Prelude.{ℕ, List, ◌↔◌};
ghost use Rattle.work_queue.specs.Histories.{History};
ghost use Rattle.work_queue.specs.Passes.{IsFound, IsHistory, PassValue, WasHanded};
ghost use Rattle.work_queue.specs.QueueHistory.{GoesOn};
ghost use Rattle.work_queue.specs.declared.knowledge.Log.{Log};
ghost use Rattle.work_queue.specs.declared.works.Work.{Work};

use crate::Work;
use crate::knowledge::Log;
use crate::plays::EachOnce;
use crossbeam_queue::protocol::Protocol;

/// What holds of a queue between any two steps: the works that were handed are those that were
/// fetched, followed by those that are in the queue; what each pass handed and what it fetched are
/// its own places of these lists, in order. No work is anywhere else, until `close` takes them out
/// with a pass that represents all: it then has those that it took.
pub fn the_history_holds()
    ensures { (items : List Work) (views : List Log) →
        ⟦<EachOnce as Protocol<Work, Log>>⟧.holds items views → GoesOn items views }
{}

/// Once a queue is closed, a work was handed with one of the passes exactly where one of them
/// fetched it or it is among those that are left.
pub fn all_that_was_handed_is_found()
    ensures { (passes : List PassValue) (left : List Work) → IsHistory passes left →
        (work : Work) → WasHanded work passes ↔ IsFound work passes left }
{}
