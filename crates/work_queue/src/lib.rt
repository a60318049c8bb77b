//! A queue of works between threads: some passes hand works in, others fetch them, each work once
//! and in order.
#![tactic(auto)]

mod closed_queues;
mod knowledge;
mod laws;
mod new_queues;
mod pass_calls;
mod passes;
mod plays;
mod queues;
mod works;

pub use knowledge::{Log, PassPart};
pub use laws::{all_that_was_handed_is_found, the_history_holds};
pub use passes::WorkPass;
pub use plays::EachOnce;
pub use queues::WorkQueue;
pub use works::{Unhanded, Work};
