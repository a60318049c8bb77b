//! Which rings are never full: from the words of the program to what it prints.
#![tactic(auto)]

mod answers;
mod asked_sizes;
mod calls;
mod cpu_reads;
mod laws;
mod outcomes;
mod reader_tries;
mod ring_parts;
mod searches;
mod size_findings;
mod size_texts;

pub use calls::run_size;
pub use laws::one_file_each_is_a_run;
pub use outcomes::{SizeOutcome, SizeStatus, Unanswered};
