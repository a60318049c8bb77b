//! The lines that the program prints: those of a run, those of what was sent, and those that say
//! why a text is refused.
#![tactic(auto)]

mod cpu_lines;
mod kind_stats;
mod lines;
mod member_lines;
mod refusals;
mod sent_lines;
mod summaries;

pub use cpu_lines::cpu_text;
pub use lines::push_line;
pub use refusals::{setup_refusal, text_refusal};
pub use sent_lines::send_lines;
pub use summaries::summary;
