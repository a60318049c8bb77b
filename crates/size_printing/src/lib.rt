//! What is found out about the rings of a group, and the lines that say it.
#![tactic(auto)]

mod reader_refusals;
mod report_lines;
mod ring_lines;
mod size_reports;

pub use reader_refusals::reader_refusal;
pub use report_lines::{push_files, size_lines};
pub use size_reports::{DropRanges, ReachedList, ReadFile, ReadFiles, SizeReport};
