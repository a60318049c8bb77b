//! The deal of captures: from the files of each CPU to what each member of a group without rollover
//! is given.
#![tactic(auto)]

mod chunk;
mod cpu_deal;
mod deals;
mod files;
mod laws;
mod mark_queue;
mod marks;
mod merge;

pub use cpu_deal::CpuDeal;
pub use deals::{Dealt, DealtList, deal};
pub use files::FileReading;
pub use laws::{
    a_file_adds_its_frames, all_files_are_what_arrives, one_file_is_the_capture_of_a_run,
    what_is_kept_is_what_arrives,
};
pub use mark_queue::{MarkQueue, MarkedFrame};
