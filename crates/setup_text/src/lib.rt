//! The texts of a run: the setup, the filter, the moments and the schedule.
#![tactic(auto)]

mod commands;
mod cpu_setups;
mod drafts;
mod filters;
mod jobs;
mod laws;
mod lines;
mod made_frames;
mod moments;
mod schedules;
mod setup_error;
mod setup_words;
mod setups;
mod text_error;
mod values;

pub use commands::Command;
pub use cpu_setups::{CpuSetup, CpuSetupList};
pub use filters::read_filter;
pub use jobs::Job;
pub use laws::{a_setup_with_cpus_can_be_run, the_first_fault_answers};
pub use lines::{Line, Schedule};
pub use moments::read_ticks;
pub use schedules::read_schedule;
pub use setup_error::{Needed, SetupError, SetupKind};
pub use setups::{Setup, read_setup};
pub use text_error::{TextError, TextKind, Which};
