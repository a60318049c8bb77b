//! What the threads of a run leave, as lists, and how the run's report follows from it. There is no
//! code here, only laws.
#![tactic(auto)]

mod group_laws;
mod laws;

pub use group_laws::{
    a_delivery_adds_its_notes, a_skipped_arrival_adds_none, the_timer_s_ticks_are_all,
    threads_report_a_group,
};
pub use laws::{
    blocks_are_read_as_they_were_noted, threads_leave_a_group, threads_leave_what_sources_gave,
    threads_report_a_capture, threads_report_a_run,
};
