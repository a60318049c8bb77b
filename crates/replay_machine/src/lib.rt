//! The machine of a replay: it reads the captures of several CPUs by a schedule, and gives what
//! arrives to the rings of a group, whatever their kind.
#![tactic(auto)]

mod closed_replays;
mod laws;
mod member;
mod new_replays;
mod replay_run;
mod ring_group;
mod room_rules;
mod runs;
mod settings;

pub use laws::a_job_reports_a_group;
pub use runs::replay_over_rings;
pub use settings::Setting;
