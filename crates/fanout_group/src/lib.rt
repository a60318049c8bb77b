//! Who gets a frame: the modes of a fanout group, the log of what was tried, and the law that each
//! frame appears exactly once.
#![tactic(auto)]

mod delivery;
mod desk;
mod group;
mod judgements;
mod laws;
mod logs;
mod modes;
mod plan;
mod plan_error;
mod receive_path;
mod runs;
mod try_list;

pub use capture_file::CpuEnd;
pub use delivery::deliver;
pub use desk::Desk;
pub use group::Group;
pub use judgements::{ArrivalRules, Judged};
pub use laws::{
    arrivals_are_sound, arrivals_rise, each_frame_appears_exactly_once, tries_go_round,
};
pub use logs::{ArrivalList, ArrivalLog, Fate, Try};
pub use modes::Mode;
pub use plan::Plan;
pub use plan_error::PlanError;
pub use receive_path::ReceivePath;
pub use runs::{CpuLog, CpuLogList};
pub use ticket_dealer::{Dealer, DealerSeat};
pub use try_list::TryList;
