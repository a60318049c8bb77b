//! What a run reports, and what the report guarantees, whatever its command: the logs of its CPUs,
//! the notes of its members, and what the members' readers read.
#![tactic(auto)]

mod laws;
mod reports;
mod ring_kind;

pub use laws::{
    a_group_s_packets_are_short, a_group_s_report_is_that_of_a_run,
    a_member_with_places_left_dropped_nothing, each_arrival_appears_exactly_once,
    each_arrival_is_at_its_last_try, the_totals_add_up,
};
pub use reports::{Forwards, MemberList, MemberReport, Ran, RunReport};
pub use ring_kind::RingKind;
