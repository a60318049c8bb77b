//! Laws of replays: what more blocks change, and what the other members of a group do.
#![tactic(auto)]

mod laws;

pub use laws::{
    a_job_that_never_froze_reports_as_with_more_blocks,
    a_member_over_slots_without_a_drop_found_none_held, a_member_without_a_freeze_found_none_held,
    a_replay_without_a_freeze_reports_as_with_more_blocks,
    a_ring_that_never_froze_is_as_good_as_a_larger_one, each_member_is_given_a_course,
    members_stand_alone_without_rollover, nothing_rolls_over_while_nothing_is_held,
    rings_of_slots_alike_go_on_alike,
};
