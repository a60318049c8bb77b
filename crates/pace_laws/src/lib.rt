//! Laws of replays by the schedule of a reader: what the passes of ring_sizes report is so of them.
#![tactic(auto)]

mod job_laws;
mod laws;
mod slot_laws;

pub use job_laws::{a_job_has_a_sizing, the_notes_of_a_report_are_those_of_the_sizing};
pub use laws::{
    a_course_counts_what_a_member_counts, a_member_runs_by_its_schedule,
    a_pass_decides_whether_a_member_freezes, each_member_has_a_replay,
    passes_decide_whether_a_group_freezes, the_drops_of_courses_are_those_of_replays,
    the_greatest_of_all_passes_is_the_least_ring_of_the_group,
    the_greatest_of_the_passes_is_the_least_ring, the_total_drops_of_courses_are_those_of_replays,
};
pub use slot_laws::{
    a_member_over_slots_runs_by_its_schedule, a_slot_course_counts_what_a_member_counts,
    a_slot_pass_decides_whether_a_member_loses, each_member_over_slots_has_a_replay,
    slot_passes_decide_whether_a_group_loses, the_drops_of_slot_courses_are_those_of_replays,
    the_greatest_of_all_slot_passes_is_the_least_number_of_the_group,
    the_greatest_of_the_slot_passes_is_the_least_number,
    the_total_drops_of_slot_courses_are_those_of_replays,
};
