//! Which ring of slots loses nothing, and what one loses: the passes of ring_sizes for rings of
//! TPACKET_V2.
#![tactic(auto)]

mod laws;
mod slot_courses;
mod slot_passes;
mod slot_phases;

pub use laws::{a_course_counts_what_the_slots_count, a_pass_tells_the_least_number_of_slots};
pub use slot_courses::{SlotCourse, slot_losses_at};
pub use slot_passes::{SlotPass, least_slots_at};
pub use slot_phases::{least_slots_of_all, slot_losses_of_all};
