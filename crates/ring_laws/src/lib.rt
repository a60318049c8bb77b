//! Laws of runs of a receive ring: what shows that nothing was found held, and where a run may be
//! cut.
#![tactic(auto)]

mod laws;

pub use laws::{
    a_new_ring_is_brought_to_the_state_of_any_ring, a_ring_of_a_run_is_within_its_bounds,
    a_ring_that_counted_no_freeze_found_none_held, a_run_may_be_cut_at_a_pause,
    rings_alike_go_on_alike,
};
