//! What a group loses in which packets roll over from one ring to the next.
#![tactic(auto)]

mod group_losses;
mod group_rings;
mod group_walks;
mod member_rests;

pub use group_losses::group_losses_of_all;
pub use group_rings::{GroupRings, Route};
pub use group_walks::group_drops_at;
