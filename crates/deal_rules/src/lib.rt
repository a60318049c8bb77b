//! What comes of each frame that is fed, and what each member of a group is given.
#![tactic(auto)]

mod marks;

pub use marks::Mark;
