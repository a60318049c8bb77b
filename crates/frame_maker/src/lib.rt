//! Frames made from a seed: valid, of many flows, and the same on each run.
#![tactic(auto)]

mod generator;
mod made_frames;

pub use made_frames::make;
