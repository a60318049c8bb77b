//! Tests of the passes that tell which ring loses nothing.
#![tactic(auto)]

#[cfg(test)]
mod event_lists;
#[cfg(test)]
mod group_drops;
#[cfg(test)]
mod paced_frames;
#[cfg(test)]
mod polled_frames;
#[cfg(test)]
mod slots;
