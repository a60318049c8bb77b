//! How the members of a group are read: a reader as a text, and laws of the schedule that follows.
#![tactic(auto)]

mod drafts;
mod laws;
mod paces;
mod reader_error;
mod reader_words;
mod readers;
mod values;

pub use laws::{
    a_readers_schedule_is_one, a_timeline_never_goes_back, no_read_is_in_a_stall,
    the_feeds_are_those_of_the_frames, the_last_frame_ends_a_timeline,
};
pub use paces::{Beginnings, MoreFile, MoreFiles, Pace, Phases, Stall, StallList};
pub use reader_error::{ReaderError, ReaderKind};
pub use readers::{PacedReader, read_reader, says_slots};
