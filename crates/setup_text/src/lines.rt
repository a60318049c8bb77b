//! What is done in a replay, line by line.
use frame_view::ItemList;

/// One line of a schedule.
#[derive(Clone, Copy, Debug, PartialEq, Eq)]
pub enum Line {
    /// The CPU of this number gets its next frame, if it has one.
    Feed(u32),
    /// The reader of this member makes one step.
    Read(u32),
    /// The clock goes on to this moment, in milliseconds, for every member.
    Tick(u64),
    /// The statistics of this member are taken.
    Stats(u32),
}

/// Lines, in order.
pub type Schedule = ItemList<Line>;
