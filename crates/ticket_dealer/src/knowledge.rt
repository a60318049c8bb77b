//! What a seat at the table knows. No value of this type is made.
use std::collections::LinkedList;

/// What a seat of the table knows. One that was joined with others represents all of them.
pub struct Hand {
    /// The number of feeders at the start.
    pub feeders: u64,
    /// How many of the dealer's seats it represents.
    pub shares: u64,
    /// How many calls of `done` are still to come from it: one from a feeder's seat that has made
    /// none.
    pub owes: u64,
    /// How many calls of `done` it has made.
    pub ended: u64,
    /// The tickets that it has drawn, in order.
    pub drawn: LinkedList<u64>,
    /// The number of live feeders that it found the last time, or at first all of them.
    pub live: u64,
}
