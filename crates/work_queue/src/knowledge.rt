//! What a pass of the queue knows. No value of these types is made.

use crate::Work;
use std::collections::LinkedList;

/// What was handed and fetched with one of the queue's passes.
pub struct PassPart {
    /// The name of the pass: its number, from 0.
    pub name: u64,
    /// The works that it handed, in order.
    pub handed: LinkedList<Work>,
    /// The works that it fetched, in order.
    pub fetched: LinkedList<Work>,
}

/// What a pass knows. One that took in others represents all of them.
pub struct Log {
    /// How many passes the queue has.
    pub all: u64,
    /// The passes that it represents.
    pub parts: LinkedList<PassPart>,
    /// The works that it took out as the queue was closed.
    pub left: LinkedList<Work>,
}
