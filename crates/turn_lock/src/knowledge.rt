//! What a seat at the table knows. No value of these types is made.
use std::collections::LinkedList;
use std::snapshot::Snapshot;

/// Where a seat is.
pub enum SeatStage {
    /// It has no ticket that isn't served to its end.
    Idle,
    /// Its ticket is served: it has the value.
    Inside,
}

/// One of the lock's seats.
pub struct LockSeat<E> {
    /// The seat's number, from 0.
    pub number: u64,
    /// The list that was stored when it left the last time.
    pub last: LinkedList<E>,
    /// How many tickets it has drawn.
    pub drawn: u64,
}

/// What a seat of the table knows. One that was joined with others represents all of them.
pub struct Knows<E, B> {
    /// What no turn changes of the value.
    pub base: Option<B>,
    /// The list that was stored at first.
    pub first: LinkedList<E>,
    /// The lock's seats that it represents.
    pub places: LinkedList<LockSeat<E>>,
    /// How many seats it may still make.
    pub spare: u64,
    /// The number of the next seat that it makes.
    pub next: u64,
    /// Where it is.
    pub stage: SeatStage,
    /// Its ticket while it is inside; otherwise a ticket that was served once, or is.
    pub ticket: u64,
    /// The list that was stored when its turn began, while it is inside.
    pub seen: LinkedList<E>,
}

/// What the table is given once.
#[derive(Drop)]
pub struct Opening<V> {
    /// The first value.
    pub value: Snapshot<V>,
    /// The number of seats.
    pub seats: u64,
}
