//! How a reader that finds no block sleeps, and how the feeder of its ring wakes it.
//!
//! The reader says that it sleeps, and then looks once more at the word of its next block. The
//! feeder stores that word, and then looks whether the reader sleeps. So whichever of the two
//! comes first, the other one sees it: no wake is lost. The `requires` here are these two orders.
ghost use Rattle.std.specs.Prelude.{◌≡◌, ◌<◌, true, false, length};

use crate::Content;
use crate::handover::{RingSeat, RingTable};
use std::sync::atomic::{AtomicBool, Ordering};

/// Whether the reader of a ring sleeps, or is about to.
#[derive(Drop)]
pub(crate) struct Sleeper {
    /// The word beside the table that says so.
    asleep: AtomicBool,
}

impl Sleeper {
    /// A reader that is awake.
    pub(crate) fn new() -> Sleeper {
        Sleeper {
            asleep: AtomicBool::new(false),
        }
    }

    /// Whether the feeder of this seat has to wake the reader. It has stored the word of its block
    /// of this number, which a reader that says later that it sleeps finds before it does.
    pub(crate) fn is_asleep<B: Content>(&self, seat: &RingSeat<B>, number: u64) -> bool
        requires stored { length seat.now.me.0.retired ≡ number }
    {
        self.asleep.load(Ordering::SeqCst)
    }
}

/// A reader that is about to sleep.
#[derive(Drop)]
pub(crate) struct Rest<'a> {
    /// The word that says that it sleeps.
    sleeper: &'a Sleeper,
    /// Whether it has said so.
    pub(crate) said: bool,
}

impl<'a> Rest<'a> {
    /// The reader has said nothing yet.
    pub(crate) fn new(sleeper: &'a Sleeper) -> Rest<'a>
        ensures { result.said ≡ false }
    {
        Rest {
            sleeper,
            said: false,
        }
    }

    /// Says that the reader sleeps.
    pub(crate) fn say(&mut self)
        ensures { self.new.said ≡ true }
    {
        self.sleeper.asleep.store(true, Ordering::SeqCst);
        self.said = true;
    }

    /// The word of a place. The reader has said that it sleeps: a feeder that stored another word
    /// before it could see this has stored what is found here.
    pub(crate) fn look<B: Content + Drop>(&self, table: &RingTable<B>, place: usize) -> u64
        requires said { self.now.said ≡ true }
        requires within { place < table.now.shared.table_id.words }
    {
        table.shared.peek(place)
    }

    /// Says that the reader is awake.
    pub(crate) fn end(self) {
        self.sleeper.asleep.store(false, Ordering::SeqCst);
    }
}
