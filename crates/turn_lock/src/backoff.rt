//! What a thread does between unsuccessful polls.

use std::sync::Wait;
use std::thread;
use std::thread::Parker;
use std::time::Duration;

/// The number of polls in a row that a thread makes without a pause while it waits for a turn.
const SPINS: u32 = 10_000;

/// The number of polls in a row that are each followed by a yield while a thread waits for work.
const YIELDS: u32 = 100;

/// How long the first sleep in a row is, in microseconds.
const SHORTEST: u64 = 50;

/// The longest sleep of a thread that waits for work, in microseconds.
const LONGEST: u64 = 3_200;

/// How a thread that polls waits between its unsuccessful polls. All numbers are this project's own
/// choice, and no clause says how long it waits, or that it waits at all.
#[derive(Drop)]
pub struct Backoff {
    /// Whether it waits for work, and not for a turn.
    yields: bool,
    /// How many polls in a row were unsuccessful, those that are followed by sleeps not counted.
    polls: u32,
    /// How long it sleeps next, in microseconds.
    pause: u64,
    /// What it sleeps on. Nobody else has it, so nobody wakes the thread.
    sleeper: Parker,
}

impl Backoff {
    /// The backoff of a thread that waits for its turn at a lock. A turn mostly ends within the
    /// first polls, and one in which the system hands out a page within some microseconds. If it
    /// lasts for 10,000 polls, the system has suspended the thread that has it, and this one sleeps
    /// for 50 microseconds after each poll, so that it takes no processor from that one.
    ///
    /// It never yields: with other processes running, a yield gives the processor away for a whole
    /// time slice.
    pub fn for_turns() -> Backoff {
        Backoff {
            yields: false,
            polls: 0,
            pause: SHORTEST,
            sleeper: Parker::new(),
        }
    }

    /// The backoff of a thread that waits for work. It yields after each of the first 100 polls in
    /// a row, and sleeps after each later one: at first for 50 microseconds, then each time twice
    /// as long as before, up to 3.2 milliseconds. So a ring of a few small blocks is read without a
    /// sleep, and a thread that finds nothing for longer takes no processor from those that have
    /// work.
    pub fn for_work() -> Backoff {
        Backoff {
            yields: true,
            polls: 0,
            pause: SHORTEST,
            sleeper: Parker::new(),
        }
    }

    /// Records a successful poll: the next unsuccessful one is the first in a row.
    pub fn found(&mut self) {
        self.polls = 0;
        self.pause = SHORTEST;
    }

    /// Lets time pass, after an unsuccessful poll.
    pub fn wait<R: Wait>(&mut self, rt: &R) {
        if !self.goes_on() {
            let pause = self.pause();
            self.sleeper.park_timeout(rt, pause);
        }
    }

    /// After an unsuccessful poll, tells whether the thread is to poll again without a sleep. Where
    /// it waits for work, it has then yielded.
    pub fn goes_on(&mut self) -> bool {
        let most = if self.yields { YIELDS } else { SPINS };
        if self.polls >= most {
            return false;
        }
        self.polls += 1;
        if self.yields {
            thread::yield_now();
        }
        true
    }

    /// How long the thread is to sleep now. Where it waits for work, the next sleep in a row is
    /// twice as long.
    pub fn pause(&mut self) -> Duration {
        let pause = self.pause;
        if self.yields {
            self.pause = pause.saturating_mul(2).min(LONGEST);
        }
        Duration::from_micros(pause)
    }
}
