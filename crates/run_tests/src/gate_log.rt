//! A gate that records each point of a run, and lets threads wait for one another.
use cpu_feeders::{Gate, Point};
use std::sync::atomic::{AtomicU64, Ordering};
use std::thread;

/// How often a thread polls before it gives up.
const POLLS: u64 = 100_000_000;

/// A gate that records each point of a run over two CPUs and two members, by the thread that
/// reaches it: one decimal digit for each, in order.
///
/// A worker goes on from its first block, and the frame of index 2 of a CPU is delivered, once each
/// worker of a pool was to decode a block. So no pool of fewer workers can get through, nor one
/// that decodes at the end.
#[derive(Drop)]
pub(crate) struct GateLog {
    /// The sum of the bits of the workers that are waited for: 0 for none, 1 for worker 0, 3 for
    /// two.
    all: u64,
    /// The frames of each CPU that were about to be delivered, from 1.
    delivered: [AtomicU64; 2],
    /// The moments that were about to be reported.
    told: AtomicU64,
    /// How many blocks each member had released, at each release.
    released: [AtomicU64; 2],
    /// A one at the decimal place of its number for each block of a member that was about to be
    /// decoded.
    decoded: [AtomicU64; 2],
    /// The sum of the bits of the workers that were to decode a block.
    came: AtomicU64,
    /// How many other points there were.
    others: AtomicU64,
    /// How often a thread gave up.
    given_up: AtomicU64,
}

/// What was recorded of each CPU, of the timer, of each member's releases and of its blocks that
/// were decoded, and of the workers; how many other points there were, and how often a thread gave
/// up.
pub(crate) type Points = ([u64; 2], u64, [u64; 2], [u64; 2], u64, u64, u64);

/// Two words of which each is 0.
fn zeros() -> [AtomicU64; 2] {
    [AtomicU64::new(0), AtomicU64::new(0)]
}

/// What two words hold.
fn values([first, second]: &[AtomicU64; 2]) -> [u64; 2] {
    [first.load(Ordering::SeqCst), second.load(Ordering::SeqCst)]
}

/// Puts a digit after those of a word. Only one thread does so for each word.
fn put_digit(word: &AtomicU64, digit: u64) {
    let digits = word.load(Ordering::SeqCst);
    word.store(
        digits.saturating_mul(10).saturating_add(digit),
        Ordering::SeqCst,
    );
}

/// A one at the decimal place of a block's number, which is from 1 to 4.
fn place_of(number: u64) -> u64 {
    match number {
        1 => 1,
        2 => 10,
        3 => 100,
        4 => 1_000,
        _ => 10_000,
    }
}

impl GateLog {
    /// A gate that nobody has come to, and that waits for the workers with this sum of bits.
    pub(crate) fn new(all: u64) -> GateLog {
        GateLog {
            all,
            delivered: zeros(),
            told: AtomicU64::new(0),
            released: zeros(),
            decoded: zeros(),
            came: AtomicU64::new(0),
            others: AtomicU64::new(0),
            given_up: AtomicU64::new(0),
        }
    }

    /// What was recorded.
    pub(crate) fn points(&self) -> Points {
        (
            values(&self.delivered),
            self.told.load(Ordering::SeqCst),
            values(&self.released),
            values(&self.decoded),
            self.came.load(Ordering::SeqCst),
            self.others.load(Ordering::SeqCst),
            self.given_up.load(Ordering::SeqCst),
        )
    }

    /// Waits until a word is at least `least`, or gives up.
    fn wait_for(&self, word: &AtomicU64, least: u64) {
        for _ in 0..POLLS {
            if word.load(Ordering::SeqCst) >= least {
                return;
            }
            thread::yield_now();
        }
        self.given_up.fetch_add(1, Ordering::SeqCst);
    }

    /// Waits until the first frame of CPU 0 was to be delivered, or gives up.
    pub(crate) fn wait_for_a_frame(&self) {
        let [first, _] = &self.delivered;
        self.wait_for(first, 1);
    }

    /// Records the digit of a thread, if it is one of the two.
    fn put(&self, words: &[AtomicU64; 2], thread: u32, digit: u64) {
        match words.get(thread as usize) {
            Some(word) => put_digit(word, digit),
            None => self.put_other(),
        }
    }

    /// Records the block that a worker is to decode.
    fn put_block(&self, worker: u32, member: u32, number: u64) {
        let bit = match worker {
            0 => 1,
            1 => 2,
            _ => 4,
        };
        self.came.fetch_or(bit, Ordering::SeqCst);
        match self.decoded.get(member as usize) {
            Some(word) => {
                word.fetch_add(place_of(number), Ordering::SeqCst);
            }
            None => self.put_other(),
        }
    }

    /// Records another point.
    fn put_other(&self) {
        self.others.fetch_add(1, Ordering::SeqCst);
    }

    /// Records a point.
    fn record(&self, point: Point) {
        match point {
            Point::Deliver { cpu, index } => self.put(&self.delivered, cpu, u64::from(index) + 1),
            Point::Ticking { ms } => put_digit(&self.told, ms),
            Point::Released { member, blocks } => self.put(&self.released, member, blocks),
            Point::Decoding {
                worker,
                member,
                number,
            } => self.put_block(worker, member, number),
        }
    }
}

impl Gate for GateLog {
    fn at(&self, point: Point) {
        self.record(point);
        if matches!(
            point,
            Point::Deliver { index: 2, .. } | Point::Decoding { .. }
        ) {
            self.wait_for(&self.came, self.all);
        }
    }
}
