//! The points of a run at which a test may hold a thread.

/// A point of a run with threads.
#[derive(Clone, Copy, Debug, PartialEq, Eq)]
pub enum Point {
    /// The frame of this index of a CPU's capture is delivered next. Its feeder is in no turn.
    Deliver {
        cpu: u32,
        index: u32,
    },
    /// This moment is reported to the members next, in milliseconds.
    Ticking {
        ms: u64,
    },
    /// The reader of a member released a block, the `blocks`-th so far.
    Released {
        member: u32,
        blocks: u64,
    },
    /// A worker of a pool decodes the block of this number of a member next. No feeder, timer or
    /// reader reaches this point.
    Decoding {
        worker: u32,
        member: u32,
        number: u64,
    },
}

/// What the threads of a run call at each point. It changes no result.
pub trait Gate {
    /// The thread that calls this is at the point.
    fn at(&self, point: Point);
}

/// A gate that holds nobody.
pub struct NoGate;

impl Gate for NoGate {
    fn at(&self, _point: Point) {}
}
