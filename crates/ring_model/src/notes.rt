//! One note for each event of a ring: what was asked of it, what its next status word said, and the
//! result.
ghost use Rattle.std.specs.Prelude.{◌≡◌, ◌≤◌, length, take};

use frame_view::{Frame, ItemList};

/// A frame that a ring is asked to keep.
#[derive(Debug, Drop)]
pub struct Offer {
    /// The frame, without its tag.
    pub frame: Frame,
    /// How many of its bytes are to be kept, at least 1.
    pub snap: u32,
    /// The flow hash, 0 without a key.
    pub hash: u32,
    /// The packet type, 0 to 3.
    pub pkttype: u8,
}

impl Offer {
    /// The bytes of the frame that are to be kept.
    pub fn captured(&self) -> &[u8]
        requires { self.now.snap ≤ length self.now.frame.bytes }
        ensures { result.now ≡ take self.now.snap self.now.frame.bytes }
    {
        let (kept, _) = self.frame.bytes.as_slice().split_at(self.snap as usize);
        kept
    }
}

/// What a load of the next block's status word found.
#[derive(Clone, Copy, Debug, PartialEq, Eq)]
pub enum Found {
    /// No next block was needed, and no word was loaded.
    NotAsked,
    /// The next block is the ring's.
    Free,
    /// The next block is still the reader's, with the number that it was retired with.
    Held(u64),
}

/// One event of a ring.
#[derive(Debug, Drop)]
pub enum Note {
    /// A packet was kept.
    Kept {
        offer: Offer,
        found: Found,
    },
    /// A packet found no room and was handed back; nothing changed. `need` is in bytes, `number` is
    /// that of the block which the reader still has.
    Refused {
        cpu: u32,
        index: u32,
        need: u32,
        number: u64,
    },
    /// A packet found no room and was dropped.
    Dropped {
        cpu: u32,
        index: u32,
        need: u32,
        number: u64,
    },
    /// The clock went on to a moment, in milliseconds.
    Ticked {
        ms: u64,
        found: Found,
    },
    /// The statistics were taken, and start anew.
    Counted,
    /// The ring was closed. It is the last note.
    Finished,
}

/// The notes of a ring, in order.
pub type Notes = ItemList<Note>;

/// The result of an attempt to keep a packet.
#[derive(Debug, Drop)]
pub enum Tried {
    /// It was kept.
    Kept,
    /// It found no room; the offer comes back, and the ring is as it was.
    Refused(Offer),
}

/// The result for a packet that a ring had to take or drop.
#[derive(Clone, Copy, Debug, PartialEq, Eq)]
pub enum Put {
    /// It was kept.
    Kept,
    /// It was dropped: the reader still has the block of this number, in whose place it would go.
    Dropped(u64),
}

/// Out of memory for a note. The offer comes back, and the ring is as it was.
#[derive(Debug, Drop)]
pub struct Unput {
    /// The offer that wasn't put.
    pub offer: Offer,
}

/// The statistics of a ring (`struct tpacket_stats_v3`), since they were last taken.
#[derive(Clone, Copy, Debug, PartialEq, Eq)]
pub struct Stats {
    /// Packets kept or dropped.
    pub packets: u64,
    /// Packets dropped.
    pub drops: u64,
    /// How often the ring froze.
    pub freezes: u64,
}
