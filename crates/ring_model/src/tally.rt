//! The statistics of a ring from its notes: each time they were taken, and over the whole run.
ghost use Rattle.std.specs.Prelude.{◌≡◌, ◌+◌, ◌<◌, ◌≤◌, ◌^◌, ◌++◌, List, Option, IfOk, OnOk};
ghost use Rattle.ring_model.specs.Fates.{counts_of, totals_of};
ghost use Rattle.ring_model.specs.Ledgers.{Counts, open_of, plus, taken_at, with_taken};
ghost use Rattle.ring_model.specs.Ring.{AtEachSize, State, after, after_drop, after_due};
ghost use Rattle.ring_model.specs.Ring.{first_state, with_offer};
ghost use Rattle.ring_model.specs.declared.notes.Note.TheVariants as notes;
ghost use Rattle.ring_model.specs.declared.notes.Offer.{Offer};

use crate::{Found, Note, Notes, Stats};
use frame_view::{ItemList, Memory};
use std::alloc::Global;

/// Statistics, in order.
pub type StatsList = ItemList<Stats>;

/// The statistics of a ring, from its notes.
#[derive(Debug, Drop)]
pub struct Tally {
    /// The statistics that each `Counted` note took, in order.
    pub counts: StatsList,
    /// The statistics over the whole run: those that were taken and those left at its end.
    pub totals: Stats,
}

/// The statistics of a ring with this time-out in milliseconds, from its notes, in one pass. They
/// are those that the kernel's `packet_getsockopt` gives at each PACKET_STATISTICS, and their sums.
/// They depend neither on the size of a block nor on the number of blocks.
pub fn tally_notes(alloc: Global, tov: u64, notes: &Notes) -> Result<Tally, Memory>
    ensures counts { IfOk result
        (λ tally. AtEachSize tov (λ size. tally.counts ≡ counts_of size notes.now)) }
    ensures totals { IfOk result
        (λ tally. AtEachSize tov (λ size. tally.totals ≡ totals_of size notes.now)) }
    ensures fewer { IfOk result (λ tally. tally.totals.drops ≤ tally.totals.packets) }
{
    let mut tally = Tally {
        counts: StatsList::new(alloc),
        totals: Stats {
            packets: 0,
            drops: 0,
            freezes: 0,
        },
    };
    let mut ledger = Ledger::new(tov);
    for note in notes.as_slice() {
        tally.take(note, ledger.stats())?;
        ledger.add(note, tov);
    }
    tally.totals = plus(tally.totals, ledger.stats());
    Ok(tally)
}

impl Tally {
    /// Records these statistics if the note takes them.
    fn take(&mut self, note: &Note, stats: Stats) -> Result<(), Memory>
        requires packets { self.old.totals.packets + stats.packets < 2 ^ 64 }
        requires drops { self.old.totals.drops + stats.drops < 2 ^ 64 }
        requires freezes { self.old.totals.freezes + stats.freezes < 2 ^ 64 }
        ensures counts { OnOk result (self.new.counts
            ≡ self.old.counts ++ taken_at note.now stats) }
        ensures totals { OnOk result (self.new.totals ≡ with_taken note.now stats self.old.totals) }
    {
        if matches!(note, Note::Counted) {
            self.counts.push(stats)?;
            self.totals = plus(self.totals, stats);
        }
        Ok(())
    }
}

/// The sums of two statistics.
fn plus(one: Stats, other: Stats) -> Stats
    requires packets { one.packets + other.packets < 2 ^ 64 }
    requires drops { one.drops + other.drops < 2 ^ 64 }
    requires freezes { one.freezes + other.freezes < 2 ^ 64 }
    ensures { result ≡ plus one other }
{
    Stats {
        packets: one.packets + other.packets,
        drops: one.drops + other.drops,
        freezes: one.freezes + other.freezes,
    }
}

/// The open block of a ring.
#[derive(Clone, Copy)]
enum Open {
    /// There is none.
    Frozen,
    /// It has no packet.
    Empty,
    /// It has packets.
    Filled,
}

/// The open block with one more packet.
fn with_packet(block: Open) -> Open
    ensures { (offer : Offer) (now : Option (List Offer)) → block ≡ open_of now
        → result ≡ open_of (with_offer offer now) }
{
    match block {
        Open::Frozen => Open::Frozen,
        Open::Empty | Open::Filled => Open::Filled,
    }
}

/// The state of a ring after its notes, as far as its statistics depend on it.
#[derive(Clone, Copy)]
struct Ledger {
    open: Open,
    /// The moment that the last tick reported, in milliseconds.
    clock: u64,
    /// The moment from which a tick finds the open block's time over. It may be later than any
    /// tick.
    deadline: u128,
    /// Packets kept since the statistics were last taken.
    kept: u64,
    /// Packets dropped since then.
    dropped: u64,
    /// How often the ring froze since then.
    freezes: u64,
}

impl Ledger {
    /// The state before the first note.
    fn new(tov: u64) -> Ledger
        ensures { AtEachSize tov (λ size. Counts result (first_state size)) }
    {
        Ledger {
            open: Open::Empty,
            clock: 0,
            deadline: u128::from(tov),
            kept: 0,
            dropped: 0,
            freezes: 0,
        }
    }

    /// The statistics since they were last taken.
    fn stats(&self) -> Stats
        requires { self.now.kept + self.now.dropped < 2 ^ 64 }
        ensures { result ≡ record {
          packets = self.now.kept + self.now.dropped;
          drops = self.now.dropped;
          freezes = self.now.freezes;
        } }
    {
        Stats {
            packets: self.kept + self.dropped,
            drops: self.dropped,
            freezes: self.freezes,
        }
    }

    /// Takes one more note: the state is then that after it.
    fn add(&mut self, note: &Note, tov: u64)
        requires kept { self.old.kept < 2 ^ 63 }
        requires dropped { self.old.dropped < 2 ^ 63 }
        requires freezes { self.old.freezes < 2 ^ 63 }
        ensures { AtEachSize tov (λ size. (state : State) → Counts self.old state
            → Counts self.new (after size state note.now)) }
    {
        match note {
            Note::Kept { found, .. } => self.keep(*found, tov),
            Note::Dropped { .. } => self.drop_packet(),
            Note::Ticked { ms, found } => self.tick(*ms, *found, tov),
            Note::Refused { .. } => {}
            Note::Counted => self.start_anew(),
            Note::Finished => self.open = Open::Frozen,
        }
    }

    /// Counts a packet that was kept: it went into the open block if none was asked for, otherwise
    /// into the next.
    fn keep(&mut self, found: Found, tov: u64)
        requires { self.old.kept < 2 ^ 63 }
        ensures { AtEachSize tov (λ size. (state : State) (offer : Offer) → Counts self.old state
            → Counts self.new (after size state (notes.Kept offer found))) }
    {
        self.kept += 1;
        match found {
            Found::NotAsked => self.open = with_packet(self.open),
            Found::Free | Found::Held(_) => {
                self.open = Open::Filled;
                self.deadline = u128::from(self.clock) + u128::from(tov);
            }
        }
    }

    /// Counts a packet that was dropped: an open block is retired, and the ring freezes.
    fn drop_packet(&mut self)
        requires dropped { self.old.dropped < 2 ^ 63 }
        requires freezes { self.old.freezes < 2 ^ 63 }
        ensures { (state : State) → Counts self.old state
            → Counts self.new (after_drop state state.now) }
    {
        self.dropped += 1;
        match self.open {
            Open::Frozen => {}
            Open::Empty | Open::Filled => self.freeze(),
        }
    }

    /// Takes a tick.
    fn tick(&mut self, ms: u64, found: Found, tov: u64)
        requires { self.old.freezes < 2 ^ 63 }
        ensures { AtEachSize tov (λ size. (state : State) → Counts self.old state
            → Counts self.new (after size state (notes.Ticked ms found))) }
    {
        let moment = u128::from(ms);
        if moment < self.deadline {
            self.clock = ms;
            return;
        }
        self.time_out(found);
        self.clock = ms;
        self.deadline = moment + u128::from(tov);
    }

    /// Takes a block's time-out: an open block with packets is retired, and the ring freezes where
    /// the next block isn't free.
    fn time_out(&mut self, found: Found)
        requires { self.old.freezes < 2 ^ 63 }
        ensures { (state : State) → Counts self.old state
            → Counts self.new (after_due state state.now found) }
    {
        match (self.open, found) {
            (Open::Empty, _) => {}
            (_, Found::Free) => self.open = Open::Empty,
            (Open::Frozen, _) => {}
            (Open::Filled, _) => self.freeze(),
        }
    }

    /// Closes the open block with none after it, and counts the freeze.
    fn freeze(&mut self)
        requires { self.old.freezes < 2 ^ 63 }
        ensures { self.new ≡ record self.old {
          «open» = Open.Frozen;
          freezes = self.old.freezes + 1;
        } }
    {
        self.open = Open::Frozen;
        self.freezes += 1;
    }

    /// Takes statistics: the counts start anew.
    fn start_anew(&mut self)
        ensures { self.new ≡ record self.old { kept = 0; dropped = 0; freezes = 0 } }
    {
        self.kept = 0;
        self.dropped = 0;
        self.freezes = 0;
    }
}
