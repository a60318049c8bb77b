//! The ring as a machine, in the manner of the kernel's `tpacket_rcv` with TPACKET_V3.
//!
//! It begins with block 1 open. A packet goes after the others of the open block while it fits; one
//! that ends exactly where the block ends still fits, which isn't so in the kernel. If it doesn't
//! fit the block is retired, which hands it to the reader, and the machine looks once at the place
//! of the next block. If that block is free it is opened and the packet is its first. If the reader
//! still has it the ring freezes: no block is open, and the packet is dropped. In a frozen ring
//! each packet looks again, and the first that finds the next block free thaws the ring. For a
//! packet that is only tried the machine looks before anything is retired, so that a refusal leaves
//! all as it was; the kernel tests the room of a member of a fanout group by other rules.
//!
//! A tick brings the clock forward. At the deadline the open block's time is over. If it has
//! packets it is retired, and the next one is opened, or the ring freezes; if it has none it stays.
//! A frozen ring looks again. Each opening, and each tick at the deadline, sets the deadline one
//! time-out after the clock: the kernel has a timer for that, which starts anew once more after a
//! packet froze the ring.
//!
//! In the end an open block that has packets is retired. An empty one is discarded.
ghost use Rattle.std.specs.Prelude.{◌≡◌, ◌+◌, ◌^◌, ◌<◌, ◌≤◌, ◌≢◌, ◌∷◌, ℕ, [], true, false, IsTrue};
ghost use Rattle.std.specs.Prelude.{None, Some};
ghost use Rattle.ring_model.specs.KnownReleases.{found_for, has_room, is_empty_block, look, put_by};
ghost use Rattle.ring_model.specs.KnownReleases.{tick_note, try_by};
ghost use Rattle.ring_model.specs.Fates.{stats_of};
ghost use Rattle.ring_model.specs.Ring.{HasRoom, MayFollow, State, after, after_due, first_state};
ghost use Rattle.ring_model.specs.Ring.{open_count, status_of};
ghost use Rattle.ring_model.specs.Sizes.{need_of};
ghost use Rattle.ring_model.specs.declared.notes.Found.TheVariants as found;
ghost use Rattle.ring_model.specs.declared.notes.Note.TheVariants as notes;
ghost use Rattle.ring_words.specs.Counts.{Rose};
ghost use Rattle.block_ring.specs.CallNotes.{CountsHeld, FoundAsNoted, IsAsked, WasHeld};
ghost use Rattle.block_ring.specs.CallNotes.{deadline_after, found_with};
ghost use Rattle.tp_layout.specs.Blocks.{is_status};
ghost use Rattle.tp_layout.specs.Requests.{numbers_of, room_of, size_of};
ghost use Rattle.tp_layout.specs.BlockWrites.{IsWritable};

mod block_steps;

use crate::open_block::OpenBlock;
use ring_model::{Found, Note, Offer, Stats, due};
use ring_words::{FeederEnd, Next};
use tp_layout::{Block, Shape, a_shape_is_sound};

/// A ring between two notes.
#[derive(Drop)]
pub(crate) struct Machine<E> {
    /// The shape of its blocks.
    pub(crate) shape: Shape,
    /// Its end of the ring.
    pub(crate) end: E,
    /// The open block; none if the ring is frozen.
    current: Option<OpenBlock>,
    /// The number of the last block that was opened.
    opened: u64,
    /// The moment that the last tick reported, in milliseconds.
    clock: u64,
    /// The moment from which a tick is due, in milliseconds.
    deadline: u64,
    /// Packets kept since the statistics were last taken.
    kept: u64,
    /// Packets dropped since then.
    dropped: u64,
    /// How often the ring froze since then.
    freezes: u64,
    /// What happened so far, with room for one more note, so that closing the ring takes no memory.
    pub(crate) notes: Vec<Note>,
}

impl<E: FeederEnd<Block> + Drop> Machine<E> {
    ghost use Rattle.block_ring.specs.Machines.{At, IsAt, IsFew, IsFresh, KeepsEnd, keep_first};
    ghost use Rattle.block_ring.specs.Machines.{open_next, retire_now};
    ghost use Rattle.block_ring.specs.Texts.{RepresentsTexts};

    /// A machine with block 1 open. The end is fresh, so its first look finds that block free.
    pub(crate) fn new(shape: Shape, mut end: E, notes: Vec<Note>) -> Machine<E>
        requires { IsFresh shape (E.feed end) }
        ensures at { IsAt E.feed 0 (first_state (size_of shape)) result }
        ensures shape { result.shape ≡ shape }
        ensures notes { result.notes ≡ notes }
        ensures clock { result.clock ≡ 0 }
        ensures end { E.feed result.end ≡ record (E.feed end) { given = 1 } }
        ensures found { FoundAsNoted [] (E.feed result.end).found }
    {
        a_shape_is_sound(&shape);
        match end.next() {
            Next::Free { block, .. } => Machine {
                shape,
                end,
                current: Some(OpenBlock::new(block, &shape, 1)),
                opened: 1,
                clock: 0,
                deadline: shape.tov(),
                kept: 0,
                dropped: 0,
                freezes: 0,
                notes,
            },
            Next::Held(_) => unreachable!(),
        }
    }

    /// Puts a packet: reports that no next block was needed, or what the look at it found. If it
    /// was held the packet is dropped, and the ring is frozen.
    #[inline(always)]
    pub(crate) fn put(&mut self, offer: &Offer) -> Found
        ghost state: { State }
        requires at { IsAt E.feed 0 state self.old }
        requires few { IsFew self.old }
        requires room { need_of offer.now.snap ≤ room_of self.old.shape }
        requires writable { IsWritable offer.now }
        ensures at { IsAt E.feed 0
            (after (size_of self.old.shape) state (put_by offer.now result)) self.new }
        ensures may_follow { MayFollow (size_of self.old.shape) state (put_by offer.now result) }
        ensures looked { WasHeld result
            (Rose (E.feed self.old.end).holds (E.feed self.new.end).holds) }
        ensures count { CountsHeld result
            (E.feed self.old.end).holds (E.feed self.new.end).holds }
        ensures number { (E.feed self.new.end).found
            ≡ found_with result (E.feed self.old.end).found }
        ensures exact { (released : ℕ) → (E.feed self.old.end).freed ≡ Some released →
            result ≡ found_for (size_of self.old.shape) released state (need_of offer.now.snap) }
        ensures end { KeepsEnd (E.feed self.old.end) (E.feed self.new.end) }
        ensures same { (self.new.shape ≡ self.old.shape) × (self.new.notes ≡ self.old.notes) }
    {
        if self.has_room(offer) {
            self.keep(offer);
            return Found::NotAsked;
        }
        let open = self.open_blocks();
        self.retire_open(false);
        let next = self.end.next();
        match next {
            Next::Free { block, .. } => self.keep_next(block, offer),
            Next::Held(number) => {
                self.dropped += 1;
                self.freezes += open;
                Found::Held(number)
            }
        }
    }

    /// Tries a packet, as `put` does, but looks before anything is retired: if the next block was
    /// held the packet is refused, and all is as before.
    pub(crate) fn try_put(&mut self, offer: &Offer) -> Found
        ghost state: { State }
        requires at { IsAt E.feed 0 state self.old }
        requires few { IsFew self.old }
        requires room { need_of offer.now.snap ≤ room_of self.old.shape }
        requires writable { IsWritable offer.now }
        ensures at { IsAt E.feed 0
            (after (size_of self.old.shape) state (try_by offer.now result)) self.new }
        ensures may_follow { MayFollow (size_of self.old.shape) state (try_by offer.now result) }
        ensures looked { WasHeld result
            (Rose (E.feed self.old.end).holds (E.feed self.new.end).holds) }
        ensures count { CountsHeld result
            (E.feed self.old.end).holds (E.feed self.new.end).holds }
        ensures number { (E.feed self.new.end).found
            ≡ found_with result (E.feed self.old.end).found }
        ensures exact { (released : ℕ) → (E.feed self.old.end).freed ≡ Some released →
            result ≡ found_for (size_of self.old.shape) released state (need_of offer.now.snap) }
        ensures end { KeepsEnd (E.feed self.old.end) (E.feed self.new.end) }
        ensures same { (self.new.shape ≡ self.old.shape) × (self.new.notes ≡ self.old.notes) }
    {
        if self.has_room(offer) {
            self.keep(offer);
            return Found::NotAsked;
        }
        match self.end.next() {
            Next::Free { block, .. } => {
                self.retire_open(false);
                self.keep_next(block, offer)
            }
            Next::Held(number) => Found::Held(number),
        }
    }

    /// Brings the clock forward to a moment, in milliseconds, and reports what was found if a next
    /// block was needed.
    pub(crate) fn tick(&mut self, ms: u64) -> Found
        ghost state: { State }
        requires at { IsAt E.feed 0 state self.old }
        requires few { IsFew self.old }
        requires later { state.clock ≤ ms }
        requires small { ms ≤ 2 ^ 63 }
        ensures at { IsAt E.feed 0
            (after (size_of self.old.shape) state (notes.Ticked ms result)) self.new }
        ensures may_follow { MayFollow (size_of self.old.shape) state (notes.Ticked ms result) }
        ensures looked { WasHeld result
            (Rose (E.feed self.old.end).holds (E.feed self.new.end).holds) }
        ensures count { CountsHeld result
            (E.feed self.old.end).holds (E.feed self.new.end).holds }
        ensures number { (E.feed self.new.end).found
            ≡ found_with result (E.feed self.old.end).found }
        ensures exact { (released : ℕ) → (E.feed self.old.end).freed ≡ Some released →
            notes.Ticked ms result ≡ tick_note (size_of self.old.shape) released state ms }
        ensures end { KeepsEnd (E.feed self.old.end) (E.feed self.new.end) }
        ensures same { (self.new.shape ≡ self.old.shape) × (self.new.notes ≡ self.old.notes) }
    {
        self.clock = ms;
        if !due(self.deadline, ms) {
            return Found::NotAsked;
        }
        self.deadline = ms + self.shape.tov();
        let idle = self.is_idle();
        if idle {
            return Found::NotAsked;
        }
        self.time_out()
    }

    /// Handles the deadline: the open block has packets and its time is over, or the ring is
    /// frozen.
    fn time_out(&mut self) -> Found
        ghost state: { State }
        requires at { IsAt E.feed 0 state self.old }
        requires few { IsFew self.old }
        requires packets { is_empty_block state.now ≡ false }
        ensures at { IsAt E.feed 0 (record (after_due state state.now result) {
          deadline = deadline_after (size_of self.old.shape) state result;
        }) self.new }
        ensures looked { WasHeld result
            (Rose (E.feed self.old.end).holds (E.feed self.new.end).holds) }
        ensures count { CountsHeld result
            (E.feed self.old.end).holds (E.feed self.new.end).holds }
        ensures number { (E.feed self.new.end).found
            ≡ found_with result (E.feed self.old.end).found }
        ensures asked { IsAsked (size_of self.old.shape) state result }
        ensures exact { (released : ℕ) → (E.feed self.old.end).freed ≡ Some released →
            result ≡ look (size_of self.old.shape) released state }
        ensures end { KeepsEnd (E.feed self.old.end) (E.feed self.new.end) }
        ensures same { (self.new.shape ≡ self.old.shape) × (self.new.notes ≡ self.old.notes) }
    {
        let open = self.open_blocks();
        self.retire_open(true);
        match self.end.next() {
            Next::Free { block, .. } => {
                self.open_next(block);
                Found::Free
            }
            Next::Held(number) => {
                self.freezes += open;
                Found::Held(number)
            }
        }
    }

    /// Whether the open block has no packet.
    fn is_idle(&self) -> bool
        ghost state: { State }
        requires at { IsAt E.feed 0 state self.now }
        ensures { result ≡ is_empty_block state.now }
    {
        match &self.current {
            Some(block) => block.is_empty(),
            None => false,
        }
    }

    /// The moment that the last tick reported, in milliseconds.
    pub(crate) fn clock(&self) -> u64
        ensures { result ≡ self.now.clock }
    {
        self.clock
    }

    /// Takes the statistics, which start anew.
    pub(crate) fn take_stats(&mut self) -> Stats
        ghost state: { State }
        requires at { IsAt E.feed 0 state self.old }
        requires few { IsFew self.old }
        ensures at { IsAt E.feed 0 (after (size_of self.old.shape) state notes.Counted) self.new }
        ensures stats { result ≡ stats_of state }
        ensures few { IsFew self.new }
        ensures same { (self.new.shape ≡ self.old.shape) × (self.new.notes ≡ self.old.notes) }
        ensures end { self.new.end ≡ self.old.end }
    {
        let stats = Stats {
            packets: self.kept + self.dropped,
            drops: self.dropped,
            freezes: self.freezes,
        };
        self.kept = 0;
        self.dropped = 0;
        self.freezes = 0;
        stats
    }

    /// Closes the ring, and gives its end and the notes back: an open block that has packets is
    /// retired, an empty one is discarded.
    pub(crate) fn finish(mut self) -> (E, Vec<Note>)
        ghost state: { State }
        requires at { IsAt E.feed 0 state self }
        requires few { IsFew self }
        ensures texts { RepresentsTexts self.shape
            (after (size_of self.shape) state notes.Finished).done (E.feed result.0) }
        ensures end { KeepsEnd (E.feed self.end) (E.feed result.0) }
        ensures holds { (E.feed result.0).holds ≡ (E.feed self.end).holds }
        ensures found { (E.feed result.0).found ≡ (E.feed self.end).found }
        ensures notes { result.1 ≡ self.notes }
    {
        if self.is_idle() {
            return (self.end, self.notes);
        }
        self.retire_open(false);
        (self.end, self.notes)
    }
}
