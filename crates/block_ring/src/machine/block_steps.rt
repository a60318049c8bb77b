//! How the machine opens, fills and retires its blocks.
ghost use Rattle.std.specs.Prelude.{◌≡◌, ◌+◌, ◌^◌, ◌<◌, ◌≤◌, ◌≢◌, ◌∷◌, ℕ, [], IsTrue, None, Some};
ghost use Rattle.ring_model.specs.KnownReleases.{has_room};
ghost use Rattle.ring_model.specs.Ring.{HasRoom, State, after, open_count, status_of};
ghost use Rattle.ring_model.specs.Sizes.{need_of};
ghost use Rattle.ring_model.specs.declared.notes.Found.TheVariants as found;
ghost use Rattle.ring_model.specs.declared.notes.Note.TheVariants as notes;
ghost use Rattle.tp_layout.specs.Blocks.{is_status};
ghost use Rattle.tp_layout.specs.Requests.{numbers_of, room_of, size_of};
ghost use Rattle.tp_layout.specs.BlockWrites.{IsWritable};

use super::Machine;
use crate::open_block::OpenBlock;
use ring_model::{Found, Offer, need};
use ring_words::FeederEnd;
use tp_layout::{Block, a_shape_is_sound};

/// TP_STATUS_USER of `linux/if_packet.h`: the block is the reader's.
const USER: u32 = 1;

/// TP_STATUS_LOSING: packets were dropped since the statistics were taken.
const LOSING: u32 = 4;

/// TP_STATUS_BLK_TMO: the block's time was over.
const BLK_TMO: u32 = 32;

impl<E: FeederEnd<Block> + Drop> Machine<E> {
    ghost use Rattle.block_ring.specs.Machines.{At, IsAt, IsFew, KeepsEnd, keep_first, open_next};
    ghost use Rattle.block_ring.specs.Machines.{retire_now};

    /// How many blocks are open: 1, or 0 if the ring is frozen.
    pub(super) fn open_blocks(&self) -> u64
        ghost state: { State }
        requires at { IsAt E.feed 0 state self.now }
        ensures { result ≡ open_count state.now }
    {
        match self.current {
            Some(_) => 1,
            None => 0,
        }
    }

    /// Whether the packet of an offer goes into the open block.
    pub(super) fn has_room(&self, offer: &Offer) -> bool
        ghost state: { State }
        requires at { IsAt E.feed 0 state self.now }
        requires room { need_of offer.now.snap ≤ room_of self.now.shape }
        ensures { result ≡ has_room (size_of self.now.shape) (need_of offer.now.snap) state.now }
    {
        a_shape_is_sound(&self.shape);
        match &self.current {
            Some(block) => block.has_room(&self.shape, need(offer.snap)),
            None => false,
        }
    }

    /// Keeps a packet in the open block, which has room for it.
    pub(super) fn keep(&mut self, offer: &Offer)
        ghost state: { State }
        requires at { IsAt E.feed 0 state self.old }
        requires few { self.old.kept < 2 ^ 63 }
        requires writable { IsWritable offer.now }
        requires room { HasRoom (size_of self.old.shape) (need_of offer.now.snap) state.now }
        ensures at { IsAt E.feed 0
            (after (size_of self.old.shape) state (notes.Kept offer.now found.NotAsked)) self.new }
        ensures same { (self.new.shape ≡ self.old.shape) × (self.new.notes ≡ self.old.notes) }
        ensures end { self.new.end ≡ self.old.end }
    {
        if let Some(block) = &mut self.current {
            block.add(&self.shape, offer);
        }
        self.kept += 1;
    }

    /// Retires the open block, which has packets, by time-out or not. A frozen ring has none to
    /// retire.
    pub(super) fn retire_open(&mut self, timed_out: bool)
        ghost at: { At }
        requires at { IsAt E.feed at.in_hand at.state self.old }
        requires few { IsFew self.old }
        requires packets { at.state.now ≢ Some [] }
        ensures at { IsAt E.feed at.in_hand (retire_now timed_out at.state) self.new }
        ensures end { KeepsEnd (E.feed self.old.end) (E.feed self.new.end) }
        ensures holds { (E.feed self.new.end).holds ≡ (E.feed self.old.end).holds }
        ensures found { (E.feed self.new.end).found ≡ (E.feed self.old.end).found }
        ensures same { self.new ≡ record self.old { end = self.new.end; current = None } }
    {
        let status = self.status(timed_out);
        if let Some(block) = self.current.take() {
            let block = block.close(&self.shape, status);
            self.end.retire(block, status);
        }
    }

    /// The status of a block that is retired now: TP_STATUS_USER, TP_STATUS_BLK_TMO if its time is
    /// over, and TP_STATUS_LOSING if packets were dropped since the statistics were taken.
    fn status(&self, timed_out: bool) -> u32
        ghost state: { State }
        requires { self.now.dropped ≡ state.dropped }
        ensures value { result ≡ status_of timed_out state }
        ensures lawful { IsTrue (is_status result) }
    {
        let time_out = if timed_out { BLK_TMO } else { 0 };
        let losing = if self.dropped == 0 { 0 } else { LOSING };
        USER + time_out + losing
    }

    /// Opens a block that the end gave, and keeps a packet in it.
    pub(super) fn keep_next(&mut self, block: Block, offer: &Offer) -> Found
        ghost state: { State }
        requires at { IsAt E.feed 1 state self.old }
        requires few { IsFew self.old }
        requires none { state.now ≡ None }
        requires kind { numbers_of block.shape ≡ numbers_of self.old.shape }
        requires room { need_of offer.now.snap ≤ room_of self.old.shape }
        requires writable { IsWritable offer.now }
        ensures free { result ≡ found.Free }
        ensures at { IsAt E.feed 0 (keep_first (size_of self.old.shape) offer.now state) self.new }
        ensures same { (self.new.shape ≡ self.old.shape) × (self.new.notes ≡ self.old.notes) }
        ensures end { self.new.end ≡ self.old.end }
    {
        self.open_next(block);
        self.keep(offer);
        Found::Free
    }

    /// Opens a block that the end gave.
    pub(super) fn open_next(&mut self, block: Block)
        ghost state: { State }
        requires at { IsAt E.feed 1 state self.old }
        requires few { IsFew self.old }
        requires none { state.now ≡ None }
        requires kind { numbers_of block.shape ≡ numbers_of self.old.shape }
        ensures at { IsAt E.feed 0 (open_next (size_of self.old.shape) state) self.new }
        ensures same { self.new ≡ record self.old {
          current = self.new.current;
          opened = self.old.opened + 1;
          deadline = self.new.deadline;
        } }
    {
        self.opened += 1;
        self.current = Some(OpenBlock::new(block, &self.shape, self.opened));
        self.deadline = self.clock + self.shape.tov();
    }
}
