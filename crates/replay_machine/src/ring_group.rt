//! The members of a group on one thread, with the tickets that its arrivals draw.
ghost use Rattle.std.specs.Prelude.{◌≡◌, ◌+◌, ◌^◌, ◌<◌, ◌≤◌, length, map, slice_index_or};
ghost use Rattle.std.specs.Prelude.{slice_set, All, OnOk};
ghost use Rattle.replay_machine.specs.GroupLaws.{made_by_more, made_by_none, room_for_fewer};
ghost use Rattle.replay_machine.specs.RingGroups.{HasRoomFor, IsDrawn, IsMadeBy, TakesAt};
ghost use Rattle.receive_ring.specs.Replay.{no_ring, noted_at};
ghost use Rattle.run_reports.specs.RingSteps.{read_by, ticked};
ghost use Rattle.ring_model.specs.Unreleased.{last_moment};
ghost use Rattle.ring_model.specs.declared.notes.Note.TheVariants.{Counted};

use crate::Setting;
use crate::member::RingMember;
use fanout_group::{Desk, Group};
use frame_view::Memory;
use receive_ring::ReceiveRing;
use ring_model::{Offer, Put, Tried, Unput};
use std::marker::Model;

/// The members of a group, which stay the same for a whole run. Contracts see the rings of the
/// members and the next ticket.
#[derive(Drop)]
pub(crate) struct RingGroup<R: ReceiveRing, K: Setting> {
    /// The members, from 0 up.
    pub(crate) members: Vec<RingMember<R, K>>,
    /// The number of the next arrival in mode `Lb`.
    pub(crate) ticket: u64,
}

impl<R: ReceiveRing, K: Setting> Model for RingGroup<R, K> {
    ghost use Rattle.replay_machine.specs.RingGroups.{GroupValue};

    ghost Value = { GroupValue };

    ghost view = { λ group. record { members = group.members.items; ticket = group.ticket } };
}

impl<R: ReceiveRing, K: Setting> Desk for RingGroup<R, K> {
    ghost takes = { λ group member offer. TakesAt group.members member offer };

    ghost room = { λ group n. HasRoomFor n group.members };

    ghost made = { λ offer tries old new. IsMadeBy (R.steps K.shape) offer tries old new };

    fn try_put(&mut self, member: u32, offer: Offer) -> Result<Tried, Unput> {
        self.members[member as usize].try_put(offer)
    }

    #[inline(always)]
    fn put(&mut self, member: u32, offer: Offer) -> Result<Put, Unput> {
        self.members[member as usize].put(offer)
    }

    ghost none_made = { λ offer group. made_by_none (R.steps K.shape) offer group };

    ghost more_made = { λ offer tries more first next last one two.
        made_by_more (R.steps K.shape) offer tries more first next last one two };

    ghost less_room = { λ group less more le room. room_for_fewer group.members less more le room };
}

impl<R: ReceiveRing, K: Setting> Group for RingGroup<R, K> {
    ghost may_draw = { λ group. group.ticket + 1 < 2 ^ 64 };

    ghost drew = { λ ticket old new. IsDrawn ticket old new };

    fn ticket(&mut self) -> u64 {
        let ticket = self.ticket;
        self.ticket += 1;
        ticket
    }

    /// On one thread nobody waits to hear of it.
    fn announce(&self, _offer: &Offer) {}
}

impl<R: ReceiveRing, K: Setting> RingGroup<R, K> {
    /// The reader of a member makes one step, if there is such a member.
    pub(crate) fn read(&mut self, member: usize) -> Result<(), Memory>
        ensures { OnOk result (self.new ≡ record self.old {
          members = slice_set self.old.members member
              (read_by (R.steps K.shape) (slice_index_or self.old.members member no_ring));
        }) }
    {
        if member < self.members.len() {
            self.members[member].read()?;
        }
        Ok(())
    }

    /// The clock goes on for every member.
    pub(crate) fn tick(&mut self, ms: u64) -> Result<(), Memory>
        requires later { All (λ ring. last_moment 0 ring.notes ≤ ms) self.old.members }
        requires small { ms ≤ 2 ^ 63 }
        requires few { All (λ ring. length ring.notes < 2 ^ 39) self.old.members }
        ensures { OnOk result (self.new ≡ record self.old {
          members = map (ticked (R.steps K.shape) ms) self.old.members;
        }) }
    {
        for member in 0..self.members.len() {
            self.members[member].tick(ms)?;
        }
        Ok(())
    }

    /// Takes the statistics of a member, if there is such a member.
    pub(crate) fn take_stats(&mut self, member: usize) -> Result<(), Memory>
        requires few { All (λ ring. length ring.notes < 2 ^ 39) self.old.members }
        ensures { OnOk result (self.new ≡ record self.old {
          members = noted_at member Counted self.old.members;
        }) }
    {
        if member < self.members.len() {
            self.members[member].take_stats()?;
        }
        Ok(())
    }
}
