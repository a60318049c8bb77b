//! A desk whose members are numbers: how many more packets each has room for.
ghost use Rattle.std.specs.Prelude.{◌≡◌, ◌+◌, ◌%◌, ◌^◌, ◌<◌, length, refl, ⊤};
ghost use Rattle.std.specs.Prelude.{if◌then◌else◌};
ghost use Rattle.std.proofs.Common.{◌∙◌, ap, sym};
ghost use Rattle.fanout_group.specs.declared.logs.Fate.TheVariants.{Kept, Refused};
ghost use Rattle.group_tests.specs.Rooms.{room_after, rooms_after, rooms_on};

use fanout_group::{Desk, Fate, Group, Try};
use frame_view::Memory;
use ring_model::{Offer, Put, Tried, Unput};
use std::alloc::Global;

/// Members that each have room for some more packets, the next ticket, and for how many tries there
/// is memory.
#[derive(Drop)]
pub(crate) struct ListDesk {
    pub rooms: Vec<u32>,
    pub ticket: u64,
    pub memory: u32,
}

impl ListDesk {
    /// Whether a member keeps a packet, by its room.
    fn keeps(&mut self, member: u32) -> bool
        requires { member < length self.old.rooms.items }
        ensures rooms { self.new.rooms.items
            ≡ room_after member (if result then Kept else Refused) self.old.rooms.items }
        ensures members { length self.new.rooms.items ≡ length self.old.rooms.items }
        ensures ticket { self.new.ticket ≡ self.old.ticket }
    {
        let room = self.rooms[member as usize];
        if room == 0 {
            return false;
        }
        self.rooms[member as usize] = room - 1;
        true
    }

    /// Whether there is memory for another try.
    fn has_memory(&mut self) -> bool
        ensures rooms { self.new.rooms ≡ self.old.rooms }
        ensures ticket { self.new.ticket ≡ self.old.ticket }
    {
        if self.memory == 0 {
            return false;
        }
        self.memory -= 1;
        true
    }
}

impl Desk for ListDesk {
    ghost takes = { λ desk member offer. member < length desk.rooms.items };

    ghost room = { λ desk n. ⊤ };

    ghost made = { λ offer tries before after.
        (after.rooms.items ≡ rooms_after tries before.rooms.items)
        × (after.ticket ≡ before.ticket) };

    fn try_put(&mut self, member: u32, offer: Offer) -> Result<Tried, Unput> {
        if !self.has_memory() {
            return Err(Unput { offer });
        }
        if self.keeps(member) {
            Ok(Tried::Kept)
        } else {
            Ok(Tried::Refused(offer))
        }
    }

    fn put(&mut self, member: u32, offer: Offer) -> Result<Put, Unput> {
        if !self.has_memory() {
            return Err(Unput { offer });
        }
        if self.keeps(member) {
            Ok(Put::Kept)
        } else {
            Ok(Put::Dropped(1))
        }
    }

    ghost none_made = { λ offer desk. (refl, refl) };

    ghost more_made = { λ offer tries more first next last one two. (
      two.0 ∙ ap (λ rooms. rooms_after more rooms) one.0
          ∙ sym (rooms_on tries more first.rooms.items),
      two.1 ∙ one.1,
    ) };

    ghost less_room = { λ desk less more few room. room };
}

impl Group for ListDesk {
    ghost may_draw = { λ desk. ⊤ };

    ghost drew = { λ ticket before after. (ticket ≡ before.ticket)
        × (after.ticket ≡ (ticket + 1) % 2 ^ 64)
        × (after.rooms.items ≡ before.rooms.items) };

    fn ticket(&mut self) -> u64 {
        let ticket = self.ticket;
        self.ticket = ticket.wrapping_add(1);
        ticket
    }

    fn announce(&self, _offer: &Offer) {}
}

/// Some tries in words, such as `refused 0 kept 1`.
pub(crate) fn shown(alloc: Global, tries: &[Try]) -> Result<String, Memory> {
    let mut text = String::new(alloc);
    for one in tries {
        let word = match one.fate {
            Fate::Kept => "kept",
            Fate::Refused => "refused",
            Fate::Dropped => "dropped",
        };
        write!(text, "{word} {} ", one.member)?;
    }
    Ok(text)
}
