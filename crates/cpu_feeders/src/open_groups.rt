//! A group before its threads start: its members have empty rings.
ghost use Rattle.std.specs.Prelude.{◌≡◌, ◌+◌, ◌≤◌, ◌∷◌, ◌++◌, [], length, IfOk, OnOk};
ghost use Rattle.std.specs.List.{AllZip};
ghost use Rattle.cpu_feeders.specs.inside.Openings.{IsOpened};
ghost use Rattle.cpu_feeders.specs.inside.MemberSeats.{fresh_users};

use crate::member_seats::{SeatList, add_to_each, empty_lists};
use frame_view::Memory;
use member_turns::{Member, open_member};
use ring_words::TableWalker;
use std::alloc::Global;
use tp_layout::{Block, Shape};

/// The members of a group with empty rings, and what their users get.
#[derive(Drop)]
pub(crate) struct OpenGroup {
    /// The members, from 0 up.
    pub(crate) members: Vec<Member>,
    /// The reader's end of each member's ring.
    pub(crate) ends: Vec<TableWalker<Block>>,
    /// The seats of each user: of each CPU from 0 up, and then of the timer.
    pub(crate) users: Vec<SeatList>,
}

impl OpenGroup {
    /// Opens one more member.
    fn add(&mut self, alloc: Global, shape: &Shape, cpus: u32) -> Result<(), Memory>
        requires few { cpus ≤ 8 }
        requires users { self.old.users.items ≡ fresh_users self.old.members.items 0 (cpus + 1) }
        requires opened { AllZip (IsOpened shape.now cpus) self.old.members.items
            self.old.ends.items }
        ensures users { OnOk result
            (self.new.users.items ≡ fresh_users self.new.members.items 0 (cpus + 1)) }
        ensures opened { OnOk result
            (AllZip (IsOpened shape.now cpus) self.new.members.items self.new.ends.items) }
        ensures count { OnOk result
            (length self.new.members.items ≡ length self.old.members.items + 1) }
    {
        let (member, member_seats, end) = open_member(alloc, shape, cpus)?;
        self.members.push(member)?;
        self.ends.push(end)?;
        add_to_each(&mut self.users, member_seats)
    }
}

/// Opens the members, whose rings have this shape, for `cpus` CPUs.
pub(crate) fn open_group(
    alloc: Global,
    shape: &Shape,
    members: u32,
    cpus: u32,
) -> Result<OpenGroup, Memory>
    requires few { cpus ≤ 8 }
    ensures count { IfOk result (λ group. length group.members.items ≡ members) }
    ensures users { IfOk result (λ group.
        group.users.items ≡ fresh_users group.members.items 0 (cpus + 1)) }
    ensures opened { IfOk result (λ group.
        AllZip (IsOpened shape.now cpus) group.members.items group.ends.items) }
{
    let mut group = OpenGroup {
        members: Vec::with_capacity(alloc, members as usize)?,
        ends: Vec::with_capacity(alloc, members as usize)?,
        users: empty_lists(alloc, cpus as usize + 1)?,
    };
    for _member in 0..members {
        group.add(alloc, shape, cpus)?;
    }
    Ok(group)
}
