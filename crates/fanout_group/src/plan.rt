//! The shape of a group, checked once.
ghost use Rattle.std.specs.Prelude.{◌≡◌, ◌<◌, ◌≤◌, None, Some, IfOk, IfErr, OnOk};
ghost use Rattle.fanout_group.specs.Plans.{AreFlags, fault_of, has_defrag, rolls_over};

use crate::{Mode, PlanError};
use std::marker::Model;

/// PACKET_FANOUT_FLAG_ROLLOVER: other members are tried if the home has no room.
const ROLLOVER: u32 = 0x1000;

/// PACKET_FANOUT_FLAG_DEFRAG: fragments are reassembled before a member is chosen.
const DEFRAG: u32 = 0x8000;

/// The most members of a group. That there are at most eight is this project's own choice.
const MOST_MEMBERS: u32 = 8;

/// The shape of a valid group. Contracts see its members, its mode and its flags.
#[derive(Clone, Copy, Debug, PartialEq, Eq)]
pub struct Plan {
    /// The number of members, 1 to 8.
    members: u32,
    /// How the member is chosen that an arrival is for.
    mode: Mode,
    /// The flags of rollover and of defragmentation, as `linux/if_packet.h` numbers them.
    flags: u32,
}

impl Model for Plan {
    ghost use Rattle.fanout_group.specs.Plans.{Shape, IsPlan};

    ghost Value = { Shape };

    ghost view = { λ plan.
        record { members = plan.members; mode = plan.mode; flags = plan.flags } };

    ghost inverse = { λ shape.
        record { members = shape.members; mode = shape.mode; flags = shape.flags } };

    ghost invariant = { λ plan.
        IsPlan (record { members = plan.members; mode = plan.mode; flags = plan.flags }) };
}

impl Plan {
    /// Checks the shape of a group: the number of its members, its mode, its flags (0x1000
    /// rollover, 0x8000 defragmentation, by `linux/if_packet.h`), and whether there is a key for
    /// the flow hash.
    ///
    /// The first that applies is the error: `NoMember` for no member, `TooMany` for more than
    /// eight, `BackupOfRollover` for the flag of rollover in mode `Rollover`, `NoKey` for mode
    /// `Hash` without a key.
    pub fn check(members: u32, mode: Mode, flags: u32, has_key: bool) -> Result<Plan, PlanError>
        requires flags { AreFlags flags }
        ensures plan { IfOk result (λ plan.
            plan ≡ record { members = members; mode = mode; flags = flags }) }
        ensures none { OnOk result (fault_of members mode flags has_key ≡ None) }
        ensures fault { IfErr result (λ error. fault_of members mode flags has_key ≡ Some error) }
    {
        if members == 0 {
            return Err(PlanError::NoMember);
        }
        if members > MOST_MEMBERS {
            return Err(PlanError::TooMany);
        }
        if matches!(mode, Mode::Rollover) && flags & ROLLOVER != 0 {
            return Err(PlanError::BackupOfRollover);
        }
        if matches!(mode, Mode::Hash) && !has_key {
            return Err(PlanError::NoKey);
        }
        Ok(Plan {
            members,
            mode,
            flags,
        })
    }

    /// The number of members, 1 to 8.
    pub fn members(&self) -> u32
        ensures value { result ≡ self.now.members }
        ensures some { 0 < result }
        ensures few { result ≤ 8 }
    {
        self.members
    }

    /// How the member is chosen that an arrival is for.
    pub fn mode(&self) -> Mode
        ensures { result ≡ self.now.mode }
    {
        self.mode
    }

    /// The flags.
    pub fn flags(&self) -> u32
        ensures { result ≡ self.now.flags }
    {
        self.flags
    }

    /// Whether other members are tried if the home has no room: always in mode `Rollover`, and with
    /// the flag.
    pub(crate) fn rolls_over(&self) -> bool
        ensures { result ≡ rolls_over self.now }
    {
        matches!(self.mode, Mode::Rollover) || self.flags & ROLLOVER != 0
    }

    /// Whether fragments are reassembled before a member is chosen.
    pub(crate) fn has_defrag(&self) -> bool
        ensures { result ≡ has_defrag self.now.flags }
    {
        self.flags & DEFRAG != 0
    }
}
