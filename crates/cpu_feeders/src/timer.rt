//! The timer of a run: it reports each moment to each member.
ghost use Rattle.std.specs.Prelude.{◌≡◌, ◌^◌, ◌<◌, ◌≤◌, ℕ, [], length, slice_index_or, OnOk};
ghost use Rattle.capture_reports.specs.Timers.{AreTimed};
ghost use Rattle.cpu_feeders.specs.Timers.{AreTimers, HaveTicked, TimesOut};
ghost use Rattle.member_turns.specs.Seats.{Lock, Seat, moment_of, own_of};
ghost use Rattle.setup_text.specs.Sound.{AreMoments};

use crate::shared::Shared;
use crate::{Gate, Point};
use frame_view::Memory;
use member_turns::{Member, MemberSeat, tick_turn};
use std::sync::Wait;

/// The timer's thread.
#[derive(Drop)]
pub(crate) struct Timer {
    /// Its seat at each member, from 0 up.
    pub(crate) member_seats: Vec<MemberSeat>,
    /// Whether an allocation failed.
    pub(crate) full: bool,
}

/// Reports a moment to each member, from member 0 up.
fn tick_members<R: Wait>(
    rt: &R,
    members: &[Member],
    member_seats: &mut Vec<MemberSeat>,
    ms: u64,
) -> Result<(), Memory>
    requires timers { AreTimers members.now member_seats.old.items }
    requires few { (member : ℕ) (seat : Seat) → member < length member_seats.old.items →
        (slice_index_or member_seats.old.items member seat).entered < 2 ^ 32 }
    requires later { (member : ℕ) (lock : Lock) (seat : Seat) →
        member < length member_seats.old.items →
        moment_of (own_of (slice_index_or members.now member lock)
        (slice_index_or member_seats.old.items member seat)) ≤ ms }
    requires small { ms ≤ 2 ^ 63 }
    ensures { OnOk result
        (HaveTicked ms members.now member_seats.old.items member_seats.new.items) }
{
    for at in 0..members.len() {
        tick_turn(rt, &members[at], &mut member_seats[at], ms)?;
    }
    Ok(())
}

/// Reports each of the moments to each member.
fn tick_all<R: Wait, G: Gate>(
    rt: &R,
    members: &[Member],
    moments: &[u64],
    gate: &G,
    member_seats: &mut Vec<MemberSeat>,
) -> Result<(), Memory>
    requires moments { AreMoments moments.now }
    requires fresh { AreTimed [] members.now member_seats.old.items }
    ensures { OnOk result (AreTimed moments.now members.now member_seats.new.items) }
{
    for ms in moments {
        gate.at(Point::Ticking { ms: *ms });
        tick_members(rt, members, member_seats, *ms)?;
    }
    Ok(())
}

/// Reports each of the moments to each member, from member 0 up, or stops if an allocation fails.
pub(crate) fn run_timer<R: Wait, G: Gate>(rt: &R, shared: &Shared<G>, timer: &mut Timer)
    requires moments { AreMoments shared.now.moments.now }
    requires fresh { AreTimed [] shared.now.members.now timer.old.member_seats.items }
    ensures { TimesOut shared.now.moments.now shared.now.members.now timer.new }
{
    let ticked = tick_all(
        rt,
        shared.members,
        shared.moments,
        shared.gate,
        &mut timer.member_seats,
    );
    timer.full = ticked.is_err();
}
