//! The feeder of a CPU: it reads the CPU's capture a piece at a time, feeds each frame, and
//! delivers what arrives to the members in turns.
ghost use Rattle.std.specs.Prelude.{◌≡◌, false, OnOk};
ghost use Rattle.capture_reports.specs.Feeders.{HasFed};
ghost use Rattle.cpu_feeders.specs.Feeds.{AreMembersFor, FeedsOut, HasEnded, IsFreshFeeder};
ghost use Rattle.cpu_feeders.specs.inside.FeedSteps.{Goes, IsDrawing};
ghost use Rattle.cpu_feeders.specs.inside.TurnGroups.{IsSameGroup};

use crate::Gate;
use crate::shared::Shared;
use crate::turn_group::TurnGroup;
use capture_reading::Buffer;
use capture_reports::a_delivery_adds_its_notes;
use cpu_feed::{CpuFeed, rules_at};
use fanout_group::DealerSeat;
use frame_view::Memory;
use member_turns::MemberSeat;
use setup_text::Job;
use std::alloc::Global;
use std::sync::Wait;
use tap_outside::Source;

/// A feeder's thread.
#[derive(Drop)]
pub(crate) struct Feeder<S: Source> {
    /// Its CPU.
    pub(crate) feed: CpuFeed<S>,
    /// Its seat at each member, from 0 up.
    pub(crate) member_seats: Vec<MemberSeat>,
    /// Its seat at the dealer, from which it draws tickets.
    pub(crate) seat: DealerSeat,
    /// What its source is read into.
    pub(crate) buffer: Buffer,
    /// Whether an allocation failed.
    pub(crate) full: bool,
}

/// Feeds all frames of a CPU to a group.
fn feed_all<S: Source, R: Wait, G: Gate>(
    alloc: Global,
    job: &Job,
    feed: &mut CpuFeed<S>,
    buffer: &mut Buffer,
    group: &mut TurnGroup<R, G>,
) -> Result<(), Memory>
    requires members { AreMembersFor job.now feed.old.number group.old.members.now }
    requires goes { Goes job.now group.old.members.now
        feed.old group.old.member_seats.now.items group.old.seat.now }
    requires drawing { IsDrawing group.old.dealer.now group.old.seat.now }
    ensures fed { OnOk result (HasFed job.now group.old.members.now feed.old.number
        feed.new group.new.member_seats.now.items group.new.seat.now) }
    ensures first { OnOk result (feed.new.first ≡ feed.old.first) }
    ensures same { IsSameGroup group.old group.new }
    ensures drawing { IsDrawing group.old.dealer.now group.new.seat.now }
{
    a_delivery_adds_its_notes();
    let rules = rules_at(job, feed.number() as usize);
    'feeding: while feed.feed(alloc, buffer, &rules, group)? {}
    Ok(())
}

/// Feeds all frames of a feeder's CPU, and delivers what arrives in turns of its seats.
fn deliver_all<S: Source, R: Wait, G: Gate>(
    rt: &R,
    shared: &Shared<G>,
    feeder: &mut Feeder<S>,
) -> Result<(), Memory>
    requires fresh { IsFreshFeeder
        shared.now.job.now shared.now.members.now shared.now.dealer.now feeder.old }
    ensures fed { OnOk result
        (FeedsOut shared.now.job.now shared.now.members.now feeder.old feeder.new) }
    ensures seat { IsDrawing shared.now.dealer.now feeder.new.seat }
{
    let mut group = TurnGroup {
        rt,
        members: shared.members,
        dealer: shared.dealer,
        gate: shared.gate,
        member_seats: &mut feeder.member_seats,
        seat: &mut feeder.seat,
    };
    feed_all(
        shared.alloc,
        shared.job,
        &mut feeder.feed,
        &mut feeder.buffer,
        &mut group,
    )
}

/// Feeds all frames of its CPU's capture and delivers what arrives to the members, or stops if an
/// allocation fails. Either way the dealer then has one live feeder less.
pub(crate) fn run_feeder<S: Source, R: Wait, G: Gate>(
    rt: &R,
    shared: &Shared<G>,
    feeder: &mut Feeder<S>,
)
    requires fresh { IsFreshFeeder
        shared.now.job.now shared.now.members.now shared.now.dealer.now feeder.old }
    ensures fed { feeder.new.full ≡ false
        → FeedsOut shared.now.job.now shared.now.members.now feeder.old feeder.new }
    ensures ended { HasEnded shared.now.dealer.now feeder.new.seat }
{
    feeder.full = deliver_all(rt, shared, feeder).is_err();
    shared.dealer.done(&mut feeder.seat);
}
