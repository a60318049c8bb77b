//! The frames of all CPUs, one after another in the order of their moments.
ghost use Rattle.std.specs.Prelude.{◌≡◌, ◌<◌, ◌-◌, ◌^◌, [], replicate, IfOk, OnOk};
ghost use Rattle.std.specs.List.{AllByRecursion};
ghost use Rattle.frame_deals.specs.Dealings.{IsRising};
ghost use Rattle.frame_deals.specs.inside.Merges.{IsFirst, IsNext, dealt_of, earlier_of, end_from};
ghost use Rattle.frame_deals.specs.inside.Merges.{first_of, sooner_of};
ghost use Rattle.frame_deals.specs.inside.Merges.{frames_left, given_by, ticket_behind};
ghost use Rattle.frame_deals.specs.inside.Merges.{with_ticket};

use crate::{DealtList, MarkQueue};
use deal_rules::Mark;
use fanout_group::{Mode, Plan};
use frame_view::Memory;
use ring_sizes::Arrival;
use std::alloc::Global;

/// The frames of all CPUs that aren't dealt yet, and what the members were given.
#[derive(Drop)]
pub(crate) struct Merge {
    /// The time of the first frame of all CPUs.
    pub(crate) first: u64,
    /// The frames of each CPU that are left.
    pub(crate) queues: Vec<MarkQueue>,
    /// The next ticket.
    pub(crate) ticket: u64,
    /// What each member was given.
    pub(crate) members: Vec<DealtList>,
    /// The greatest moment so far.
    pub(crate) end: u64,
}

/// The frame that comes next.
#[derive(Clone, Copy)]
pub(crate) struct NextFrame {
    /// The number of its CPU.
    pub(crate) cpu: usize,
    /// Its moment.
    pub(crate) moment: u64,
}

impl Merge {
    /// Before the first frame.
    pub(crate) fn new(alloc: Global, plan: &Plan, queues: Vec<MarkQueue>) -> Result<Merge, Memory>
        ensures first { IfOk result (λ merge. merge.first ≡ first_of queues.items) }
        ensures queues { IfOk result (λ merge. merge.queues ≡ queues) }
        ensures ticket { IfOk result (λ merge. merge.ticket ≡ 0) }
        ensures members { IfOk result (λ merge.
            merge.members.items ≡ replicate plan.now.members []) }
        ensures end { IfOk result (λ merge. merge.end ≡ 0) }
    {
        let first = first_of(queues.as_slice());
        let count = plan.members() as usize;
        let mut members = Vec::with_capacity(alloc, count)?;
        'opening: while members.len() < count {
            members.push(DealtList::new(alloc))?;
        }
        Ok(Merge {
            first,
            queues,
            ticket: 0,
            members,
            end: 0,
        })
    }

    /// The frame that comes next: the one of the least moment, and of these that of the lowest CPU.
    pub(crate) fn next(&self) -> Option<NextFrame>
        requires rise { AllByRecursion IsRising self.now.queues.items }
        ensures { IsNext self.now.first self.now.queues.items result }
    {
        let mut found = None;
        let mut cpu = 0;
        'looking: while cpu < self.queues.len() {
            found = sooner(found, self.first, cpu, &self.queues[cpu]);
            cpu += 1;
        }
        found
    }

    /// Deals the next frame. The only error is that an allocation fails, or that there are
    /// 18,446,744,073,709,551,615 tickets.
    pub(crate) fn take(&mut self, alloc: Global, plan: &Plan, next: NextFrame) -> Result<(), Memory>
        requires first { IsFirst self.old.first self.old.queues.items next }
        requires rise { AllByRecursion IsRising self.old.queues.items }
        ensures dealt { OnOk result (dealt_of plan.now self.new ≡ dealt_of plan.now self.old) }
        ensures end { OnOk result (end_from self.new ≡ end_from self.old) }
        ensures less { OnOk result (frames_left self.new < frames_left self.old) }
        ensures rise { OnOk result (AllByRecursion IsRising self.new.queues.items) }
    {
        if self.ticket == u64::MAX {
            return Err(Memory);
        }
        let Some(frame) = self.queues[next.cpu].pop(alloc) else {
            unreachable!();
        };
        let mark = with_ticket(plan, self.ticket, frame.mark);
        self.ticket = ticket_behind(plan, self.ticket, frame.mark);
        self.end = self.end.max(next.moment);
        give(&mut self.members, next.moment, mark)
    }
}

/// The frame that comes first: the one that was found, or the first of this CPU.
fn sooner(found: Option<NextFrame>, first: u64, cpu: usize, queue: &MarkQueue) -> Option<NextFrame>
    ensures { result ≡ sooner_of found first cpu queue.now }
{
    let Some(frame) = queue.front() else {
        return found;
    };
    let moment = frame.time.saturating_sub(first);
    match found {
        Some(next) if next.moment <= moment => found,
        _ => Some(NextFrame { cpu, moment }),
    }
}

/// The time of the first frame of all CPUs, 0 if there is none.
fn first_of(queues: &[MarkQueue]) -> u64
    ensures { result ≡ first_of queues.now }
{
    let mut first = None;
    let mut cpu = queues.len();
    'looking: while 0 < cpu {
        cpu -= 1;
        first = earlier(&queues[cpu], first);
    }
    first.unwrap_or(0)
}

/// The earlier of a time, if there is one, and the first of a CPU's.
fn earlier(queue: &MarkQueue, other: Option<u64>) -> Option<u64>
    ensures { result ≡ earlier_of queue.now other }
{
    match (queue.front(), other) {
        (Some(frame), Some(other)) => Some(frame.time.min(other)),
        (Some(frame), None) => Some(frame.time),
        (None, _) => other,
    }
}

/// A mark with its ticket, which decides in mode lb.
fn with_ticket(plan: &Plan, ticket: u64, mark: Mark) -> Mark
    ensures { result ≡ with_ticket plan.now.mode plan.now.members ticket mark }
{
    match (plan.mode(), mark) {
        (Mode::Lb, Mark::Given { need, .. }) => {
            let home = (ticket % u64::from(plan.members())) as u16;
            Mark::Given { home, need }
        }
        _ => mark,
    }
}

/// The ticket after a frame with this mark.
fn ticket_behind(plan: &Plan, ticket: u64, mark: Mark) -> u64
    requires { ticket < 2 ^ 64 - 1 }
    ensures { result ≡ ticket_behind plan.now.mode ticket mark }
{
    match (plan.mode(), mark) {
        (Mode::Lb, Mark::Refused | Mark::Given { .. }) => ticket + 1,
        _ => ticket,
    }
}

/// Gives a member what its mark says, if there is such a member.
fn give(members: &mut Vec<DealtList>, at: u64, mark: Mark) -> Result<(), Memory>
    ensures { OnOk result (members.new.items ≡ given_by at mark members.old.items) }
{
    let Mark::Given { home, need } = mark else {
        return Ok(());
    };
    match members.get_mut(home as usize) {
        Some(list) => list.push(Arrival { at, need }),
        None => Ok(()),
    }
}
