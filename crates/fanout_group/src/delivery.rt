//! Who gets a packet: the tries of an arrival, by the rules of its group.
ghost use Rattle.std.specs.Prelude.{◌≡◌, ◌+◌, ◌<◌, ◌≤◌, ℕ, List, unwrap_or, IfNone, IfOk, IfSome};
ghost use Rattle.std.specs.Prelude.{OnErr, OnOk};
ghost use Rattle.fanout_group.specs.Deliveries.{IsBegunDelivery, IsDelivery};
ghost use Rattle.fanout_group.specs.Desks.{TakesTheSame};
ghost use Rattle.fanout_group.specs.Plans.{rolls_over};
ghost use Rattle.fanout_group.specs.Routes.{AreRefusals, IsBegun, IsKeptOnTheWay, IsRoute};
ghost use Rattle.fanout_group.specs.Routes.{present_after, refused_from};
ghost use Rattle.fanout_group.specs.Rules.{HasTicket, home_by};
ghost use Rattle.fanout_group.specs.declared.logs.Try.{Try};
ghost use Rattle.fanout_group.specs.inside.TryEffects.{AreListed};

use crate::{Desk, Mode, Plan, Try, TryList};
use frame_view::Memory;
use ring_model::Offer;
use std::alloc::Global;

/// Delivers a packet to a group by its mode: makes the tries of an arrival at a desk, in order, and
/// reports them at the end of a list.
///
/// Depending on the mode, the home is the offer's hash, the ticket, the frame's CPU or the receive
/// queue modulo the number of members, or the CPU's present member (PACKET_FANOUT of packet(7); the
/// modulo and the present member of each CPU are this project's own choice). Without rollover the
/// packet is put at home. With it each member is tried once, from the home on round the group,
/// until one keeps the packet; if all refuse it is put at home. In mode `Rollover` the member of
/// the last try is `present` from then on.
///
/// After `Memory` the tries that were made are in the list, and `present` is unchanged: without
/// rollover none was made; with it all of them are refusals, and no member has the packet.
pub fn deliver<D: Desk>(
    _alloc: Global,
    plan: &Plan,
    desk: &mut D,
    present: &mut u32,
    queue: u32,
    offer: Offer,
    ticket: Option<u64>,
    tries: &mut TryList,
) -> Result<(), Memory>
    requires present { present.old < plan.now.members }
    requires ticket { HasTicket plan.now.mode ticket }
    requires room { D.room desk.old 9 }
    requires takes { (member : ℕ) → member < plan.now.members → D.takes desk.old member offer }
    ensures delivery { OnOk result (IsDelivery D.made plan.now offer ticket queue
        present.old present.new tries.old tries.new desk.old desk.new) }
    ensures begun { OnErr result (IsBegunDelivery D.made plan.now offer ticket queue
        present.old tries.old tries.new desk.old desk.new) }
    ensures stays { OnErr result (present.new ≡ present.old) }
    ensures member { present.new < plan.now.members }
    ensures room { OnOk result ((n : ℕ) → D.room desk.old (n + 9) → D.room desk.new n) }
    ensures same { TakesTheSame (D.takes desk.old) (D.takes desk.new) }
{
    let (cpu, hash) = (offer.frame.cpu, offer.hash);
    let home = home(plan, *present, queue, cpu, hash, ticket);
    deliver_at(plan, desk, present, home, offer, tries)?;
    Ok(())
}

/// Delivers a packet from its home on, as `deliver` does, and returns the tries that were made.
#[inline(never)]
pub(crate) fn deliver_from<D: Desk>(
    alloc: Global,
    plan: &Plan,
    desk: &mut D,
    present: &mut u32,
    home: u32,
    offer: Offer,
) -> Result<TryList, Memory>
    requires present { present.old < plan.now.members }
    requires home { home < plan.now.members }
    requires room { D.room desk.old 9 }
    requires takes { (member : ℕ) → member < plan.now.members → D.takes desk.old member offer }
    ensures route { IfOk result (λ tries. IsRoute (rolls_over plan.now) plan.now.members home
        tries) }
    ensures made { IfOk result (λ tries. D.made offer tries desk.old desk.new) }
    ensures begun { OnErr result ((tries : List Try)
        × IsBegun (rolls_over plan.now) plan.now.members home tries
        × D.made offer tries desk.old desk.new) }
    ensures present { IfOk result (λ tries. present.new
        ≡ present_after plan.now.mode present.old tries) }
    ensures stays { OnErr result (present.new ≡ present.old) }
    ensures member { present.new < plan.now.members }
    ensures room { OnOk result ((n : ℕ) → D.room desk.old (n + 9) → D.room desk.new n) }
    ensures same { TakesTheSame (D.takes desk.old) (D.takes desk.new) }
{
    let mut tries = TryList::new(alloc);
    deliver_at(plan, desk, present, home, offer, &mut tries)?;
    Ok(tries)
}

/// Makes the tries of a packet from its home on, at the end of a list. In mode `Rollover` the last
/// one decides the present member.
fn deliver_at<D: Desk>(
    plan: &Plan,
    desk: &mut D,
    present: &mut u32,
    home: u32,
    offer: Offer,
    tries: &mut TryList,
) -> Result<(), Memory>
    requires home { home < plan.now.members }
    requires room { D.room desk.old 9 }
    requires takes { (member : ℕ) → member < plan.now.members → D.takes desk.old member offer }
    ensures route { OnOk result (AreListed D.made offer
        (IsRoute (rolls_over plan.now) plan.now.members home)
        tries.old tries.new desk.old desk.new) }
    ensures begun { OnErr result (AreListed D.made offer
        (IsBegun (rolls_over plan.now) plan.now.members home)
        tries.old tries.new desk.old desk.new) }
    ensures present { OnOk result
        (present.new ≡ present_after plan.now.mode present.old tries.new) }
    ensures stays { OnErr result (present.new ≡ present.old) }
    ensures room { OnOk result ((n : ℕ) → D.room desk.old (n + 9) → D.room desk.new n) }
    ensures same { TakesTheSame (D.takes desk.old) (D.takes desk.new) }
{
    make_tries(plan, desk, home, offer, tries)?;
    *present = present_after(plan.mode(), *present, tries.as_slice());
    Ok(())
}

/// The member that a packet is for first.
pub(crate) fn home(
    plan: &Plan,
    present: u32,
    queue: u32,
    cpu: u32,
    hash: u32,
    ticket: Option<u64>,
) -> u32
    requires present { present < plan.now.members }
    ensures home { result ≡ home_by plan.now.mode plan.now.members
        hash (unwrap_or ticket 0) cpu queue present }
    ensures member { result < plan.now.members }
{
    let members = plan.members();
    match plan.mode() {
        Mode::Hash => hash % members,
        Mode::Lb => (ticket.unwrap_or(0) % u64::from(members)) as u32,
        Mode::Cpu => cpu % members,
        Mode::Qm => queue % members,
        Mode::Rollover => present,
    }
}

/// All tries of a packet whose home this is.
fn make_tries<D: Desk>(
    plan: &Plan,
    desk: &mut D,
    home: u32,
    offer: Offer,
    tries: &mut TryList,
) -> Result<(), Memory>
    requires home { home < plan.now.members }
    requires room { D.room desk.old 9 }
    requires takes { (member : ℕ) → member < plan.now.members → D.takes desk.old member offer }
    ensures route { OnOk result (AreListed D.made offer
        (IsRoute (rolls_over plan.now) plan.now.members home)
        tries.old tries.new desk.old desk.new) }
    ensures begun { OnErr result (AreListed D.made offer
        (IsBegun (rolls_over plan.now) plan.now.members home)
        tries.old tries.new desk.old desk.new) }
    ensures room { OnOk result ((n : ℕ) → D.room desk.old (n + 9) → D.room desk.new n) }
    ensures same { TakesTheSame (D.takes desk.old) (D.takes desk.new) }
{
    if !plan.rolls_over() {
        return tries.put_at(desk, home, offer);
    }
    if let Some(offer) = try_round(desk, plan.members(), home, offer, tries)? {
        tries.put_at(desk, home, offer)?;
    }
    Ok(())
}

/// Tries each member once, from the home on round the group, until one keeps the packet. The packet
/// comes back if all refuse it.
fn try_round<D: Desk>(
    desk: &mut D,
    members: u32,
    home: u32,
    offer: Offer,
    tries: &mut TryList,
) -> Result<Option<Offer>, Memory>
    requires few { members ≤ 8 }
    requires home { home < members }
    requires room { D.room desk.old members }
    requires takes { (member : ℕ) → member < members → D.takes desk.old member offer }
    ensures kept { IfOk result (λ back. IfNone back (AreListed D.made offer
        (IsKeptOnTheWay members home) tries.old tries.new desk.old desk.new)) }
    ensures refused { IfOk result (λ back. IfSome back (λ _. AreListed D.made offer
        (λ more. more ≡ refused_from members home members)
        tries.old tries.new desk.old desk.new)) }
    ensures back { IfOk result (λ back. IfSome back (λ back. back ≡ offer)) }
    ensures begun { OnErr result (AreListed D.made offer (AreRefusals members home)
        tries.old tries.new desk.old desk.new) }
    ensures room { OnOk result ((n : ℕ) → D.room desk.old (n + members) → D.room desk.new n) }
    ensures same { TakesTheSame (D.takes desk.old) (D.takes desk.new) }
{
    let mut member = home;
    let mut offer = offer;
    for turn in 0..members {
        // Twice the room, but not for more tries than an arrival can have.
        tries.reserve_exact(turn.min(members + 1 - turn) as usize)?;
        match tries.try_at(desk, member, offer)? {
            None => return Ok(None),
            Some(back) => offer = back,
        }
        member = (member + 1) % members;
    }
    Ok(Some(offer))
}

/// The present member after the tries of an arrival: in mode `Rollover` the member of the last one.
fn present_after(mode: Mode, present: u32, tries: &[Try]) -> u32
    ensures { result ≡ present_after mode present tries.now }
{
    match (mode, tries.last()) {
        (Mode::Rollover, Some(last)) => last.member,
        _ => present,
    }
}
