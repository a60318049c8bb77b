//! Two threads that draw tickets, and the count of live feeders.
ghost use Rattle.std.specs.Prelude.{◌≡◌, ◌^◌, ◌<◌, length, replicate, IfOk};
ghost use Rattle.ticket_dealer.specs.Seats.{IsFreshOf, IsSeatOf, fresh_seat};

use frame_view::Memory;
use std::alloc::Global;
use std::process::Abort;
use std::test::Fail;
use std::thread;
use std::thread::Threads;
use ticket_dealer::{Dealer, DealerSeat};

/// A seat draws a ticket for each place.
fn draw_all(dealer: &Dealer, mut seat: DealerSeat, mut into: Vec<u64>) -> (DealerSeat, Vec<u64>)
    requires own { IsFreshOf dealer.now seat }
    requires few { length into.items < 2 ^ 32 }
    ensures own { IsSeatOf dealer.now result.0 }
    ensures drawn { result.0.drawn ≡ result.1.items }
{
    draw_into(dealer, &mut seat, into.as_mut_slice());
    (seat, into)
}

/// The same, into a slice.
fn draw_into(dealer: &Dealer, seat: &mut DealerSeat, into: &mut [u64])
    requires own { IsFreshOf dealer.now seat.old }
    requires few { length into.old < 2 ^ 32 }
    ensures own { IsSeatOf dealer.now seat.new }
    ensures drawn { seat.new.drawn ≡ into.new }
{
    for k in 0..into.len() {
        into[k] = dealer.draw(seat);
    }
}

/// A dealer of two feeders, with their seats and the others.
fn two_feeders(alloc: Global) -> Result<(Dealer, DealerSeat, DealerSeat, Vec<DealerSeat>), Memory>
    ensures feeders { IfOk result (λ made. made.0.feeders ≡ 2) }
    ensures first { IfOk result (λ made. made.1 ≡ fresh_seat made.0 1) }
    ensures second { IfOk result (λ made. made.2 ≡ fresh_seat made.0 1) }
    ensures others { IfOk result (λ made. made.3.items ≡ replicate 9 (fresh_seat made.0 0)) }
{
    let (dealer, mut seats) = Dealer::new(alloc, 2)?;
    let first = seats.remove(0);
    let second = seats.remove(0);
    Ok((dealer, first, second, seats))
}

/// Closes a dealer with all its seats, and returns the number of tickets that were drawn.
fn close(
    dealer: Dealer,
    first: DealerSeat,
    second: DealerSeat,
    mut seats: Vec<DealerSeat>,
) -> Result<u64, Memory>
    requires feeders { dealer.feeders ≡ 2 }
    requires first { IsSeatOf dealer first }
    requires second { IsSeatOf dealer second }
    requires others { seats.items ≡ replicate 9 (fresh_seat dealer 0) }
{
    seats.push(first)?;
    seats.push(second)?;
    Ok(dealer.close(seats))
}

/// What two threads draw, `each` tickets each, and the number of all tickets.
fn drawn_by_two<R: Threads + Sync>(
    rt: &R,
    alloc: Global,
    each: usize,
) -> Result<(u64, Vec<u64>, Vec<u64>), Memory>
    requires { each < 2 ^ 32 }
{
    let one = vec![in alloc; 0u64; each]?;
    let two = vec![in alloc; 0u64; each]?;
    let (dealer, first, second, seats) = two_feeders(alloc)?;
    let held = &dealer;
    let ((first, mine), (second, yours)) = thread::join(
        rt,
        move ||
            requires { IsFreshOf held.now first × (length one.items < 2 ^ 32) }
            ensures { IsSeatOf held.entry.now result.0 × (result.0.drawn ≡ result.1.items) }
        { draw_all(held, first, one) },
        move ||
            requires { IsFreshOf held.now second × (length two.items < 2 ^ 32) }
            ensures { IsSeatOf held.entry.now result.0 × (result.0.drawn ≡ result.1.items) }
        { draw_all(held, second, two) },
    );
    let count = close(dealer, first, second, seats)?;
    Ok((count, mine, yours))
}

/// Tickets that were drawn one after another are in order.
fn check_order(rt: &impl Abort, tickets: &[u64]) {
    for k in 1..tickets.len() {
        assert!(rt; tickets[k - 1] < tickets[k], "in order at {k}");
    }
}

/// Each of these tickets is its place.
fn check_places(rt: &impl Abort, tickets: &[u64]) {
    for (place, ticket) in tickets.iter().enumerate() {
        assert_eq!(rt; *ticket, place as u64);
    }
}

/// All tickets in order.
fn sorted(alloc: Global, mine: &[u64], yours: &[u64]) -> Result<Vec<u64>, Memory> {
    let mut all = mine.to_vec(alloc)?;
    all.extend_from_slice(yours)?;
    all.sort()?;
    Ok(all)
}

#[test]
fn each_ticket_is_drawn_once(rt: HostRuntime) -> Result<(), Fail> {
    let (count, mine, yours) = drawn_by_two(&rt, rt.alloc(), 1000)?;
    check_order(&rt, mine.as_slice());
    check_order(&rt, yours.as_slice());
    let all = sorted(rt.alloc(), mine.as_slice(), yours.as_slice())?;
    assert_eq!(rt; (count, all.len()), (2000, 2000));
    check_places(&rt, all.as_slice());
    Ok(())
}

/// How many feeders are live at first, when one has ended and when both have, a ticket drawn after
/// a feeder has ended, and the number of tickets that were drawn.
fn ended(alloc: Global) -> Result<([u64; 3], u64, u64), Memory> {
    let (dealer, mut first, mut second, seats) = two_feeders(alloc)?;
    let both = dealer.live(&mut first);
    dealer.done(&mut second);
    let one = dealer.live(&mut first);
    let ticket = dealer.draw(&mut second);
    dealer.done(&mut first);
    let none = dealer.live(&mut second);
    let drawn = close(dealer, first, second, seats)?;
    Ok(([both, one, none], ticket, drawn))
}

#[test]
fn feeders_end(rt: HostRuntime) -> Result<(), Fail> {
    let answers = ended(rt.alloc())?;
    assert_eq!(rt; answers, ([2, 1, 0], 0, 1));
    Ok(())
}
