//! What passes hand, what they fetch, and what is left.
ghost use Rattle.std.specs.Prelude.{◌≡◌, IfOk};
ghost use Rattle.run_tests.specs.Passes.{HasDoneFew};
ghost use Rattle.work_queue.specs.Passes.{IsPassOf};

use crate::works::work;
use frame_view::Memory;
use std::alloc::Global;
use std::process::Abort;
use std::sync::Wait;
use std::test::Fail;
use work_queue::{Work, WorkPass, WorkQueue};

/// A queue, two passes that hand works in, and one that fetches them.
#[derive(Drop)]
struct Opened {
    /// The queue.
    queue: WorkQueue,
    /// The pass of member 0.
    first: WorkPass,
    /// The pass of member 1.
    second: WorkPass,
    /// The pass that fetches.
    third: WorkPass,
}

/// The members and the numbers of works.
type Names = Vec<(u32, u64)>;

/// An empty queue with three passes that have done nothing.
fn open(alloc: Global) -> Result<Opened, Memory>
    ensures passes { IfOk result (λ opened. opened.queue.passes ≡ 3) }
    ensures first { IfOk result (λ opened. HasDoneFew 0 opened.queue opened.first) }
    ensures second { IfOk result (λ opened. HasDoneFew 0 opened.queue opened.second) }
    ensures third { IfOk result (λ opened. HasDoneFew 0 opened.queue opened.third) }
{
    let (queue, mut passes) = WorkQueue::new(alloc, 3)?;
    let (Some(third), Some(second), Some(first)) = (passes.pop(), passes.pop(), passes.pop()) else {
        return Err(Memory);
    };
    Ok(Opened {
        queue,
        first,
        second,
        third,
    })
}

/// Hands in this number of works of a member, numbered from 1.
fn hand_all<R: Wait>(
    rt: &R,
    alloc: Global,
    queue: &WorkQueue,
    pass: &mut WorkPass,
    member: u32,
    works: u32,
) -> Result<(), Fail>
    requires fresh { HasDoneFew 0 queue.now pass.old }
    ensures own { IsPassOf queue.now pass.new }
{
    for number in 0..works {
        let work = work(alloc, member, u64::from(number) + 1)?;
        if queue.hand(rt, pass, work).is_err() {
            return Err(Memory.into());
        }
    }
    Ok(())
}

/// Appends the member and the number of a work.
fn push_name(names: &mut Names, work: &Work) -> Result<(), Memory> {
    Ok(names.push((work.member, work.number))?)
}

/// Fetches at most `most` works, and appends their names.
fn fetch_some<R: Wait>(
    rt: &R,
    queue: &WorkQueue,
    pass: &mut WorkPass,
    most: u32,
    names: &mut Names,
) -> Result<(), Memory>
    requires fresh { HasDoneFew 0 queue.now pass.old }
    ensures own { IsPassOf queue.now pass.new }
{
    for _ in 0..most {
        let Some(work) = queue.fetch(rt, pass) else {
            return Ok(());
        };
        push_name(names, &work)?;
    }
    Ok(())
}

/// Closes a queue, and appends the names of the works that are left.
fn close<R: Wait>(rt: &R, alloc: Global, opened: Opened, names: &mut Names) -> Result<(), Memory>
    requires passes { opened.queue.passes ≡ 3 }
    requires first { IsPassOf opened.queue opened.first }
    requires second { IsPassOf opened.queue opened.second }
    requires third { IsPassOf opened.queue opened.third }
{
    let passes = vec![in alloc; opened.first, opened.second, opened.third]?;
    for work in &opened.queue.close(rt, alloc, passes)? {
        push_name(names, work)?;
    }
    Ok(())
}

/// Hands in these numbers of works of two members, one member after the other, and fetches at most
/// `most`: how many were fetched, and the names of these and then of those that were left.
fn hand_and_fetch<R: Wait>(
    rt: &R,
    alloc: Global,
    (first, second): (u32, u32),
    most: u32,
) -> Result<(usize, Names), Fail> {
    let mut names = Vec::new(alloc);
    let mut opened = open(alloc)?;
    hand_all(rt, alloc, &opened.queue, &mut opened.first, 0, first)?;
    hand_all(rt, alloc, &opened.queue, &mut opened.second, 1, second)?;
    fetch_some(rt, &opened.queue, &mut opened.third, most, &mut names)?;
    let fetched = names.len();
    close(rt, alloc, opened, &mut names)?;
    Ok((fetched, names))
}

/// Appends the names of the first `works` works of a member, in order.
fn push_names(names: &mut Names, member: u32, works: u32) -> Result<(), Memory> {
    for number in 0..works {
        names.push((member, u64::from(number) + 1))?;
    }
    Ok(())
}

/// The names of these numbers of works of two members, in order.
fn names_of(alloc: Global, (first, second): (u32, u32)) -> Result<Names, Memory> {
    let mut names = Vec::new(alloc);
    push_names(&mut names, 0, first)?;
    push_names(&mut names, 1, second)?;
    Ok(names)
}

/// How many works of each member there are, how many are fetched at most, and how many are. A
/// segment of the queue has room for 31 works.
type Row = ((u32, u32), u32, usize);

static ROWS: [Row; 9] = [
    ((2, 1), 4, 3),
    ((0, 0), 1, 0),
    ((1, 0), 0, 0),
    ((31, 0), 30, 30),
    ((32, 0), 31, 31),
    ((33, 0), 32, 32),
    ((100, 0), 40, 40),
    ((100, 0), 100, 100),
    ((40, 60), 70, 70),
];

/// Works are fetched and left in the order of a row.
fn check_rows<R: Wait + Abort>(rt: &R, alloc: Global, rows: &[Row]) -> Result<(), Fail> {
    for (works, most, wanted) in rows {
        let (fetched, names) = hand_and_fetch(rt, alloc, *works, *most)?;
        let all = names_of(alloc, *works)?;
        assert_eq!(rt;
            (*works, *most, fetched, names.as_slice()),
            (*works, *most, *wanted, all.as_slice())
        );
    }
    Ok(())
}

#[test]
fn works_are_fetched_and_left_in_order(rt: HostRuntime) -> Result<(), Fail> {
    check_rows(&rt, rt.alloc(), &ROWS)
}
