//! Letters that go through a ring from one thread to another.
ghost use Rattle.std.specs.Prelude.{◌≡◌, ◌<◌, ◌≤◌, ◌+◌, false, [], length, vec_capacity, vec_len};

use crate::letters::Letter;
use crate::table_steps::{fill, read};
use frame_view::Memory;
use ring_words::{Pending, TableFeeder, TableWalker, finish, table_ring};
use std::alloc::Global;
use std::process::Abort;
use std::sync::Wait;
use std::test::Fail;
use std::thread;
use std::thread::{Parker, Threads};
use std::time::Duration;

/// What the two threads do between their calls.
#[derive(Clone, Copy)]
struct Pace {
    /// For how many microseconds at most the feeder rests before it retires a block, each time for
    /// another part of them; 0: it doesn't rest.
    rest: u64,
    /// For how long at most the reader sleeps while no block is there; none: it yields.
    sleep: Option<Duration>,
}

impl Pace {
    /// The feeder rests before it retires the next letter.
    fn rest<R: Wait>(&self, rt: &R, next: usize) {
        if self.rest == 0 {
            return;
        }
        let micros = next as u64 % self.rest;
        Parker::new().park_timeout(rt, Duration::from_micros(micros));
    }
}

/// Tries to retire the next letter, and reports how many letters were retired.
fn fill_next(feeder: &mut TableFeeder<Letter>, letters: &[u8], next: usize) -> usize
    requires within { next < length letters.now }
    requires few { length letters.now ≤ 10000 }
    requires hand { feeder.old.given ≡ length feeder.old.retired }
    requires given { feeder.old.given ≤ next }
    ensures ring { feeder.new.id ≡ feeder.old.id }
    ensures within { result ≤ length letters.now }
    ensures hand { feeder.new.given ≡ length feeder.new.retired }
    ensures given { feeder.new.given ≤ result }
{
    if fill(feeder, letters[next]).is_none() {
        return next + 1;
    }
    thread::yield_now();
    next
}

/// Retires a block for each letter.
fn fill_all<R: Wait>(
    rt: &R,
    mut feeder: TableFeeder<Letter>,
    letters: &[u8],
    pace: Pace,
) -> TableFeeder<Letter>
    requires given { feeder.given ≡ 0 }
    requires retired { feeder.retired ≡ [] }
    requires few { length letters.now ≤ 10000 }
    ensures ring { result.id ≡ feeder.id }
{
    let mut next = 0;
    for _ in rt.forever() {
        if next >= letters.len() {
            break;
        }
        pace.rest(rt, next);
        next = fill_next(&mut feeder, letters, next);
    }
    feeder
}

/// Tries to read the next letter.
fn read_next<R: Wait>(
    rt: &R,
    walker: &mut TableWalker<Letter>,
    letters: &mut Vec<u8>,
    sleep: Option<Duration>,
)
    requires room { vec_len letters.old < vec_capacity letters.old }
    requires hand { walker.old.in_hand ≡ false }
    ensures ring { walker.new.id ≡ walker.old.id }
    ensures hand { walker.new.in_hand ≡ false }
{
    match (read(walker), sleep) {
        (Some(letter), _) => letters.push_reserved(letter),
        (None, Some(most)) => walker.wait_for_block(rt, most),
        (None, None) => thread::yield_now(),
    }
}

/// Reads blocks until it has as many letters as there is room for.
fn read_all<R: Wait>(
    rt: &R,
    mut walker: TableWalker<Letter>,
    mut letters: Vec<u8>,
    pace: Pace,
) -> (TableWalker<Letter>, Vec<u8>)
    requires hand { walker.in_hand ≡ false }
    ensures ring { result.0.id ≡ walker.id }
    ensures hand { result.0.in_hand ≡ false }
{
    for _ in rt.forever() {
        if letters.len() >= letters.capacity() {
            break;
        }
        read_next(rt, &mut walker, &mut letters, pace.sleep);
    }
    (walker, letters)
}

/// Sends letters through a ring of two blocks from one thread to another, which reads `count` of
/// them. It returns these and what is left in the ring.
fn relay<R: Threads + Wait + Sync>(
    rt: &R,
    alloc: Global,
    all: &[u8],
    count: usize,
    pace: Pace,
) -> Result<(Vec<u8>, Pending<Letter>), Memory>
    requires few { length all.now ≤ 10000 }
{
    let blocks = Vec::from_array(alloc, [Letter(0), Letter(0)])?;
    let letters = Vec::with_capacity(alloc, count)?;
    let (feeder, walker) = table_ring(alloc, blocks)?;
    let (feeder, (walker, letters)) = thread::join(
        rt,
        move || -> TableFeeder<Letter>
            requires { (feeder.given ≡ 0) × (feeder.retired ≡ []) × (length all.now ≤ 10000) }
            ensures { result.id ≡ feeder.id }
        { fill_all(rt, feeder, all, pace) },
        move || -> (TableWalker<Letter>, Vec<u8>)
            requires { walker.in_hand ≡ false }
            ensures { (result.0.id ≡ walker.id) × (result.0.in_hand ≡ false) }
        { read_all(rt, walker, letters, pace) },
    );
    let pending = finish(alloc, feeder, walker)?;
    Ok((letters, pending))
}

/// Appends the letters of what is left in a ring, each with the status 1.
fn push_pending(
    rt: &impl Abort,
    pending: &Pending<Letter>,
    letters: &mut Vec<u8>,
) -> Result<(), Fail> {
    for at in 0..pending.len() {
        let (letter, status) = pending.get(at).ok_or("a pending block")?;
        assert_eq!(rt; (at, status), (at, 1));
        letters.push(letter.0)?;
    }
    Ok(())
}

/// So many letters: the numbers from 0 to 255, and again.
fn letters_of(alloc: Global, count: u32) -> Result<Vec<u8>, Memory> {
    let mut all = Vec::with_capacity(alloc, count as usize)?;
    for number in 0..count {
        all.push((number % 256) as u8)?;
    }
    Ok(all)
}

/// What comes out of a ring at a pace is what was put in: all letters but two are read, and these
/// are left.
fn check_relay<R: Threads + Wait + Abort + Sync>(
    rt: &R,
    alloc: Global,
    count: u32,
    pace: Pace,
) -> Result<(), Fail> {
    let all = letters_of(alloc, count)?;
    if all.len() > 10_000 {
        return Err("at most ten thousand letters".into());
    }
    let most = all.len().saturating_sub(2);
    let (mut letters, pending) = relay(rt, alloc, all.as_slice(), most, pace)?;
    push_pending(rt, &pending, &mut letters)?;
    assert_eq!(rt; letters.as_slice(), all.as_slice());
    Ok(())
}

#[test]
fn what_one_thread_retires_another_takes(rt: HostRuntime) -> Result<(), Fail> {
    let pace = Pace {
        rest: 0,
        sleep: None,
    };
    check_relay(&rt, rt.alloc(), 1000, pace)
}

/// The reader sleeps for an hour at most, so a test in which it isn't woken is ended before.
fn until_woken(rest: u64) -> Pace {
    Pace {
        rest,
        sleep: Some(Duration::from_secs(3600)),
    }
}

#[test]
fn a_reader_that_sleeps_is_woken(rt: HostRuntime) -> Result<(), Fail> {
    check_relay(&rt, rt.alloc(), 1000, until_woken(500))
}

#[test]
fn no_wake_is_lost_while_both_threads_hurry(rt: HostRuntime) -> Result<(), Fail> {
    check_relay(&rt, rt.alloc(), 10_000, until_woken(0))
}

/// A reader sleeps for a millisecond at most, where nobody retires a block.
fn sleep_in_vain<R: Wait>(rt: &R, alloc: Global) -> Result<(), Memory> {
    let blocks = Vec::from_array(alloc, [Letter(0), Letter(0)])?;
    let (_feeder, walker) = table_ring(alloc, blocks)?;
    walker.wait_for_block(rt, Duration::from_millis(1));
    Ok(())
}

#[test]
fn a_sleep_ends_at_its_limit(rt: HostRuntime) -> Result<(), Fail> {
    sleep_in_vain(&rt, rt.alloc())?;
    Ok(())
}
