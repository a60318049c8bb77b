//! A diary that seats write in turns, each in a thread of its own.
ghost use Rattle.std.specs.Prelude.{◌≡◌, ◌+◌, ◌*◌, ◌^◌, ◌<◌, ◌≤◌, ℕ, Bool, true, ◌==◌, length};
ghost use Rattle.std.specs.Prelude.{slice_index_or, IfOk};
ghost use Rattle.turn_lock.specs.Seats.{IsIdleSeatOf, IsNth};

use frame_view::Memory;
use std::alloc::Global;
use std::sync::Wait;
use std::test::Fail;
use std::thread;
use std::thread::Threads;
use turn_lock::{Kept, TurnLock, TurnSeat};

/// A line of the diary.
#[derive(Clone, Copy, Debug, Drop, PartialEq, Eq)]
struct Line {
    /// The number of the seat that wrote it.
    seat: u32,
    /// Which of its lines it is, from 0.
    text: u32,
}

/// What is written in turns.
#[derive(Drop)]
struct Diary {
    /// Its lines, in the order in which they were written.
    lines: Vec<Line>,
}

impl Kept for Diary {
    type Entry = Line;

    type Base = ();

    ghost stored = { λ diary. diary.lines.items };

    ghost base = { λ diary. tt };

    ghost may_add = { λ base number line. line.seat == number };

    ghost use Rattle.std.proofs.Common.{sym, ◌∙◌};
    ghost use Rattle.std.proofs.lemmas.Bool.{eqb-true};

    ghost alone = { λ base m n line may also.
        sym (eqb-true line.seat m may) ∙ eqb-true line.seat n also };
}

/// Writes one line in a turn. If memory runs out the turn adds nothing.
fn write<R: Wait>(
    rt: &R,
    lock: &TurnLock<Diary>,
    seat: &mut TurnSeat<Diary>,
    line: Line,
) -> Result<(), Memory>
    requires own { IsIdleSeatOf lock.now seat.old }
    requires number { line.seat ≡ seat.old.number }
    requires few { seat.old.entered < 2 ^ 32 }
    ensures own { IsIdleSeatOf lock.now seat.new }
    ensures number { seat.new.number ≡ seat.old.number }
    ensures entered { seat.new.entered ≡ seat.old.entered + 1 }
{
    let mut diary = lock.enter(rt, seat);
    match diary.lines.push(line) {
        Ok(()) => {
            lock.leave(seat, diary);
            Ok(())
        }
        Err(_) => {
            lock.leave(seat, diary);
            Err(Memory)
        }
    }
}

/// Writes `lines` lines, a turn each.
fn write_all<R: Wait>(
    rt: &R,
    lock: &TurnLock<Diary>,
    seat: &mut TurnSeat<Diary>,
    number: u32,
    lines: u32,
)
    requires own { IsIdleSeatOf lock.now seat.old }
    requires number { number ≡ seat.old.number }
    requires fresh { seat.old.entered ≡ 0 }
    ensures own { IsIdleSeatOf lock.now seat.new }
{
    for text in 0..lines {
        // the test counts what was written
        let _written = write(rt, lock, seat, Line { seat: number, text });
    }
}

/// Each seat writes `lines` lines in a thread of its own.
fn all_write<R: Threads + Wait + Sync>(
    rt: &R,
    lock: &TurnLock<Diary>,
    seats: &mut [TurnSeat<Diary>],
    lines: u32,
)
    requires some { 0 < length seats.old }
    requires few { length seats.old ≤ 32 }
    requires fresh { (i : ℕ) (d : _) → i < length seats.old →
        IsNth lock.now i (slice_index_or seats.old i d) }
    ensures own { (i : ℕ) (d : _) → i < length seats.old →
        IsIdleSeatOf lock.now (slice_index_or seats.new i d) }
{
    let threads = seats.len();
    thread::for_each_mut(
        rt,
        seats,
        threads,
        &|i, seat|
            requires { IsNth lock.now i seat.now × (i < 32) }
            ensures { IsIdleSeatOf lock.entry.now seat.exit.now }
        { write_all(rt, lock, seat, i as u32, lines) },
    );
}

/// What the seats write, a thread each, each `lines` lines.
fn written_by_all<R: Threads + Wait + Sync>(
    rt: &R,
    alloc: Global,
    seats: u32,
    lines: u32,
) -> Result<Diary, Memory>
    requires some { 0 < seats }
    requires few { seats ≤ 32 }
{
    let diary = Diary {
        lines: Vec::with_capacity(alloc, 4096)?,
    };
    let (lock, mut all) = TurnLock::new(alloc, diary, seats)?;
    all_write(rt, &lock, all.as_mut_slice(), lines);
    Ok(lock.close(all))
}

/// How many lines each seat wrote, if each line is the next one of its seat.
fn lines_of_seats(alloc: Global, diary: &Diary, seats: u32) -> Result<Vec<u32>, Fail> {
    let mut counts = vec![in alloc; 0u32; seats as usize]?;
    for line in &diary.lines {
        match counts.get_mut(line.seat as usize) {
            Some(count) if *count == line.text => *count = count.wrapping_add(1),
            _ => return Err("a line that isn't its seat's next".into()),
        }
    }
    Ok(counts)
}

#[test]
fn each_line_is_there_once_and_in_order(rt: HostRuntime) -> Result<(), Fail> {
    // how many seats there are, how many lines each writes, and how many the diary has in the end
    for (seats, lines, all) in [(1, 3, 3), (2, 2, 4), (3, 1000, 3000)] {
        let diary = written_by_all(&rt, rt.alloc(), seats, lines)?;
        let counts = lines_of_seats(rt.alloc(), &diary, seats)?;
        let each = vec![in rt.alloc(); lines; seats as usize]?;
        assert_eq!(rt;
            (seats, diary.lines.len(), counts.as_slice()),
            (seats, all, each.as_slice())
        );
    }
    Ok(())
}
