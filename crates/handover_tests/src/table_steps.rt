//! A ring of two blocks between two threads, step by step in one thread, and how it is finished.
ghost use Rattle.std.specs.Prelude.{◌≡◌, ◌<◌, ◌≤◌, ◌+◌, false, length, IfSome};

use crate::letters::Letter;
use frame_view::Memory;
use ring_words::{
    FeederEnd, Next, Pending, TableFeeder, TableWalker, WalkerEnd, finish, table_ring,
};
use std::alloc::Global;
use std::process::Abort;
use std::test::Fail;

/// Fills the next block with a letter and retires it; or the number of the block that is still
/// there.
pub(crate) fn fill(feeder: &mut TableFeeder<Letter>, letter: u8) -> Option<u64>
    requires hand { feeder.old.given ≡ length feeder.old.retired }
    requires few { feeder.old.given < 1000000 }
    ensures ring { feeder.new.id ≡ feeder.old.id }
    ensures hand { feeder.new.given ≡ length feeder.new.retired }
    ensures more { feeder.new.given ≤ feeder.old.given + 1 }
    ensures held { IfSome result (λ number. feeder.new.given ≡ feeder.old.given) }
{
    match feeder.next() {
        Next::Free { .. } => {
            feeder.retire(Letter(letter), 1);
            None
        }
        Next::Held(number) => Some(number),
    }
}

/// Takes the next block and releases it, and returns its letter.
pub(crate) fn read(walker: &mut TableWalker<Letter>) -> Option<u8>
    requires hand { walker.old.in_hand ≡ false }
    ensures hand { walker.new.in_hand ≡ false }
    ensures ring { walker.new.id ≡ walker.old.id }
{
    let letter = walker.take()?;
    let read = letter.0;
    walker.release(letter, 0);
    Some(read)
}

/// What is read from an empty ring, how three blocks are filled, what is then read, and whether the
/// next block is free.
type Steps = (Option<u8>, [Option<u64>; 3], Option<u8>, bool);

/// These steps with a new ring, and what is pending then.
fn steps(alloc: Global) -> Result<(Steps, Pending<Letter>), Memory> {
    let blocks = Vec::from_array(alloc, [Letter(0), Letter(0)])?;
    let (mut feeder, mut walker) = table_ring(alloc, blocks)?;
    let steps = (
        read(&mut walker),
        [
            fill(&mut feeder, b'a'),
            fill(&mut feeder, b'b'),
            fill(&mut feeder, b'c'),
        ],
        read(&mut walker),
        matches!(feeder.next(), Next::Free { .. }),
    );
    Ok((steps, finish(alloc, feeder, walker)?))
}

/// The letter and the status of a block that is pending.
fn letter_at(pending: &Pending<Letter>, at: usize) -> Option<(u8, u32)> {
    let (letter, status) = pending.get(at)?;
    Some((letter.0, status))
}

/// The third block isn't filled; once the first was read its place is free; then one block with the
/// letter b is pending.
fn check_steps(rt: &impl Abort, steps: Steps, pending: &Pending<Letter>, text: &str) {
    let first = letter_at(pending, 0);
    let second = letter_at(pending, 1);
    assert_eq!(rt;
        (steps, text, pending.len(), first, second),
        (
            (None, [None, None, Some(1)], Some(b'a'), true),
            "Pending { blocks: 1, .. }",
            1,
            Some((b'b', 1)),
            None
        )
    );
}

#[test]
fn a_place_is_held_until_its_block_was_released(rt: HostRuntime) -> Result<(), Fail> {
    let (steps, pending) = steps(rt.alloc())?;
    let text = format!(in rt.alloc(); "{pending:?}")?;
    check_steps(&rt, steps, &pending, text.as_str());
    Ok(())
}
