//! A ring of two blocks on one thread, step by step.
ghost use Rattle.std.specs.Prelude.{◌≡◌, ◌<◌, ◌≤◌, ◌+◌, false};
ghost use Rattle.ring_words.specs.PlainRings.{has_block};

use crate::letters::Letter;
use frame_view::Memory;
use ring_words::{FeederEnd, Next, PlainRing, WalkerEnd};
use std::alloc::Global;
use std::test::Fail;

/// Fills the next block with a letter and retires it; or the number of the block that is still
/// there.
fn fill(ring: &mut PlainRing<Letter>, letter: u8) -> Option<u64>
    requires hand { ring.old.given ≡ ring.old.retired }
    requires few { ring.old.given < 1000 }
    ensures hand { ring.new.given ≡ ring.new.retired }
    ensures more { ring.new.given ≤ ring.old.given + 1 }
    ensures read { has_block ring.new ≡ has_block ring.old }
{
    match ring.next() {
        Next::Free { .. } => {
            ring.retire(Letter(letter), 1);
            None
        }
        Next::Held(number) => Some(number),
    }
}

/// Takes the next block and releases it, and returns its letter.
fn read(ring: &mut PlainRing<Letter>) -> Option<u8>
    requires hand { has_block ring.old ≡ false }
    ensures hand { has_block ring.new ≡ false }
    ensures given { ring.new.given ≡ ring.old.given }
    ensures retired { ring.new.retired ≡ ring.old.retired }
{
    let letter = ring.take()?;
    let read = letter.0;
    ring.release(letter, 0);
    Some(read)
}

/// What is read from an empty ring, how three blocks are filled, what is then read, how two more
/// are filled, and what is read at the end.
type Steps = (
    Option<u8>,
    [Option<u64>; 3],
    Option<u8>,
    [Option<u64>; 2],
    [Option<u8>; 3],
);

/// These steps with a new ring.
fn steps(alloc: Global) -> Result<Steps, Memory> {
    let blocks = Vec::from_array(alloc, [Letter(0), Letter(0)])?;
    let mut ring = PlainRing::new(alloc, blocks)?;
    Ok((
        read(&mut ring),
        [
            fill(&mut ring, b'a'),
            fill(&mut ring, b'b'),
            fill(&mut ring, b'c'),
        ],
        read(&mut ring),
        [fill(&mut ring, b'c'), fill(&mut ring, b'd')],
        [read(&mut ring), read(&mut ring), read(&mut ring)],
    ))
}

#[test]
fn a_place_is_free_once_its_block_was_released(rt: HostRuntime) -> Result<(), Fail> {
    let answers = steps(rt.alloc())?;
    assert_eq!(rt;
        answers,
        (
            None,
            [None, None, Some(1)],
            Some(b'a'),
            [None, Some(2)],
            [Some(b'b'), Some(b'c'), None]
        )
    );
    Ok(())
}
