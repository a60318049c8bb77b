//! A ring between two threads, both ends driven by one: each block is filled, taken and released at
//! once, so an end that finds its block held, or none there, hasn't looked.
ghost use Rattle.std.specs.Prelude.{◌≡◌, false, length};

use crate::letters::Letter;
use crate::table_steps::{fill, read};
use frame_view::Memory;
use ring_words::{TableFeeder, TableWalker, table_ring};
use std::alloc::Global;
use std::test::Fail;

/// How often each block is filled and read.
const ROUNDS: u32 = 300;

/// Fills a block and reads it, round after round, each with another letter; returns the first round
/// in which the block was held, or none was there, or another letter was read.
fn first_miss(feeder: &mut TableFeeder<Letter>, walker: &mut TableWalker<Letter>) -> Option<u32>
    requires fresh { feeder.old.given ≡ 0 }
    requires retired { length feeder.old.retired ≡ 0 }
    requires hand { walker.old.in_hand ≡ false }
{
    for round in 0..ROUNDS {
        let letter = (round % 251) as u8;
        let held = fill(feeder, letter);
        if held.is_some() || read(walker) != Some(letter) {
            return Some(round);
        }
    }
    None
}

/// The first such round with a new ring of two blocks.
fn miss_of_two(alloc: Global) -> Result<Option<u32>, Memory> {
    let blocks = Vec::from_array(alloc, [Letter(0), Letter(0)])?;
    let (mut feeder, mut walker) = table_ring(alloc, blocks)?;
    Ok(first_miss(&mut feeder, &mut walker))
}

/// The first such round with a new ring of three blocks.
fn miss_of_three(alloc: Global) -> Result<Option<u32>, Memory> {
    let blocks = Vec::from_array(alloc, [Letter(0), Letter(0), Letter(0)])?;
    let (mut feeder, mut walker) = table_ring(alloc, blocks)?;
    Ok(first_miss(&mut feeder, &mut walker))
}

#[test]
fn a_block_that_was_released_is_free_and_one_that_was_retired_is_there(
    rt: HostRuntime,
) -> Result<(), Fail> {
    assert_eq!(rt; miss_of_two(rt.alloc())?, None);
    assert_eq!(rt; miss_of_three(rt.alloc())?, None);
    Ok(())
}
