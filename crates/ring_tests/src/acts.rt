//! What is done to a ring, and the result.
ghost use Rattle.std.specs.Prelude.{◌≡◌, ◌+◌, ◌<◌, ◌≤◌, false, length};
ghost use Rattle.ring_words.specs.PlainRings.{has_block};

use crate::producer_calls::{
    Ring, fitting, new_ring, offer, put, read_ring, take_stats, tick, try_put,
};
use crate::seen_blocks::{Seen, read};
use frame_view::Memory;
use ring_model::{Found, Note, Notes};
use std::alloc::Global;
use std::test::Fail;
use tp_layout::{RingRequest, Shape};

/// What is done to a ring.
#[derive(Clone, Copy)]
pub(crate) enum Act {
    /// A frame of this number and length is put.
    Put(u32, u32),
    /// The frame is tried.
    Try(u32, u32),
    Tick(u64),
    Read,
    Stats,
}

/// What a note says, with only the number of its frame.
#[derive(Clone, Copy, Debug, PartialEq, Eq)]
pub(crate) enum Said {
    Kept(u32, Found),
    Refused(u32, u64),
    Dropped(u32, u64),
    Ticked(u64, Found),
    Counted,
    Finished,
}

fn say(note: &Note) -> Said {
    match note {
        Note::Kept { offer, found } => Said::Kept(offer.frame.index, *found),
        Note::Refused { index, number, .. } => Said::Refused(*index, *number),
        Note::Dropped { index, number, .. } => Said::Dropped(*index, *number),
        Note::Ticked { ms, found } => Said::Ticked(*ms, *found),
        Note::Counted => Said::Counted,
        Note::Finished => Said::Finished,
    }
}

/// The result of a ring: its notes, the number, status and end of each block that was read, and the
/// statistics.
#[derive(Drop)]
pub(crate) struct Ran {
    pub(crate) notes: Notes,
    pub(crate) read: Vec<Seen>,
    pub(crate) stats: Vec<(u64, u64, u64)>,
}

/// Does one act at a ring.
fn do_act(
    alloc: Global,
    shape: &Shape,
    ring: &mut Ring,
    act: Act,
    ran: &mut Ran,
) -> Result<(), Memory>
    requires shape { shape.now ≡ ring.old.shape }
    requires hand { has_block ring.old.end ≡ false }
    requires few { length ring.old.notes < 1000 }
    ensures shape { ring.new.shape ≡ ring.old.shape }
    ensures hand { has_block ring.new.end ≡ false }
    ensures few { length ring.new.notes ≤ length ring.old.notes + 1 }
{
    match act {
        Act::Put(index, length) => put(ring, offer(alloc, index, fitting(shape, length))?),
        Act::Try(index, length) => try_put(ring, offer(alloc, index, fitting(shape, length))?),
        Act::Tick(ms) => tick(ring, ms),
        Act::Read => read_ring(ring, &mut ran.read),
        Act::Stats => {
            ran.stats.push(take_stats(ring)?)?;
            Ok(())
        }
    }
}

/// Does these acts at a new ring, closes it and reads what is left.
pub(crate) fn run(alloc: Global, request: RingRequest, acts: &[Act]) -> Result<Ran, Fail>
    requires { length acts.now < 100 }
{
    let shape = request.check()?;
    let mut ring = new_ring(alloc, &shape)?;
    let mut ran = Ran {
        notes: Notes::new(alloc),
        read: Vec::new(alloc),
        stats: Vec::new(alloc),
    };
    for act in acts {
        do_act(alloc, &shape, &mut ring, *act, &mut ran)?;
    }
    let (mut end, notes) = ring.finish();
    ran.notes = notes;
    for _ in 0..4 {
        read(&mut end, &mut ran.read)?;
    }
    Ok(ran)
}

/// What notes say.
pub(crate) fn says(alloc: Global, notes: &Notes) -> Result<Vec<Said>, Fail> {
    let mut all = Vec::new(alloc);
    for note in notes.as_slice() {
        all.push(say(note))?;
    }
    Ok(all)
}
