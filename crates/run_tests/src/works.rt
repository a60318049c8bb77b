//! Works with the text of one block.
ghost use Rattle.std.specs.Prelude.{◌≡◌, IfOk};
ghost use Rattle.work_queue.specs.Works.{IsLawfulWork};

use frame_view::ByteList;
use std::alloc::Global;
use std::test::Fail;
use tp_layout::{RingRequest, walk_text};
use work_queue::Work;

/// Two blocks of a page.
const PAGES: RingRequest = RingRequest {
    block_size: 4096,
    block_nr: 2,
    frame_size: 2048,
    frame_nr: 4,
    tov: 0,
    sizeof_priv: 0,
    features: 0,
};

/// A block with one frame of 14 bytes, at 1 second and 2,000 nanoseconds.
const TEXT: &[u8] = b"\x02\x00\x00\x00\x30\x00\x00\x00\x01\x00\x00\x00\x01\x00\x00\x00\
    \x30\x00\x00\x00\x90\x00\x00\x00\x01\x00\x00\x00\x00\x00\x00\x00\
    \x01\x00\x00\x00\xd0\x07\x00\x00\x01\x00\x00\x00\xd0\x07\x00\x00\
    \x00\x00\x00\x00\x01\x00\x00\x00\xd0\x07\x00\x00\x0e\x00\x00\x00\
    \x0e\x00\x00\x00\x01\x00\x00\x00\x52\x00\x60\x00\x00\x00\x00\x00\
    \x00\x00\x00\x00\x00\x00\x00\x00\x00\x00\x00\x00\x00\x00\x00\x00\
    \x11\x00\x08\x06\x01\x00\x00\x00\x01\x00\x01\x06\x02\x00\x00\x00\
    \x00\x01\x00\x00\x00\x00\x00\x00\x00\x00\x00\x00\x00\x00\x00\x00\
    \x00\x00\xff\xff\xff\xff\xff\xff\x02\x00\x00\x00\x00\x01\x08\x06";

/// The work of a member and a number, with that block.
pub(crate) fn work(alloc: Global, member: u32, number: u64) -> Result<Work, Fail>
    ensures { IfOk result IsLawfulWork }
{
    let shape = PAGES.check()?;
    let text = TEXT.to_vec(alloc)?;
    if text.len() < 48 || text.len() > shape.block_size() as usize {
        return Err("the text of a block of a page".into());
    }
    match walk_text(text.as_slice(), &shape) {
        Ok(_packets) => Ok(Work {
            member,
            number,
            shape,
            text: ByteList::from_vec(text),
        }),
        Err(error) => Err(error.into()),
    }
}
