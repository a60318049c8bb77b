//! What is kept of a decoded work until all pieces are put together.
ghost use Rattle.std.specs.Prelude.{◌≡◌, IfOk};
ghost use Rattle.block_pool.specs.Pieces.{IsPieceOf, work_taken};
ghost use Rattle.reader_walk.specs.Texts.{text_by};
ghost use Rattle.work_queue.specs.Works.{IsLawfulWork};

use crate::decode;
use frame_view::{ByteList, Memory, Packets};
use reader_walk::a_text_is_read_as_it_was_written;
use std::alloc::Global;
use tp_layout::a_shape_is_sound;
use work_queue::Work;

/// A work that was decoded.
#[derive(Debug, Drop)]
pub struct DecodedPiece {
    /// The number of its member, from 0.
    pub member: u32,
    /// Which of the member's blocks it is, from 1.
    pub number: u64,
    /// The block's packets.
    pub packets: Packets,
    /// The block's text, if texts are kept.
    pub text: ByteList,
}

/// What is kept of the text of a work.
fn kept_text(alloc: Global, work: Work, dumps: bool) -> ByteList
    requires lawful { IsLawfulWork work }
    ensures { result ≡ text_by dumps work.shape (work_taken work) }
{
    a_text_is_read_as_it_was_written();
    a_shape_is_sound(&work.shape);
    if dumps {
        work.text
    } else {
        ByteList::new(alloc)
    }
}

/// Decodes a work, and keeps its text if it is asked to.
pub(crate) fn piece_of(alloc: Global, work: Work, dumps: bool) -> Result<DecodedPiece, Memory>
    requires lawful { IsLawfulWork work }
    ensures { IfOk result (IsPieceOf dumps work) }
{
    let packets = decode(alloc, &work)?;
    Ok(DecodedPiece {
        member: work.member,
        number: work.number,
        packets,
        text: kept_text(alloc, work, dumps),
    })
}
