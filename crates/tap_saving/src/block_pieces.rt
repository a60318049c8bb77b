//! The blocks of a dump, a piece at a time.
ghost use Rattle.std.specs.Prelude.{◌≡◌, []};
ghost use Rattle.tap_saving.specs.inside.Plans.{left_of};

use reader_walk::Dump;
use tap_outside::Pieces;

/// The bytes of a dump, a piece at a time. Contracts see those that are left.
#[derive(Drop)]
pub(crate) struct BlockPieces<'a> {
    /// What is left of the piece of the dump that is being saved.
    rest: &'a [u8],
    /// The pieces of the dump after it, but for the last one.
    pieces: &'a [Vec<u8>],
    /// The last piece, if it is after it.
    last: &'a [u8],
}

impl<'a> BlockPieces<'a> {
    /// All bytes of a dump. It takes no memory.
    pub(crate) fn new(dump: &'a Dump) -> BlockPieces<'a>
        ensures { ⟦<BlockPieces<'a> as Pieces>⟧.left result ≡ dump.now }
    {
        let (pieces, last) = dump.pieces();
        BlockPieces {
            rest: &[],
            pieces,
            last,
        }
    }

    /// Goes on to the next piece that isn't empty, if none is left of this one.
    fn turn(&mut self)
        ensures left { left_of self.new ≡ left_of self.old }
        ensures none { self.new.rest.now ≡ [] → left_of self.new ≡ [] }
    {
        while self.rest.is_empty() {
            let Some((first, others)) = self.pieces.split_first() else {
                self.rest = self.last;
                self.last = &[];
                return;
            };
            self.rest = first.as_slice();
            self.pieces = others;
        }
    }
}

impl<'a> Pieces for BlockPieces<'a> {
    ghost use Rattle.tap_saving.specs.inside.Plans.{left_of};

    ghost left = { left_of };

    fn append_to(&mut self, buffer: &mut Vec<u8>) -> bool {
        self.turn();
        let room = buffer.capacity() - buffer.len();
        let (front, rest) = self.rest.split_at(room.min(self.rest.len()));
        let Ok(()) = buffer.extend_from_slice(front) else {
            unreachable!();
        };
        self.rest = rest;
        !front.is_empty()
    }
}
