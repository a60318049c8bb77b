//! Pieces of members, put together by number.
ghost use Rattle.std.specs.Prelude.{◌≡◌, ◌<◌, length, map, slice_set, Some, IfOk};
ghost use Rattle.std.specs.List.{AllByRecursion};
ghost use Rattle.block_pool.specs.inside.PieceTables.{AreFull, HasPlaceIn, IsFull, counts_of};
ghost use Rattle.block_pool.specs.inside.PieceTables.{empty_table, put_each, read_of};

use crate::pieces::DecodedPiece;
use frame_view::{Memory, Packets};
use reader_walk::{Dump, Outputs};
use std::alloc::Global;
use std::marker::Model;

/// Places for the pieces of a member, by number.
#[derive(Drop)]
pub(crate) struct PieceTable {
    /// The pieces, that of number 1 first.
    places: Vec<Option<DecodedPiece>>,
}

impl Model for PieceTable {
    ghost use Rattle.std.specs.Prelude.{List, Option};
    ghost use Rattle.block_pool.specs.declared.pieces.DecodedPiece.{DecodedPiece};

    ghost Value = { List (Option DecodedPiece) };

    ghost view = { λ table. table.places.items };
}

impl PieceTable {
    /// Empty places for `count` pieces.
    pub(crate) fn new(alloc: Global, count: usize) -> Result<PieceTable, Memory>
        ensures { IfOk result (λ table. table ≡ empty_table count) }
    {
        let mut places = Vec::with_capacity(alloc, count)?;
        for _ in 0..count {
            places.push(None)?;
        }
        Ok(PieceTable { places })
    }

    /// Puts a piece into a place.
    fn put(&mut self, at: usize, piece: DecodedPiece)
        requires { at < length self.old }
        ensures { self.new ≡ slice_set self.old at (Some piece) }
    {
        self.places[at] = Some(piece);
    }

    /// All packets and texts, one after another, and the number of pieces. Each place has one.
    pub(crate) fn read_out(self, alloc: Global) -> Result<Outputs, Memory>
        requires full { IsFull self }
        ensures { IfOk result (λ outputs. outputs ≡ read_of self) }
    {
        let blocks = self.places.len() as u64;
        let mut walked = Vec::new(alloc);
        let mut dump = Dump::new(alloc);
        for place in self.places {
            let Some(piece) = place else { unreachable!() };
            walked.append(&mut piece.packets.into_vec())?;
            dump.push(alloc, piece.text.as_slice())?;
        }
        Ok(Outputs {
            walked: Packets::from_vec(walked),
            dump,
            blocks,
        })
    }
}

/// Puts each piece into the place of its member and number.
pub(crate) fn put_all(tables: &mut Vec<PieceTable>, pieces: Vec<DecodedPiece>)
    requires places { AllByRecursion (HasPlaceIn (counts_of tables.old.items)) pieces.items }
    ensures { tables.new.items ≡ put_each tables.old.items pieces.items }
{
    for piece in pieces {
        tables[piece.member as usize].put(piece.number as usize - 1, piece);
    }
}

/// What is read out of full tables.
pub(crate) fn read_all(alloc: Global, tables: Vec<PieceTable>) -> Result<Vec<Outputs>, Memory>
    requires full { AreFull tables.items }
    ensures { IfOk result (λ outputs. outputs.items ≡ map read_of tables.items) }
{
    let mut outputs = Vec::with_capacity(alloc, tables.len())?;
    for table in tables {
        outputs.push(table.read_out(alloc)?)?;
    }
    Ok(outputs)
}
