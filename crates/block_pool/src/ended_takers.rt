//! What takers and workers leave after the joins.
ghost use Rattle.std.specs.Prelude.{◌≡◌, ◌++◌, [], List, false, flat_map, length, map, IfOk, OnOk};
ghost use Rattle.std.specs.List.{AllByRecursion, AllZip};
ghost use Rattle.block_pool.specs.Pieces.{IsPieceOf};
ghost use Rattle.block_pool.specs.inside.PieceTables.{AreFull, HasPlaceIn, counts_of, empty_table};
ghost use Rattle.block_pool.specs.inside.PieceTables.{put_each, read_of};
ghost use Rattle.block_pool.specs.Takers.{HasNumbered};
ghost use Rattle.work_queue.specs.Works.{IsLawfulWork};

use crate::pieces::DecodedPiece;
use crate::tables::{PieceTable, put_all, read_all};
use crate::takers::QueueTaker;
use crate::workers::{PoolWorker, WorkDecoder};
use cpu_feeders::Gate;
use frame_view::Memory;
use reader_walk::Outputs;
use std::alloc::Global;
use std::sync::Wait;
use work_queue::{Work, WorkPass};

/// What the takers and the workers of a run leave.
#[derive(Drop)]
pub(crate) struct Parted {
    /// Their passes, those of the takers first.
    pub(crate) passes: Vec<WorkPass>,
    /// For each taker a table with a place for each of its works.
    pub(crate) tables: Vec<PieceTable>,
    /// The pieces of the workers.
    pub(crate) pieces: Vec<DecodedPiece>,
}

/// Takes the takers of a run apart: their passes, and for each an empty table with a place for each
/// of its works.
fn part_takers<'a, R: Wait>(
    alloc: Global,
    takers: Vec<QueueTaker<'a, R>>,
    passes: &mut Vec<WorkPass>,
) -> Result<Vec<PieceTable>, Memory>
    ensures passes { OnOk result (passes.new.items
        ≡ passes.old.items ++ map (λ taker. taker.pass) takers.entry.items) }
    ensures tables { IfOk result (λ tables. tables.items
        ≡ map (λ taker. empty_table (length taker.pass.handed)) takers.entry.items) }
    ensures numbered { OnOk result (AllByRecursion HasNumbered takers.entry.items) }
{
    let mut tables = Vec::with_capacity(alloc, takers.len())?;
    for taker in takers {
        let (pass, handed) = taker.into_parts();
        tables.push(PieceTable::new(alloc, handed as usize)?)?;
        passes.push(pass)?;
    }
    Ok(tables)
}

/// Takes the workers of a run apart: their passes, and their pieces. The error may also be that one
/// of them ran out of memory.
fn part_workers(
    alloc: Global,
    pool_workers: Vec<PoolWorker>,
    passes: &mut Vec<WorkPass>,
) -> Result<Vec<DecodedPiece>, Memory>
    ensures passes { OnOk result (passes.new.items
        ≡ passes.old.items ++ map (λ pool_worker. pool_worker.pass) pool_workers.items) }
    ensures pieces { IfOk result (λ pieces. pieces.items
        ≡ flat_map (λ pool_worker. pool_worker.pieces.items) pool_workers.items) }
    ensures full { OnOk result
        (AllByRecursion (λ pool_worker. pool_worker.full ≡ false) pool_workers.items) }
{
    let mut pieces = Vec::new(alloc);
    for pool_worker in pool_workers {
        if pool_worker.full {
            return Err(Memory);
        }
        let mut own = pool_worker.pieces;
        pieces.append(&mut own)?;
        passes.push(pool_worker.pass)?;
    }
    Ok(pieces)
}

/// Takes the takers and the workers of a run apart. The error may also be that a worker ran out of
/// memory.
pub(crate) fn part_all<'a, R: Wait>(
    alloc: Global,
    takers: Vec<QueueTaker<'a, R>>,
    pool_workers: Vec<PoolWorker>,
) -> Result<Parted, Memory>
    ensures passes { IfOk result (λ parted. parted.passes.items
        ≡ map (λ taker. taker.pass) takers.entry.items
        ++ map (λ pool_worker. pool_worker.pass) pool_workers.items) }
    ensures tables { IfOk result (λ parted. parted.tables.items
        ≡ map (λ taker. empty_table (length taker.pass.handed)) takers.entry.items) }
    ensures pieces { IfOk result (λ parted. parted.pieces.items
        ≡ flat_map (λ pool_worker. pool_worker.pieces.items) pool_workers.items) }
    ensures numbered { OnOk result (AllByRecursion HasNumbered takers.entry.items) }
    ensures full { OnOk result
        (AllByRecursion (λ pool_worker. pool_worker.full ≡ false) pool_workers.items) }
{
    let mut passes = Vec::new(alloc);
    let tables = part_takers(alloc, takers, &mut passes)?;
    let pieces = part_workers(alloc, pool_workers, &mut passes)?;
    Ok(Parted {
        passes,
        tables,
        pieces,
    })
}

/// Decodes the works that no worker fetched, and puts their pieces after the others.
fn decode_left<G: Gate>(
    decoder: &WorkDecoder<G>,
    index: u32,
    works: Vec<Work>,
    pieces: &mut Vec<DecodedPiece>,
) -> Result<(), Memory>
    requires lawful { AllByRecursion IsLawfulWork works.items }
    ensures { OnOk result ((more : _) × AllZip (IsPieceOf decoder.now.dumps) works.items more
        × (pieces.new.items ≡ pieces.old.items ++ more)) }
{
    for work in works {
        decoder.keep(index, pieces, work)?;
    }
    Ok(())
}

/// Decodes the works that no worker fetched, puts all pieces into their places, and reads them out.
pub(crate) fn put_together<G: Gate>(
    decoder: &WorkDecoder<G>,
    index: u32,
    works: Vec<Work>,
    mut tables: Vec<PieceTable>,
    mut pieces: Vec<DecodedPiece>,
) -> Result<Vec<Outputs>, Memory>
    requires lawful { AllByRecursion IsLawfulWork works.items }
    requires places { (more : List _) → AllZip (IsPieceOf decoder.now.dumps) works.items more
        → AllByRecursion (HasPlaceIn (counts_of tables.items)) (pieces.items ++ more) }
    requires full { (more : List _) → AllZip (IsPieceOf decoder.now.dumps) works.items more
        → AreFull (put_each tables.items (pieces.items ++ more)) }
    ensures { IfOk result (λ outputs.
        (more : List _) × AllZip (IsPieceOf decoder.now.dumps) works.items more
        × (outputs.items ≡ map read_of (put_each tables.items (pieces.items ++ more)))) }
{
    decode_left(decoder, index, works, &mut pieces)?;
    put_all(&mut tables, pieces);
    read_all(decoder.alloc, tables)
}
