//! A worker of the pool: it fetches works and decodes them until the takers have ended and no work
//! is left.
ghost use Rattle.std.specs.Prelude.{◌≡◌, [], ◌∷◌, ◌++◌, OnOk};
ghost use Rattle.block_pool.specs.Pieces.{IsPieceOf};
ghost use Rattle.block_pool.specs.Workers.{HasDecoded, IsFreshWorker};
ghost use Rattle.work_queue.specs.Works.{IsLawfulWork};

use crate::pieces::{DecodedPiece, piece_of};
use cpu_feeders::{Gate, Point};
use fanout_group::{Dealer, DealerSeat};
use frame_view::Memory;
use std::alloc::Global;
use std::sync::Wait;
use turn_lock::Backoff;
use work_queue::{Work, WorkPass, WorkQueue};

/// The most calls of `fetch` that a worker makes.
const MOST_FETCHES: u64 = (1 << 40) - 1;

/// A worker's thread.
#[derive(Drop)]
pub struct PoolWorker {
    /// Its number among the workers, from 0.
    pub index: u32,
    /// Its pass of the queue.
    pub pass: WorkPass,
    /// Its seat at the dealer, by which it knows whether the takers are still running.
    pub seat: DealerSeat,
    /// How often it has called `fetch`.
    pub fetches: u64,
    /// What it has decoded, in the order in which it was fetched.
    pub pieces: Vec<DecodedPiece>,
    /// Whether an allocation failed.
    pub full: bool,
}

/// What decodes works.
#[derive(Drop)]
pub(crate) struct WorkDecoder<'a, G> {
    /// Allocates what is decoded.
    pub(crate) alloc: Global,
    /// Where a test may hold a thread.
    pub(crate) gate: &'a G,
    /// Whether texts are kept.
    pub(crate) dumps: bool,
}

impl<'a, G: Gate> WorkDecoder<'a, G> {
    /// Decodes a work for the worker of this number, and puts its piece after the others.
    pub(crate) fn keep(
        &self,
        worker: u32,
        pieces: &mut Vec<DecodedPiece>,
        work: Work,
    ) -> Result<(), Memory>
        requires lawful { IsLawfulWork work }
        ensures { OnOk result ((piece : _) × IsPieceOf self.now.dumps work piece
            × (pieces.new.items ≡ pieces.old.items ++ piece ∷ [])) }
    {
        self.gate.at(Point::Decoding {
            worker,
            member: work.member,
            number: work.number,
        });
        pieces.push(piece_of(self.alloc, work, self.dumps)?)?;
        Ok(())
    }
}

/// What all workers share.
#[derive(Drop)]
pub(crate) struct Pool<'a, G> {
    /// Holds the works.
    pub(crate) queue: &'a WorkQueue,
    /// Knows whether the takers are still running.
    pub(crate) dealer: &'a Dealer,
    /// Decodes the works.
    pub(crate) decoder: &'a WorkDecoder<'a, G>,
}

/// Fetches works and decodes them. It ends if a poll found no work after the takers had ended, if
/// an allocation failed, and after as many polls as a pass may make.
///
/// The takers are counted before each poll, so that what they handed before they ended is seen.
pub(crate) fn run_pool_worker<R: Wait, G: Gate>(
    rt: &R,
    pool: &Pool<G>,
    pool_worker: &mut PoolWorker,
)
    requires fresh { IsFreshWorker pool.now.queue.now pool.now.dealer.now pool_worker.old }
    ensures { HasDecoded pool.now.decoder.now.dumps pool.now.queue.now
        pool_worker.old pool_worker.new }
{
    let mut backoff = Backoff::for_work();
    for _ in rt.forever() {
        if pool_worker.fetches >= MOST_FETCHES {
            return;
        }
        let live = pool.dealer.live(&mut pool_worker.seat);
        pool_worker.fetches += 1;
        match pool.queue.fetch(rt, &mut pool_worker.pass) {
            Some(work) => {
                backoff.found();
                let pieces = &mut pool_worker.pieces;
                let kept = pool.decoder.keep(pool_worker.index, pieces, work);
                if kept.is_err() {
                    pool_worker.full = true;
                    return;
                }
            }
            None => {
                if live == 0 {
                    return;
                }
                backoff.wait(rt);
            }
        }
    }
    unreachable!()
}
