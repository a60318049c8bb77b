//! The reader of a member: it takes retired blocks, hands them to its taker and releases them.
ghost use Rattle.std.specs.Prelude.{◌≡◌, ◌^◌, ◌<◌, false, [], ◌∷◌, ◌++◌, length};
ghost use Rattle.cpu_feeders.specs.Walks.{FoundNone, HasWalked, Walks};
ghost use Rattle.ring_words.specs.TableEnds.{FoundEven};
ghost use Rattle.reader_walk.specs.Takers.{IsReadable};
ghost use Rattle.tp_layout.specs.Layouts.{taken_in};
ghost use Rattle.ticket_dealer.specs.Seats.{IsFreshOf};

use crate::shared::Shared;
use crate::{Gate, Point};
use fanout_group::DealerSeat;
use frame_view::Memory;
use reader_walk::Taker;
use ring_words::{TableWalker, WalkerEnd};
use std::sync::Wait;
use tp_layout::Block;
use turn_lock::Backoff;

/// The word of a block that is given back: it is the feeder's again (TP_STATUS_KERNEL of
/// `linux/if_packet.h`).
const FREE: u32 = 0;

/// A reader's thread.
#[derive(Drop)]
pub(crate) struct ReaderThread<T: Taker + Drop> {
    /// The number of its member, from 0.
    pub(crate) member: u32,
    /// The reader's end of the member's ring.
    pub(crate) end: TableWalker<Block>,
    /// What reads each block.
    pub(crate) taker: T,
    /// Its seat at the dealer, by which it knows how many feeders are live.
    pub(crate) seat: DealerSeat,
    /// How many blocks it has released.
    pub(crate) released: u64,
    /// Whether an allocation failed: its taker then reads no more, and it only releases what it
    /// takes.
    pub(crate) full: bool,
}

/// Hands a block to a taker, unless an allocation failed before; returns whether one has failed by
/// now.
fn read_block<T: Taker>(taker: &mut T, block: &Block, full: bool) -> bool
    requires readable { IsReadable (T.base taker.old).shape block.now }
    requires few { full ≡ false → length (T.taken taker.old) < 2 ^ 40 }
    ensures base { T.base taker.new ≡ T.base taker.old }
    ensures full { result ≡ false → full ≡ false }
    ensures read { result ≡ false → T.taken taker.new
        ≡ T.taken taker.old ++ taken_in (T.base taker.old).shape block.now.bytes ∷ [] }
{
    if full {
        return true;
    }
    match taker.block(block) {
        Ok(()) => false,
        Err(Memory) => true,
    }
}

/// Takes the next retired block, if there is one, hands it to the taker and releases it. It is
/// released even if an allocation failed.
fn take_next<T: Taker + Drop, G: Gate>(gate: &G, walker: &mut ReaderThread<T>) -> bool
    requires { Walks T.base T.taken (T.base walker.old.taker) walker.old }
    ensures walked { HasWalked T.base T.taken (T.base walker.old.taker) walker.old walker.new }
    ensures seat { walker.new.seat ≡ walker.old.seat }
    ensures none { result ≡ false → FoundEven walker.old.end walker.new.end }
{
    let Some(block) = walker.end.take() else {
        return false;
    };
    walker.full = read_block(&mut walker.taker, &block, walker.full);
    walker.end.release(block, FREE);
    walker.released += 1;
    gate.at(Point::Released {
        member: walker.member,
        blocks: walker.released,
    });
    true
}

/// Reads blocks until no feeder is live and no block waits, and gives each back as a free one.
/// Feeders are counted before each poll, so that what they retired is seen. While no block waits
/// the reader yields between its polls; later it sleeps until a block is retired, or as long as an
/// `Backoff` says.
pub(crate) fn run_reader<T: Taker + Drop, R: Wait, G: Gate>(
    rt: &R,
    shared: &Shared<G>,
    walker: &mut ReaderThread<T>,
)
    requires walks { Walks T.base T.taken (T.base walker.old.taker) walker.old }
    requires seat { IsFreshOf shared.now.dealer.now walker.old.seat }
    ensures walked { HasWalked T.base T.taken (T.base walker.old.taker) walker.old walker.new }
    ensures seat { IsFreshOf shared.now.dealer.now walker.new.seat }

    // It last saw no live feeder, and its last poll found nothing.
    ensures ended { walker.new.seat.live ≡ 0 }
    ensures none { FoundNone walker.new.end }
{
    let mut backoff = Backoff::for_work();
    for _ in rt.forever() {
        let live = shared.dealer.live(&mut walker.seat);
        if take_next(shared.gate, walker) {
            backoff.found();
        } else if live == 0 {
            return;
        } else if !backoff.goes_on() {
            // The next block that is retired wakes it, but not the end of the last feeder.
            let most = backoff.pause();
            walker.end.wait_for_block(rt, most);
        }
    }
    unreachable!()
}
