//! Blocks read from bytes, in one pass. The first block of a feed is completed in the kept bytes,
//! those after it are read in place, and of what is left only as much is kept as its block needs:
//! the tail, if it is skipped.
ghost use Rattle.std.specs.Prelude.{◌≡◌, ◌+◌, ◌*◌, ◌-◌, ◌≤◌, ◌<◌, ℕ, List, ⊤, [], ◌++◌, false};
ghost use Rattle.std.specs.Prelude.{true, length, take, drop, Some, IfOk, OnOk, OnErr, IfSome};
ghost use Rattle.std.specs.Prelude.{MatchOption, MatchResult};
ghost use Rattle.pcapng_blocks.specs.Heads.{look_at, is_skipped, IsHead};
ghost use Rattle.pcapng_blocks.specs.Bodies.{IsWithin, frames_in, meaning_of};
ghost use Rattle.pcapng_blocks.specs.Blocks.{spot_after, split_from, HasBlock};
ghost use Rattle.pcapng_blocks.specs.Feeds.{spot_of, waiting, rest_in, Comes, IsSkipping, IsSkip};
ghost use Rattle.pcapng_blocks.specs.Feeds.{IsPart, IsKept, StaysSound, Extends, Feeds, IsReadTo};
ghost use Rattle.pcapng_blocks.specs.declared.heads.Look.TheVariants.{Headed};
ghost use Rattle.pcapng_blocks.specs.declared.stage.BlockStage.TheVariants.{Blocks};

use crate::bodies::{Meaning, frame_of, read_block};
use crate::fronts::{Front, front_of};
use crate::heads::{Head, Look, look_at};
use crate::interfaces::Interface;
use crate::stage::{BlockStage, Skip};
use crate::{BlockError, Order};
use frame_view::{Frames, Memory};
use std::alloc::Global;

/// The fewest bytes of a block.
const LEAST_BLOCK: usize = 12;

/// The number of bytes of a block's tail, which repeats its total length.
const TAIL_SIZE: usize = 4;

/// A place in a capture where a block may begin.
#[derive(Clone, Copy, Debug)]
pub(crate) struct Cursor {
    /// The number of bytes before it.
    pub stop: usize,
    /// The number of packets before it.
    pub index: u32,
    /// The byte order of its section.
    pub order: Order,
    /// Where the interfaces of its section begin among those that are held.
    pub first: usize,
}

/// How far a feed has read.
#[derive(Clone, Copy)]
pub(crate) struct BlockProgress {
    /// What comes next.
    pub stage: BlockStage,
    /// Where that is, or where the damage is.
    pub cursor: Cursor,
    /// The number of kept bytes that have been read.
    pub cut: usize,
}

/// What a decoder holds between feeds.
#[derive(Debug, Drop)]
pub(crate) struct Held {
    /// The bytes after the last block that was read.
    pub kept: Vec<u8>,
    /// The interfaces of the section.
    pub interfaces: Vec<Interface>,
}

/// Where the split of bytes into blocks stopped.
#[derive(Clone, Copy)]
pub(crate) struct Split<'a> {
    /// The place.
    pub cursor: Cursor,
    /// The test that failed there, if one did.
    pub fault: Option<BlockError>,
    /// The bytes from there on.
    pub left: &'a [u8],
}

/// What blocks are read with.
#[derive(Clone, Copy)]
pub(crate) struct BlockReader {
    /// Allocates a frame's bytes.
    pub alloc: Global,
    /// The CPU number that its frames carry.
    pub cpu: u32,
}

impl BlockReader {
    /// Reads on in a capture at a stage. Frames, bytes and interfaces are only appended, so that
    /// the earlier state can be restored after `Memory`.
    pub(crate) fn read_on(
        self,
        stage: BlockStage,
        cursor: Cursor,
        piece: &[u8],
        held: &mut Held,
        into: &mut Frames,
    ) -> Result<BlockProgress, Memory>
        requires first { cursor.first ≤ length held.old.interfaces.items }
        requires count { 16 * cursor.index ≤ cursor.stop }
        requires kept { IsKept stage (spot_of cursor held.old.interfaces.items) held.old.kept.items
            (33554432 - length piece.now) }
        requires few { length piece.now ≤ 33554432 }
        ensures ok { IfOk result (λ read. Feeds self.cpu stage cursor held.old piece.now into.old
            read held.new into.new) }
        ensures ends { IfOk result (λ progress. IsReadTo progress held.new) }
        ensures sound { IfOk result (λ progress. (fed : ℕ)
            → IsKept stage (spot_of cursor held.old.interfaces.items) held.old.kept.items fed
            → StaysSound progress held.new (fed + length piece.now)) }
        ensures kept { Extends held.old.kept.items held.new.kept.items }
        ensures interfaces { Extends held.old.interfaces.items held.new.interfaces.items }
        ensures frames { Extends into.old into.new }
    {
        match stage {
            BlockStage::Blocks => self.go_on(cursor, piece, held, into),
            BlockStage::Skipping(skip) => self.skip_on(cursor, skip, 0, piece, held, into),
            BlockStage::Damaged(_) => Ok(BlockProgress {
                stage,
                cursor,
                cut: 0,
            }),
        }
    }

    /// Reads on with a part of a block in the kept bytes: that block, and then the piece after it.
    fn go_on(
        self,
        cursor: Cursor,
        piece: &[u8],
        held: &mut Held,
        into: &mut Frames,
    ) -> Result<BlockProgress, Memory>
        requires first { cursor.first ≤ length held.old.interfaces.items }
        requires count { 16 * cursor.index ≤ cursor.stop }
        requires part { IsPart (spot_of cursor held.old.interfaces.items) held.old.kept.items }
        requires bound { cursor.stop + length held.old.kept.items + length piece.now ≤ 33554432 }
        ensures ok { IfOk result (λ progress. Comes
            (split_from self.cpu (spot_of cursor held.old.interfaces.items) into.old
            (held.old.kept.items ++ piece.now))
            progress held.new.kept.items held.new.interfaces.items into.new) }
        ensures ends { IfOk result (λ progress. IsReadTo progress held.new) }
        ensures sound { IfOk result (λ progress. (fed : ℕ)
            → cursor.stop + length held.old.kept.items + length piece.now ≤ fed
            → StaysSound progress held.new fed) }
        ensures kept { Extends held.old.kept.items held.new.kept.items }
        ensures interfaces { Extends held.old.interfaces.items held.new.interfaces.items }
        ensures frames { Extends into.old into.new }
    {
        let behind = top_up(&mut held.kept, LEAST_BLOCK, piece)?;
        match look_at(cursor.order, cursor.stop, held.kept.as_slice()) {
            Look::Short => Ok(BlockProgress {
                stage: BlockStage::Blocks,
                cursor,
                cut: 0,
            }),
            Look::Bad(error) => Ok(BlockProgress {
                stage: BlockStage::Damaged(error),
                cursor,
                cut: held.kept.len(),
            }),
            Look::Headed(head) => {
                if head.kind.is_skipped() {
                    let cut = (head.total as usize - TAIL_SIZE).min(held.kept.len());
                    let left = head.total as usize - TAIL_SIZE - cut;
                    self.skip_on(cursor, Skip { head, left }, cut, behind, held, into)
                } else {
                    self.complete(cursor, head, behind, held, into)
                }
            }
        }
    }

    /// Completes the kept bytes of a block that is read, and reads it and then what is after it.
    fn complete(
        self,
        cursor: Cursor,
        head: Head,
        piece: &[u8],
        held: &mut Held,
        into: &mut Frames,
    ) -> Result<BlockProgress, Memory>
        requires first { cursor.first ≤ length held.old.interfaces.items }
        requires count { 16 * cursor.index ≤ cursor.stop }
        requires head { look_at cursor.order cursor.stop held.old.kept.items ≡ Headed head }
        requires total { IsHead head }
        requires part { length held.old.kept.items ≤ head.total }
        requires reads { is_skipped head.kind ≡ false }
        requires bound { cursor.stop + length held.old.kept.items + length piece.now ≤ 33554432 }
        ensures ok { IfOk result (λ progress. Comes
            (split_from self.cpu (spot_of cursor held.old.interfaces.items) into.old
            (held.old.kept.items ++ piece.now))
            progress held.new.kept.items held.new.interfaces.items into.new) }
        ensures ends { IfOk result (λ progress. IsReadTo progress held.new) }
        ensures sound { IfOk result (λ progress. (fed : ℕ)
            → cursor.stop + length held.old.kept.items + length piece.now ≤ fed
            → StaysSound progress held.new fed) }
        ensures kept { Extends held.old.kept.items held.new.kept.items }
        ensures interfaces { Extends held.old.interfaces.items held.new.interfaces.items }
        ensures frames { Extends into.old into.new }
    {
        let size = head.total as usize;
        let fresh = top_up(&mut held.kept, size, piece)?;
        if held.kept.len() < size {
            return Ok(BlockProgress {
                stage: BlockStage::Blocks,
                cursor,
                cut: 0,
            });
        }
        let (_, interfaces) = held.interfaces.as_slice().split_at(cursor.first);
        match read_block(interfaces, cursor.stop, head, held.kept.as_slice()) {
            Ok(meaning) => {
                let block = held.kept.as_slice();
                let next = self.advance(cursor, head, meaning, block, &mut held.interfaces, into)?;
                self.read_fresh(next, fresh, held, into)
            }
            Err(error) => Ok(BlockProgress {
                stage: BlockStage::Damaged(error),
                cursor,
                cut: held.kept.len(),
            }),
        }
    }

    /// Reads on in a block that is skipped, with the tail's bytes from `cut` on kept, and then what
    /// is after it.
    fn skip_on(
        self,
        cursor: Cursor,
        skip: Skip,
        cut: usize,
        piece: &[u8],
        held: &mut Held,
        into: &mut Frames,
    ) -> Result<BlockProgress, Memory>
        requires first { cursor.first ≤ length held.old.interfaces.items }
        requires count { 16 * cursor.index ≤ cursor.stop }
        requires cut { cut ≤ length held.old.kept.items }
        requires skip { IsSkip skip (drop cut held.old.kept.items) }
        requires bound { cursor.stop + skip.head.total + length (drop cut held.old.kept.items)
            + length piece.now ≤ 33554432 + skip.left + 4 }
        ensures ok { IfOk result (λ progress. (left : List ℕ)
            → IsSkipping (spot_of cursor held.old.interfaces.items) skip
            (drop cut held.old.kept.items) left
            → Comes
            (split_from self.cpu (spot_of cursor held.old.interfaces.items) into.old
            (left ++ piece.now))
            progress held.new.kept.items held.new.interfaces.items into.new) }
        ensures ends { IfOk result (λ progress. IsReadTo progress held.new) }
        ensures sound { IfOk result (λ progress. (fed : ℕ)
            → cursor.stop + skip.head.total
            + length (drop cut held.old.kept.items) + length piece.now ≤ fed + skip.left + 4
            → StaysSound progress held.new fed) }
        ensures kept { Extends held.old.kept.items held.new.kept.items }
        ensures interfaces { Extends held.old.interfaces.items held.new.interfaces.items }
        ensures frames { Extends into.old into.new }
    {
        let passed = skip.left.min(piece.len());
        let (_, behind) = piece.split_at(passed);
        let fresh = top_up(&mut held.kept, cut + TAIL_SIZE, behind)?;
        if held.kept.len() < cut + TAIL_SIZE {
            let left = skip.left - passed;
            return Ok(BlockProgress {
                stage: BlockStage::Skipping(Skip { left, ..skip }),
                cursor,
                cut,
            });
        }
        if skip.head.order.u32_at(held.kept.as_slice(), cut) != skip.head.total {
            return Ok(BlockProgress {
                stage: BlockStage::Damaged(BlockError::BadLength(cursor.stop as u64)),
                cursor,
                cut: held.kept.len(),
            });
        }
        let stop = cursor.stop + skip.head.total as usize;
        self.read_fresh(Cursor { stop, ..cursor }, fresh, held, into)
    }

    /// Reads the blocks of fresh bytes, with no bytes kept, and keeps what is needed of the bytes
    /// after them.
    fn read_fresh(
        self,
        cursor: Cursor,
        fresh: &[u8],
        held: &mut Held,
        into: &mut Frames,
    ) -> Result<BlockProgress, Memory>
        requires first { cursor.first ≤ length held.old.interfaces.items }
        requires count { 16 * cursor.index ≤ cursor.stop }
        requires bound { cursor.stop + length fresh.now ≤ 33554432 }
        ensures ok { IfOk result (λ progress. Comes
            (split_from self.cpu (spot_of cursor held.old.interfaces.items) into.old fresh.now)
            progress held.new.kept.items held.new.interfaces.items into.new) }
        ensures ends { IfOk result (λ progress. IsReadTo progress held.new) }
        ensures sound { IfOk result (λ progress. (fed : ℕ)
            → cursor.stop + length fresh.now ≤ fed
            → StaysSound progress held.new fed) }
        ensures kept { Extends held.old.kept.items held.new.kept.items }
        ensures interfaces { Extends held.old.interfaces.items held.new.interfaces.items }
        ensures frames { Extends into.old into.new }
    {
        let split = self.split_blocks(cursor, fresh, &mut held.interfaces, into)?;
        let cursor = split.cursor;
        let cut = held.kept.len();
        if let Some(error) = split.fault {
            let stage = BlockStage::Damaged(error);
            return Ok(BlockProgress { stage, cursor, cut });
        }
        let stage = keep_rest(cursor, split.left, &mut held.kept)?;
        Ok(BlockProgress { stage, cursor, cut })
    }

    /// Splits bytes from the start into blocks, and takes in what each says.
    fn split_blocks<'a>(
        self,
        cursor: Cursor,
        bytes: &'a [u8],
        interfaces: &mut Vec<Interface>,
        into: &mut Frames,
    ) -> Result<Split<'a>, Memory>
        requires first { cursor.first ≤ length interfaces.old.items }
        requires count { 16 * cursor.index ≤ cursor.stop }
        requires bound { cursor.stop + length bytes.now ≤ 33554432 }
        ensures ok { IfOk result (λ split. record {
          spot = spot_of split.cursor interfaces.new.items;
          frames = into.new;
          fault = split.fault;
          left = split.left.now;
        } ≡
            split_from self.cpu (spot_of cursor interfaces.old.items) into.old bytes.now) }
        ensures first { IfOk result (λ split. split.cursor.first ≤ length interfaces.new.items) }
        ensures interfaces { Extends interfaces.old.items interfaces.new.items }
        ensures frames { Extends into.old into.new }
    {
        let mut cursor = cursor;
        let mut left = bytes;
        loop {
            let (_, section) = interfaces.as_slice().split_at(cursor.first);
            match front_of(cursor.order, section, cursor.stop, left) {
                Front::Part => {
                    return Ok(Split {
                        cursor,
                        left,
                        fault: None,
                    });
                }
                Front::Fault(error) => {
                    return Ok(Split {
                        cursor,
                        left,
                        fault: Some(error),
                    });
                }
                Front::Block(head, meaning) => {
                    let (block, behind) = left.split_at(head.total as usize);
                    cursor = self.advance(cursor, head, meaning, block, interfaces, into)?;
                    left = behind;
                }
            }
        }
    }

    /// Takes in what a block says, and returns the place after it.
    #[tactic(auto, using(crate::proofs::Sounds::extends_same, crate::proofs::Sounds::extends_more))]
    fn advance(
        self,
        cursor: Cursor,
        head: Head,
        meaning: Meaning,
        block: &[u8],
        interfaces: &mut Vec<Interface>,
        into: &mut Frames,
    ) -> Result<Cursor, Memory>
        requires first { cursor.first ≤ length interfaces.old.items }
        requires count { 16 * cursor.index ≤ cursor.stop }
        requires within { IsWithin meaning (length block.now) }
        requires size { length block.now ≡ head.total }
        requires bound { cursor.stop + head.total ≤ 33554432 }
        ensures spot { IfOk result (λ next. spot_of next interfaces.new.items
            ≡ spot_after (spot_of cursor interfaces.old.items) head meaning) }
        ensures appended { OnOk result (into.new
            ≡ into.old ++ frames_in self.cpu cursor.index meaning block.now) }
        ensures first { IfOk result (λ next. next.first ≤ length interfaces.new.items) }
        ensures count { IfOk result (λ next. 16 * next.index ≤ next.stop) }
        ensures interfaces { Extends interfaces.old.items interfaces.new.items }
        ensures frames { Extends into.old into.new }
    {
        let stop = cursor.stop + head.total as usize;
        match meaning {
            Meaning::Section => Ok(Cursor {
                stop,
                order: head.order,
                first: interfaces.len(),
                ..cursor
            }),
            Meaning::Interface(interface) => {
                interfaces.push(interface)?;
                Ok(Cursor { stop, ..cursor })
            }
            Meaning::Packet(packet) => {
                into.push(frame_of(self.alloc, self.cpu, cursor.index, packet, block)?)?;
                Ok(Cursor {
                    stop,
                    index: cursor.index + 1,
                    ..cursor
                })
            }
            Meaning::Skipped => Ok(Cursor { stop, ..cursor }),
        }
    }
}

/// Keeps what is needed of the bytes after the last block, which are a part of one, and returns
/// what comes next.
fn keep_rest(cursor: Cursor, left: &[u8], kept: &mut Vec<u8>) -> Result<BlockStage, Memory>
    ensures stage { IfOk result (λ stage.
        stage ≡ waiting (look_at cursor.order cursor.stop left.now) left.now) }
    ensures kept { IfOk result (λ next. kept.new.items ≡ kept.old.items ++ rest_in next left.now) }
    ensures err { OnErr result (kept.new.items ≡ kept.old.items) }
{
    match look_at(cursor.order, cursor.stop, left) {
        Look::Headed(head) if head.kind.is_skipped() => {
            let body_end = head.total as usize - TAIL_SIZE;
            let (skipped, tail) = left.split_at(body_end.min(left.len()));
            kept.extend_from_slice(tail)?;
            let left = body_end - skipped.len();
            Ok(BlockStage::Skipping(Skip { head, left }))
        }
        _ => {
            kept.extend_from_slice(left)?;
            Ok(BlockStage::Blocks)
        }
    }
}

/// Appends bytes of the piece to the kept ones until there are `size`, and returns the bytes after
/// those.
fn top_up<'a>(kept: &mut Vec<u8>, size: usize, piece: &'a [u8]) -> Result<&'a [u8], Memory>
    ensures kept { OnOk result
        (kept.new.items ≡ kept.old.items ++ take (size - length kept.old.items) piece.now) }
    ensures behind { IfOk result (λ behind.
        behind.now ≡ drop (size - length kept.old.items) piece.now) }
    ensures err { OnErr result (kept.new.items ≡ kept.old.items) }
{
    let missing = size.saturating_sub(kept.len()).min(piece.len());
    let (front, behind) = piece.split_at(missing);
    kept.extend_from_slice(front)?;
    Ok(behind)
}

/// Takes items out from the start.
pub(crate) fn cut_front<T: Copy + Drop>(items: &mut Vec<T>, cut: usize)
    requires { cut ≤ length items.old.items }
    ensures { items.new.items ≡ drop cut items.old.items }
{
    // Most pieces of a long block take nothing out, and then nothing needs to be moved.
    if cut > 0 {
        let left = items.len() - cut;
        items.copy_within(cut.., 0);
        items.truncate(left);
    }
}
