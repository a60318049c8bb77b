//! A pcapng capture that comes in pieces.
//!
//! A feed completes the block of which bytes are kept, reads the other whole blocks of the piece in
//! place, and keeps what is after them. The body of a block that is skipped isn't kept: its bytes
//! are counted, and its tail is compared when it comes. After a failed test nothing more is read.
ghost use Rattle.std.specs.Prelude.{◌≡◌, ◌≤◌, [], IfOk, OnErr};

use crate::BlockError;
use crate::block_reader::{BlockReader, Cursor, Held, cut_front};
use crate::byte_order::Order;
use crate::stage::BlockStage;
use frame_view::{Frames, Memory};
use std::alloc::Global;
use std::marker::Model;

/// The number of bytes of a capture that count: this project's own limit.
pub const LARGEST_CAPTURE: usize = 33_554_432;

/// Reads a pcapng capture that is fed piece by piece, however it is cut; its first bytes are those
/// of a section header. The limits are this project's own choice: the first 33,554,432 bytes count,
/// a packet may have 262,144 and a block that is read 524,288.
#[derive(Debug, Drop)]
pub struct BlockDecoder {
    /// Allocates the frames.
    alloc: Global,
    /// The CPU number that its frames carry.
    cpu: u32,
    /// The number of bytes that were fed, of those that count.
    fed: usize,
    /// What comes next.
    stage: BlockStage,
    /// Where that is.
    cursor: Cursor,
    /// What is kept between feeds.
    held: Held,
}

impl Model for BlockDecoder {
    ghost use Rattle.pcapng_blocks.specs.Decoders.{DecoderValue, decoder_value, IsSound};

    ghost Value = { DecoderValue };

    ghost view = { decoder_value };

    ghost invariant = { IsSound };
}

impl BlockDecoder {
    ghost use Rattle.pcapng_blocks.specs.Decoders.{Represents, RepresentsMore, AppendsNew};
    ghost use Rattle.pcapng_blocks.specs.Decoders.{IsDamage, IsEnd};
    ghost use Rattle.pcapng_blocks.specs.Decoders.{CountsKept};

    /// A decoder that nothing was fed to. It takes no memory.
    pub fn new(alloc: Global, cpu: u32) -> BlockDecoder
        ensures { Represents cpu result [] }
    {
        BlockDecoder {
            alloc,
            cpu,
            fed: 0,
            stage: BlockStage::Blocks,
            cursor: Cursor {
                stop: 0,
                index: 0,
                order: Order::Little,
                first: 0,
            },
            held: Held {
                kept: Vec::new(alloc),
                interfaces: Vec::new(alloc),
            },
        }
    }

    /// Takes the next bytes of the capture, appends the frames that are whole now, and returns the
    /// capture's damage, if there is any. After damage every call returns the same and appends
    /// nothing. After `Memory` the decoder and `into` are as before the call.
    pub fn feed(&mut self, piece: &[u8], into: &mut Frames) -> Result<Option<BlockError>, Memory>
        // The decoder represents all bytes that it was fed.
        ensures represents { IfOk result (λ damage. RepresentsMore self.old self.new piece.now) }

        // Exactly the new frames are appended.
        ensures frames { IfOk result (λ damage. AppendsNew self.old piece.now into.old into.new) }

        // The answer is the damage of all bytes that were fed.
        ensures damage { IfOk result (λ damage. IsDamage self.old piece.now damage) }

        // After `Memory` all is as before.
        ensures decoder { OnErr result (self.new ≡ self.old) }
        ensures into { OnErr result (into.new ≡ into.old) }
    {
        let frames = into.len();
        let kept = self.held.kept.len();
        let interfaces = self.held.interfaces.len();
        let room = LARGEST_CAPTURE - self.fed;
        let (counted, _) = piece.split_at(room.min(piece.len()));
        let reader = BlockReader {
            alloc: self.alloc,
            cpu: self.cpu,
        };
        let progress = reader.read_on(self.stage, self.cursor, counted, &mut self.held, into);
        let Ok(progress) = progress else {
            self.held.kept.truncate(kept);
            self.held.interfaces.truncate(interfaces);
            into.truncate(frames);
            return Err(Memory);
        };
        self.fed += counted.len();
        self.stage = progress.stage.with(piece.len() > room);
        cut_front(&mut self.held.interfaces, progress.cursor.first);
        self.cursor = Cursor {
            first: 0,
            ..progress.cursor
        };
        if let BlockStage::Damaged(damage) = self.stage {
            self.held.kept.clear();
            return Ok(Some(damage));
        }
        cut_front(&mut self.held.kept, progress.cut);
        Ok(None)
    }

    /// How the capture ends if nothing more comes: its damage, or `Truncated` with the place of the
    /// block that isn't whole. It takes no memory.
    pub fn end(&self) -> Result<(), BlockError>
        ensures { IsEnd self.now result }
    {
        self.stage.end(self.cursor.stop, self.held.kept.is_empty())
    }

    /// The number of bytes that are kept: those after the last whole block, at most 3 of a block
    /// that is skipped, none after damage. It takes no memory.
    pub fn rest(&self) -> u32
        ensures kept { CountsKept self.now result }
        ensures few { result ≤ 524287 }
    {
        self.held.kept.len() as u32
    }
}
