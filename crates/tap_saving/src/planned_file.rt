//! A file that is to be saved.
ghost use Rattle.std.specs.Prelude.{◌≡◌, IfOk, IsTrue, OnErr};
ghost use Rattle.capture_file.specs.Output.{output_of};
ghost use Rattle.tap_outside.specs.Seen.{OnlySaves};
ghost use Rattle.tap_saving.specs.Files.{CanBeOutput};
ghost use Rattle.tap_saving.specs.inside.Plans.{IsTried};

use crate::block_pieces::BlockPieces;
use capture_file::PcapPieces;
use frame_view::{Memory, Packets};
use reader_walk::Dump;
use std::alloc::Global;
use std::marker::Model;
use tap_outside::{OutError, Store};

/// Where the bytes of a file come from.
#[derive(Clone, Copy)]
pub(crate) enum Origin<'a> {
    /// From packets, of which a capture file is made while it is saved.
    Packets(&'a Packets),
    /// From a dump.
    Blocks(&'a Dump),
}

/// A file that is to be saved. Contracts see its name and its bytes.
#[derive(Drop)]
pub(crate) struct PlannedFile<'a> {
    /// Its name in the store.
    name: Vec<u8>,
    /// Where its bytes come from.
    content: Origin<'a>,
}

impl<'a> Model for PlannedFile<'a> {
    ghost use Rattle.tap_saving.specs.Files.{File};

    ghost Value = { File };

    ghost use Rattle.tap_saving.specs.inside.Plans.{CanBeMade, file_of};

    ghost view = { file_of };

    ghost invariant = { λ file. CanBeMade file.content };
}

impl<'a> PlannedFile<'a> {
    /// A capture file of these packets.
    pub(crate) fn capture(name: Vec<u8>, packets: &'a Packets) -> PlannedFile<'a>
        requires { CanBeOutput packets.now }
        ensures { result ≡ record { name = name.items; bytes = output_of packets.now } }
    {
        PlannedFile {
            name,
            content: Origin::Packets(packets),
        }
    }

    /// A file of the bytes of a dump.
    pub(crate) fn of_dump(name: Vec<u8>, dump: &'a Dump) -> PlannedFile<'a>
        ensures { result ≡ record { name = name.items; bytes = dump.now } }
    {
        PlannedFile {
            name,
            content: Origin::Blocks(dump),
        }
    }

    /// Saves the file, and returns whether that succeeded. If memory runs out the store is as
    /// before.
    pub(crate) fn save<S: Store>(&self, alloc: Global, store: &mut S) -> Result<bool, Memory>
        requires { IsTrue ((S.seen store.old).to_save self.now.name) }
        ensures only { OnlySaves (S.seen store.old) (S.seen store.new) self.now.name }
        ensures tried { IfOk result (IsTried (S.seen store.old) (S.seen store.new) self.now) }
        ensures memory { OnErr result (S.seen store.new ≡ S.seen store.old) }
    {
        let saved = match self.content {
            Origin::Blocks(dump) => store.save_pieces(alloc, &self.name, BlockPieces::new(dump)),
            Origin::Packets(packets) => {
                store.save_pieces(alloc, &self.name, PcapPieces::new(packets))
            }
        };
        match saved {
            Ok(()) => Ok(true),
            Err(OutError::Failed) => Ok(false),
            Err(OutError::Memory) => Err(Memory),
        }
    }
}
