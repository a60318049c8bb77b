//! The data of small records that follow one another, in one piece of memory.
ghost use Rattle.std.specs.Prelude.{◌≡◌, ◌-◌, ◌^◌, ◌<◌, ◌≤◌, ◌↔◌, [], drop, length, take};
ghost use Rattle.std.specs.Prelude.{IfOk, IsTrue, OnOk};

use frame_view::{ByteList, Memory, Piece};
use std::alloc::Global;
use std::marker::Model;

/// The data of records, which are handed out record by record. Contracts see what is left of them.
#[derive(Drop)]
pub(crate) struct Batch {
    /// The data, if there are any.
    piece: Option<Piece>,
    /// The place of the first byte that is left.
    at: u32,
    /// The number of records that are left. Any of them may have no data.
    records: u32,
}

impl Model for Batch {
    ghost use Rattle.capture_file.specs.Batches.{IsSound, Left, left_of};

    ghost Value = { Left };

    ghost view = { λ batch. record {
      bytes = left_of batch.piece batch.at;
      records = batch.records;
    } };

    ghost invariant = { λ batch. IsSound batch.piece batch.at batch.records };
}

impl Batch {
    /// A batch of no record. It takes no memory.
    pub(crate) fn new() -> Batch
        ensures { result ≡ record { bytes = []; records = 0 } }
    {
        Batch {
            piece: None,
            at: 0,
            records: 0,
        }
    }

    /// The data of this number of records, one after another.
    pub(crate) fn of(alloc: Global, bytes: Vec<u8>, records: u32) -> Result<Batch, Memory>
        requires { length bytes.items < 2 ^ 32 }
        ensures { IfOk result (λ batch. batch
            ≡ record { bytes = bytes.items; records = records }) }
    {
        Ok(Batch {
            piece: Some(Piece::new(alloc, bytes)?),
            at: 0,
            records,
        })
    }

    /// Whether no record is left.
    pub(crate) fn is_empty(&self) -> bool
        ensures { IsTrue result ↔ (self.now.records ≡ 0) }
    {
        self.records == 0
    }

    /// The data of the next record, which has this number of them and is taken out.
    pub(crate) fn next_data(&mut self, alloc: Global, count: usize) -> Result<ByteList, Memory>
        requires some { 0 < self.old.records }
        requires whole { count ≤ length self.old.bytes }
        ensures value { IfOk result (λ bytes. bytes ≡ take count self.old.bytes) }
        ensures left { OnOk result (self.new ≡ record {
          bytes = drop count self.old.bytes;
          records = self.old.records - 1;
        }) }
    {
        let Some(piece) = &self.piece else {
            unreachable!();
        };
        let data = piece.part(alloc, self.at, count as u32)?;
        self.at += count as u32;
        self.records -= 1;
        Ok(data)
    }
}
