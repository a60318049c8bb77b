//! The packets of the blocks or slots that were read, and which packets are of which block.
ghost use Rattle.std.specs.Prelude.{◌≡◌, ◌+◌, ◌-◌, ◌≤◌, ℕ, [], ◌∷◌, ◌++◌, length, take, vec_len};
ghost use Rattle.std.specs.Prelude.{vec_capacity, IfErr, IfOk, OnErr, OnOk};
ghost use Rattle.reader_walk.specs.Dumps.{front_in, texts_in};
ghost use Rattle.reader_walk.specs.Texts.{kept_if};

use crate::dumps::Texts;
use frame_view::{Memory, Packet};
use std::alloc::Global;
use tp_layout::Layout;

/// What is kept of a block or a slot beside its packets.
#[derive(Clone, Copy)]
pub(crate) struct Remnant {
    /// Its number.
    pub(crate) number: u64,
    /// The status that it was retired with.
    pub(crate) status: u32,
    /// How many packets it has.
    pub(crate) packets: usize,
}

/// What was read.
#[derive(Drop)]
pub(crate) struct Copies {
    /// The blocks or slots, in order.
    pub(crate) marks: Vec<Remnant>,
    /// Their packets, in order.
    pub(crate) walked: Vec<Packet>,
    /// Their texts, in order, if they are kept.
    pub(crate) dump: Texts,
    /// Memory for the data of the next block that is taken over, whose content says nothing.
    pub(crate) room: Vec<u8>,
}

impl Copies {
    ghost use Rattle.reader_walk.specs.ReadersInside.{Adds};

    /// Adds a block or a slot that may be retired, with copies of its packets, and with its text if
    /// texts are kept. After `Memory` all is as before.
    pub(crate) fn add<B: Layout>(
        &mut self,
        alloc: Global,
        unit: &B,
        dumps: bool,
    ) -> Result<(), Memory>
        requires ready { (number : ℕ) × (status : ℕ) × B.ready unit.now number status }
        ensures { Adds (B.taken_in (B.shape unit.now) (B.bytes unit.now))
            (kept_if dumps
            (B.text_of (B.shape unit.now) (B.taken_in (B.shape unit.now) (B.bytes unit.now))))
            self.old self.new result }
    {
        let texts = self.add_text(alloc, unit, dumps)?;
        let earlier = self.walked.len();
        let pushed = unit.push_packets(alloc, &mut self.walked);
        self.add_mark(unit.head(), earlier, texts, pushed)
    }

    /// Adds a block or a slot as `add` does, whose memory may be the room of the next one. If memory
    /// runs out it comes back, and all is as before but the room.
    pub(crate) fn take_over<B: Layout>(
        &mut self,
        alloc: Global,
        unit: B,
        dumps: bool,
    ) -> Result<(), B>
        requires ready { (number : ℕ) × (status : ℕ) × B.ready unit number status }
        ensures back { IfErr result (λ back. back ≡ unit) }
        ensures adds { Adds (B.taken_in (B.shape unit) (B.bytes unit))
            (kept_if dumps
            (B.text_of (B.shape unit) (B.taken_in (B.shape unit) (B.bytes unit))))
            self.old self.new result }
    {
        let Ok(texts) = self.add_text(alloc, &unit, dumps) else {
            return Err(unit);
        };
        let earlier = self.walked.len();
        let head = unit.head();
        let pushed = unit.into_packets(alloc, &mut self.room, &mut self.walked);
        self.add_mark(head, earlier, texts, pushed)
    }

    /// Makes room for a mark, and adds the text of a block or a slot if texts are kept; returns how
    /// many bytes of the last piece come before it. After `Memory` all is as before.
    fn add_text<B: Layout>(&mut self, alloc: Global, unit: &B, dumps: bool) -> Result<usize, Memory>
        requires ready { (number : ℕ) × (status : ℕ) × B.ready unit.now number status }
        ensures front { IfOk result (λ kept. front_in self.new.dump kept ≡ texts_in self.old.dump) }
        ensures dump { OnOk result (texts_in self.new.dump ≡ texts_in self.old.dump ++ kept_if dumps
            (B.text_of (B.shape unit.now) (B.taken_in (B.shape unit.now) (B.bytes unit.now)))) }
        ensures room { OnOk result
            (vec_len self.new.marks + 1 ≤ vec_capacity self.new.marks) }
        ensures marks { self.new.marks.items ≡ self.old.marks.items }
        ensures walked { self.new.walked ≡ self.old.walked }
        ensures same_dump { OnErr result (texts_in self.new.dump ≡ texts_in self.old.dump) }
    {
        self.marks.reserve(1)?;
        if dumps {
            return self.dump.add(alloc, unit.text());
        }
        Ok(self.dump.last.len())
    }

    /// Adds the mark of a block or a slot whose packets were pushed, or takes back what was pushed
    /// of them and its text.
    fn add_mark<E: Drop>(
        &mut self,
        head: (u64, u32),
        earlier: usize,
        texts: usize,
        pushed: Result<(), E>,
    ) -> Result<(), E>
        requires room { vec_len self.old.marks + 1 ≤ vec_capacity self.old.marks }
        requires earlier { earlier ≤ length self.old.walked.items }
        ensures passed_on { result ≡ pushed }
        ensures marks { OnOk result (self.new.marks.items ≡ self.old.marks.items ++ record {
          number = head.0;
          status = head.1;
          packets = length self.old.walked.items - earlier;
        } ∷ []) }
        ensures walked { OnOk result (self.new.walked.items ≡ self.old.walked.items) }
        ensures dump { OnOk result (texts_in self.new.dump ≡ texts_in self.old.dump) }
        ensures same_marks { OnErr result (self.new.marks.items ≡ self.old.marks.items) }
        ensures front { OnErr result
            (self.new.walked.items ≡ take earlier self.old.walked.items) }
        ensures front_texts { OnErr result
            (texts_in self.new.dump ≡ front_in self.old.dump texts) }
    {
        if pushed.is_err() {
            self.walked.truncate(earlier);
            self.dump.take_back(texts);
            return pushed;
        }
        self.marks.push_reserved(Remnant {
            number: head.0,
            status: head.1,
            packets: self.walked.len() - earlier,
        });
        Ok(())
    }
}
