//! A reader: it takes each retired block of a ring, or each filled slot, copies its packets, and
//! gives it back.
//!
//! A step looks once at the next block or slot. If it was retired the reader takes it, walks over
//! its packets, and releases it with the word of a free one (TP_STATUS_KERNEL, 0). If memory runs
//! out in between it keeps it, and the next step goes on with it: no packet is lost and none is
//! read twice.
ghost use Rattle.std.specs.Prelude.{◌≡◌, ◌≢◌, ◌+◌, ◌<◌, ◌≤◌, ◌^◌, ℕ, List, false, None, Some, Ok};
ghost use Rattle.std.specs.Prelude.{length, is_some, IfErr, IfNone, IfOk, IfSome, IsTrue, OnErr};
ghost use Rattle.std.specs.Prelude.{OnOk, OnSome};
ghost use Rattle.ring_words.specs.Counts.{Rose};
ghost use Rattle.ring_words.specs.PlainRings.{GaveBack, PlainState, Stays, Took, walk_of};
ghost use Rattle.tp_layout.specs.Requests.{numbers_of};

use crate::copies::Copies;
use crate::dumps::Texts;
use crate::{Dump, Outputs, Taker};
use frame_view::{Memory, Packet, Packets};
use ring_words::{ClosingRing, WalkerEnd};
use std::alloc::Global;
use std::marker::Model;
use tp_layout::{Block, Layout, Shape};

/// TP_STATUS_KERNEL of `linux/if_packet.h`: the word of a free block or slot.
const FREE: u32 = 0;

/// Reads the blocks or the slots of a ring. Contracts see those that it has read, and the one that
/// it holds.
#[derive(Drop)]
pub struct RingReader<B: Layout> {
    /// Allocates the copies.
    alloc: Global,
    /// The shape of the ring.
    shape: Shape,
    /// Whether texts are kept.
    dumps: bool,
    /// What was read.
    copies: Copies,
    /// A block or a slot that was taken and not read, because memory ran out.
    held: Option<B>,
}

/// The reader of a ring of blocks (TPACKET_V3).
pub type Reader = RingReader<Block>;

impl<B: Layout> Model for RingReader<B> {
    ghost use Rattle.std.specs.Prelude.{IfSome, option_map};
    ghost use Rattle.reader_walk.specs.Readers.{ReaderValue};

    ghost Value = { ReaderValue };

    ghost use Rattle.reader_walk.specs.ReadersInside.{IsSound, reader_value};
    ghost use Rattle.reader_walk.specs.Takers.{IsRetiredUnit};

    ghost view = { λ reader.
        reader_value reader.shape reader.dumps reader.copies (option_map B.bytes reader.held) };

    ghost invariant = { λ reader. IsSound B.text_of reader.shape reader.dumps reader.copies
        × IfSome reader.held (IsRetiredUnit B.shape B.ready reader.shape) };
}

impl<B: Layout> RingReader<B> {
    ghost use Rattle.reader_walk.specs.Readers.{ComesFrom, GivesBack, Keeps, Reads, has_read};
    ghost use Rattle.reader_walk.specs.Readers.{new_reader, outputs_by, walked_of};
    ghost use Rattle.reader_walk.specs.Takers.{IsRetiredUnit};

    /// A reader that has read nothing, and that keeps texts if it is asked to. It takes no memory.
    #[tactic(auto, unfolding(crate::specs::ReadersInside::taken_by, crate::specs::Readers::texts_by))]
    pub fn new(alloc: Global, shape: Shape, dump: bool) -> RingReader<B>
        ensures { result ≡ new_reader shape dump }
    {
        RingReader {
            alloc,
            shape,
            dumps: dump,
            copies: Copies {
                marks: Vec::new(alloc),
                walked: Vec::new(alloc),
                dump: Texts::new(alloc),
                room: Vec::new(alloc),
            },
            held: None,
        }
    }

    /// Takes one block or slot of a ring, reads it and gives it back; `false` if none waits. After
    /// `Memory` it stays in the reader unread, and the next step goes on with it.
    pub fn step<W: WalkerEnd<B>>(&mut self, end: &mut W) -> Result<bool, Memory>
        requires kind { (W.walk end.old).ring.kind ≡ numbers_of self.old.shape }
        requires hand { (W.walk end.old).in_hand ≡ is_some self.old.held }
        requires few { length self.old.taken < 2 ^ 55 }

        // One more block or slot is read: the one that it held, or otherwise the one that was taken
        // in this call.
        ensures read { IfOk result (λ stepped. IsTrue stepped
            → Reads B.taken_in (W.took end.old end.new) self.old self.new) }

        // That one was given back.
        ensures gave_back { IfOk result (λ stepped. IsTrue stepped
            → GivesBack W.took W.gave_back self.old.held end.old end.new) }

        // None was there: a look found none, and nothing changes except the count of such looks.
        ensures none { IfOk result (λ stepped. stepped ≡ false → self.old.held ≡ None) }
        ensures same { IfOk result (λ stepped. stepped ≡ false → self.new ≡ self.old) }
        ensures stays { IfOk result (λ stepped. stepped ≡ false → W.stays end.old end.new) }
        ensures looked { IfOk result (λ stepped. stepped ≡ false
            → Rose (W.walk end.old).empties (W.walk end.new).empties) }
        ensures once { IfOk result (λ stepped. stepped ≡ false
            → (W.walk end.new).empties ≤ (W.walk end.old).empties + 1) }
        ensures waiting { IfOk result (λ stepped. stepped ≡ false
            → (blocks : ℕ) → (W.walk end.old).waiting ≡ Some blocks → blocks ≡ 0) }

        // If it has one, no look found none.
        ensures found { result ≢ Ok false
            → (W.walk end.new).empties ≡ (W.walk end.old).empties }

        // After `Memory` it is in the reader.
        ensures kept { OnErr result (Keeps (W.took end.old end.new) self.old self.new) }

        // If the reader held it before, the end is as before.
        ensures unmoved { OnErr result ((content : List ℕ) → self.old.held ≡ Some content
            → end.new ≡ end.old) }

        // One that was taken in an earlier call is still the one that was taken then.
        ensures goes_on { (earlier : W) (content : List ℕ) → self.old.held ≡ Some content
            → W.took earlier end.old content → W.took earlier end.new content }

        ensures hand { (W.walk end.new).in_hand ≡ is_some self.new.held }
        ensures ring { (W.walk end.new).ring ≡ (W.walk end.old).ring }
    {
        let Some(unit) = self.next_unit(end) else {
            return Ok(false);
        };
        match self.walk_block(&unit) {
            Ok(()) => {
                end.release(unit, FREE);
                Ok(true)
            }
            Err(Memory) => {
                self.held = Some(unit);
                Err(Memory)
            }
        }
    }

    /// Reads a block or a slot that is handed in: appends its packets and, if asked to, its text.
    /// After `Memory` nothing has changed.
    pub fn walk_block(&mut self, unit: &B) -> Result<(), Memory>
        requires readable { IsRetiredUnit B.shape B.ready self.old.shape unit.now }
        requires few { length self.old.taken < 2 ^ 55 }
        ensures read { OnOk result (self.new
            ≡ record (has_read B.taken_in (B.bytes unit.now) self.old) { held = self.old.held }) }
        ensures err { OnErr result (self.new ≡ self.old) }
    {
        self.copies.add(self.alloc, unit, self.dumps)
    }

    /// Reads one block or slot of a ring whose feeder is done, and gives its place back; `false` if
    /// none waits. Its memory may be that of the packets of the next one. After `Memory` it stays in
    /// the reader unread, and the next call goes on with it.
    pub fn take_over(&mut self, ring: &mut ClosingRing<B>) -> Result<bool, Memory>
        requires kind { (walk_of ring.old).ring.kind ≡ numbers_of self.old.shape }
        requires hand { (walk_of ring.old).in_hand ≡ is_some self.old.held }
        requires few { length self.old.taken < 2 ^ 55 }

        // One more block or slot is read: the one that it held, or otherwise the one that was taken
        // in this call.
        ensures read { IfOk result (λ stepped. IsTrue stepped
            → Reads B.taken_in (Took ring.old ring.new) self.old self.new) }

        // Its place was given back.
        ensures gave_back { IfOk result (λ stepped. IsTrue stepped
            → GivesBack Took (λ before after content. GaveBack before after) self.old.held
            ring.old ring.new) }

        // None was there, and nothing changes except the count of looks that found none.
        ensures none { IfOk result (λ stepped. stepped ≡ false → self.old.held ≡ None) }
        ensures same { IfOk result (λ stepped. stepped ≡ false → self.new ≡ self.old) }
        ensures stays { IfOk result (λ stepped. stepped ≡ false → Stays ring.old ring.new) }
        ensures looked { IfOk result (λ stepped. stepped ≡ false
            → Rose (walk_of ring.old).empties (walk_of ring.new).empties) }
        ensures once { IfOk result (λ stepped. stepped ≡ false
            → (walk_of ring.new).empties ≤ (walk_of ring.old).empties + 1) }
        ensures waiting { IfOk result (λ stepped. stepped ≡ false
            → (blocks : ℕ) → (walk_of ring.old).waiting ≡ Some blocks → blocks ≡ 0) }

        // If it has one, no look found none.
        ensures found { result ≢ Ok false
            → (walk_of ring.new).empties ≡ (walk_of ring.old).empties }

        // After `Memory` it is in the reader.
        ensures kept { OnErr result (Keeps (Took ring.old ring.new) self.old self.new) }

        // If the reader held it before, the ring is as before.
        ensures unmoved { OnErr result ((content : List ℕ) → self.old.held ≡ Some content
            → ring.new ≡ ring.old) }

        // One that was taken in an earlier call is still the one that was taken then.
        ensures goes_on { (earlier : PlainState) (content : List ℕ)
            → self.old.held ≡ Some content
            → Took earlier ring.old content → Took earlier ring.new content }

        ensures hand { (walk_of ring.new).in_hand ≡ is_some self.new.held }
        ensures ring { (walk_of ring.new).ring ≡ (walk_of ring.old).ring }
    {
        let Some(unit) = self.next_unit(ring) else {
            return Ok(false);
        };
        match self.keep_block(unit) {
            Ok(()) => {
                ring.release_place(FREE);
                Ok(true)
            }
            Err(back) => {
                self.held = Some(back);
                Err(Memory)
            }
        }
    }

    /// Reads a block or a slot for good: its memory may be that of the packets of the next one. If
    /// memory runs out it comes back, and nothing has changed.
    fn keep_block(&mut self, unit: B) -> Result<(), B>
        requires readable { IsRetiredUnit B.shape B.ready self.old.shape unit }
        requires few { length self.old.taken < 2 ^ 55 }
        ensures read { OnOk result (self.new
            ≡ record (has_read B.taken_in (B.bytes unit) self.old) { held = self.old.held }) }
        ensures back { IfErr result (λ back. back ≡ unit) }
        ensures err { OnErr result (self.new ≡ self.old) }
    {
        self.copies.take_over(self.alloc, unit, self.dumps)
    }

    /// The packets that were read so far, in order.
    #[tactic(auto, using(crate::proofs::MarkedBlocks::all_walked))]
    pub fn walked(&self) -> &[Packet]
        ensures { result.now ≡ walked_of self.now.taken }
    {
        self.copies.walked.as_slice()
    }

    /// All that was read.
    #[tactic(auto, using(crate::proofs::MarkedBlocks::all_walked, crate::proofs::MarkedBlocks::as_many))]
    pub fn outputs(self) -> Outputs
        requires { self.held ≡ None }
        ensures { result ≡ outputs_by B.text_of self }
    {
        let blocks = self.copies.marks.len() as u64;
        Outputs {
            walked: Packets::from_vec(self.copies.walked),
            dump: Dump::of(self.copies.dump),
            blocks,
        }
    }

    /// The block or slot that it held, or otherwise the next one that was retired.
    fn next_unit<W: WalkerEnd<B>>(&mut self, end: &mut W) -> Option<B>
        requires kind { (W.walk end.old).ring.kind ≡ numbers_of self.old.shape }
        requires hand { (W.walk end.old).in_hand ≡ is_some self.old.held }
        ensures comes { IfSome result (λ unit.
            ComesFrom self.old.held (W.took end.old end.new) (B.bytes unit)) }
        ensures readable { IfSome result (IsRetiredUnit B.shape B.ready self.old.shape) }
        ensures kind { IfSome result (λ unit. B.kind unit ≡ (W.walk end.new).ring.kind) }
        ensures hand { (W.walk end.new).in_hand ≡ is_some result }
        ensures emptied { self.new ≡ record self.old { held = None } }
        ensures none { IfNone result (self.old.held ≡ None) }
        ensures stays { IfNone result (W.stays end.old end.new) }
        ensures looked { IfNone result (Rose (W.walk end.old).empties (W.walk end.new).empties) }
        ensures once { IfNone result
            ((W.walk end.new).empties ≤ (W.walk end.old).empties + 1) }
        ensures found { OnSome result ((W.walk end.new).empties ≡ (W.walk end.old).empties) }
        ensures waiting { IfNone result
            ((blocks : ℕ) → (W.walk end.old).waiting ≡ Some blocks → blocks ≡ 0) }
        ensures goes_on { (content : List ℕ) → self.old.held ≡ Some content → end.new ≡ end.old }
        ensures ring { (W.walk end.new).ring ≡ (W.walk end.old).ring }
    {
        if let Some(unit) = self.held.take() {
            return Some(unit);
        }
        end.take()
    }
}

impl Taker for Reader {
    ghost use Rattle.reader_walk.specs.Readers.{base_of};

    ghost base = { base_of };

    ghost taken = { λ reader. reader.taken };

    fn block(&mut self, block: &Block) -> Result<(), Memory> {
        self.walk_block(block)
    }
}
