//! A member of a group as a replay meets it: a receive ring, and the reader that takes its frames
//! out.
//!
//! A read takes the oldest block or slot that was handed over, copies its packets and gives it
//! back. The close reads until none waits.
ghost use Rattle.std.specs.Prelude.{◌≡◌, ◌^◌, ◌<◌, ◌≤◌, length, IfErr, IfOk, OnErr, OnOk};
ghost use Rattle.replay_machine.specs.Reported.{reported_by};
ghost use Rattle.receive_ring.specs.Replay.{finished_ring};
ghost use Rattle.run_reports.specs.RingSteps.{put_note, read_by, ticked, try_note};
ghost use Rattle.receive_ring.specs.TakenOffers.{Takes};
ghost use Rattle.ring_model.specs.Rings.{fresh, noted};
ghost use Rattle.ring_model.specs.Told.{put_told, try_told};
ghost use Rattle.ring_model.specs.Unreleased.{last_moment};
ghost use Rattle.ring_model.specs.declared.notes.Note.TheVariants.{Counted};

use crate::Setting;
use frame_view::Memory;
use reader_walk::RingReader;
use receive_ring::ReceiveRing;
use ring_model::{Offer, Put, Tried, Unput};
use run_reports::MemberReport;
use std::alloc::Global;
use std::marker::{Model, PhantomData};
use tp_layout::Shape;

/// A receive ring with its reader. Contracts see the ring: its size, its notes, and how many blocks
/// its reader has released.
#[derive(Drop)]
pub(crate) struct RingMember<R: ReceiveRing, K: Setting> {
    /// The ring that frames go into.
    ring: R,
    /// Its reader.
    reader: RingReader<R::Unit>,
    /// Whether a read ran out of memory: the reader then holds a block, and nothing more is read.
    stuck: bool,
    /// The shape of the blocks, and whether their texts are kept, are in the type.
    of: PhantomData<K>,
}

impl<R: ReceiveRing, K: Setting> Model for RingMember<R, K> {
    ghost use Rattle.ring_model.specs.Rings.{Ring};

    ghost Value = { Ring };

    ghost use Rattle.receive_ring.specs.Rings.{ring_by};
    ghost use Rattle.replay_machine.specs.inside.Members.{IsMember};

    ghost view = { λ member. ring_by (R.steps K.shape) (R.seen member.ring) };

    ghost invariant = { λ member.
        IsMember R.may R.Unit.taken_in R.reads K.shape K.dumps (record {
          ring = R.seen member.ring;
          reader = member.reader;
          stuck = member.stuck;
        }) };
}

impl<R: ReceiveRing, K: Setting> RingMember<R, K> {
    /// A member with a new ring.
    pub(crate) fn new(alloc: Global, shape: &Shape, dump: bool) -> Result<RingMember<R, K>, Memory>
        requires shape { shape.now ≡ K.shape }
        requires dump { dump ≡ K.dumps }
        requires may { R.may shape.now }
        ensures { IfOk result (λ member. member ≡ fresh (R.steps K.shape).size) }
    {
        Ok(RingMember {
            ring: R::open(alloc, shape)?,
            reader: RingReader::new(alloc, *shape, dump),
            stuck: false,
            of: PhantomData,
        })
    }

    /// Keeps a packet, or drops it if there is no room. After `Unput` the ring is as before, and
    /// the offer comes back.
    #[inline(always)]
    pub(crate) fn put(&mut self, offer: Offer) -> Result<Put, Unput>
        requires takes { Takes offer self.old }
        requires few { length self.old.notes < 2 ^ 39 }
        ensures ok { OnOk result (self.new
            ≡ noted self.old (put_note (R.steps K.shape) self.old offer)) }
        ensures put { IfOk result (λ put.
            put ≡ put_told (put_note (R.steps K.shape) self.old offer)) }
        ensures unput { IfErr result (λ unput. unput.offer ≡ offer) }
        ensures err { OnErr result (self.new ≡ self.old) }
    {
        self.ring.put(offer)
    }

    /// Keeps a packet, or hands it back if there is no room. After `Unput` the ring is as before,
    /// and the offer comes back.
    pub(crate) fn try_put(&mut self, offer: Offer) -> Result<Tried, Unput>
        requires takes { Takes offer self.old }
        requires few { length self.old.notes < 2 ^ 39 }
        ensures ok { OnOk result (self.new
            ≡ noted self.old (try_note (R.steps K.shape) self.old offer)) }
        ensures tried { IfOk result (λ tried.
            tried ≡ try_told offer (try_note (R.steps K.shape) self.old offer)) }
        ensures unput { IfErr result (λ unput. unput.offer ≡ offer) }
        ensures err { OnErr result (self.new ≡ self.old) }
    {
        self.ring.try_put(offer)
    }

    /// The clock goes on to a moment, in milliseconds.
    pub(crate) fn tick(&mut self, ms: u64) -> Result<(), Memory>
        requires later { last_moment 0 self.old.notes ≤ ms }
        requires small { ms ≤ 2 ^ 63 }
        requires few { length self.old.notes < 2 ^ 39 }
        ensures { OnOk result (self.new ≡ ticked (R.steps K.shape) ms self.old) }
    {
        self.ring.tick(ms)
    }

    /// Takes the statistics, which start anew.
    pub(crate) fn take_stats(&mut self) -> Result<(), Memory>
        requires few { length self.old.notes < 2 ^ 39 }
        ensures { OnOk result (self.new ≡ noted self.old Counted) }
    {
        self.ring.take_stats()
    }

    /// The reader reads a block or slot, if one was handed over and not yet released.
    pub(crate) fn read(&mut self) -> Result<(), Memory>
        ensures { OnOk result (self.new ≡ read_by (R.steps K.shape) self.old) }
    {
        if self.stuck {
            return Err(Memory);
        }
        match self.reader.step(&mut self.ring) {
            Ok(_) => Ok(()),
            Err(Memory) => {
                self.stuck = true;
                Err(Memory)
            }
        }
    }

    /// Closes the ring, and reads all that still waits. Packets may take the memory of a block that
    /// was read; all other memory of the ring is freed.
    pub(crate) fn close(self, alloc: Global) -> Result<MemberReport, Memory>
        ensures { IfOk result (λ report. report
            ≡ reported_by R.Unit.text_of R.reads K.shape K.dumps (finished_ring self)) }
    {
        if self.stuck {
            return Err(Memory);
        }
        let (mut waiting, notes) = self.ring.close(alloc)?;
        let mut reader = self.reader;
        'waiting: while reader.take_over(&mut waiting)? {}
        let outputs = reader.outputs();
        Ok(MemberReport {
            notes,
            walked: outputs.walked,
            dump: outputs.dump,
            blocks: outputs.blocks,
            ring: None,
        })
    }
}
