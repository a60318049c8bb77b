//! The ring of a member, as the lock keeps it.
ghost use Rattle.std.specs.Prelude.{◌≡◌};
ghost use Rattle.member_turns.specs.Entries.{may_note, table_numbers};
ghost use Rattle.member_turns.specs.EntryLaws.{one_seat};
ghost use Rattle.tp_layout.specs.Requests.{numbers_of};

use crate::RingBase;
use block_ring::Producer;
use ring_model::Note;
use ring_words::TableFeeder;
use tp_layout::Block;
use turn_lock::Kept;

/// The receive ring of a member, which the lock keeps. Its entries are the ring's notes; a seat may
/// add the notes about frames of its CPU, and the seat after those of the CPUs, which is the
/// timer's, those of ticks.
#[derive(Drop)]
pub struct MemberRing {
    /// The feeder's side of the ring. It is in a box, so that a turn hands on a pointer.
    pub(crate) producer: Box<Producer<TableFeeder<Block>>>,
    /// How many CPUs put frames into it.
    pub(crate) cpus: u32,
    // The blocks of the ring are of the producer's shape.
    pub(crate) ghost kind: { producer.value.end.kind ≡ numbers_of producer.value.shape },
}

impl Kept for MemberRing {
    type Entry = Note;

    type Base = RingBase;

    ghost stored = { λ ring. ring.producer.value.notes };

    ghost base = { λ ring. record {
      shape = ring.producer.value.shape;
      cpus = ring.cpus;
      table = table_numbers ring.producer.value.end.id;
    } };

    ghost may_add = { may_note };

    ghost alone = { one_seat };
}
