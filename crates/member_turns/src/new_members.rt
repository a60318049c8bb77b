//! How a member is made.
ghost use Rattle.std.specs.Prelude.{◌≡◌, ◌+◌, ◌≤◌, [], IfOk};
ghost use Rattle.member_turns.specs.Entries.{table_numbers};
ghost use Rattle.ring_words.specs.TableEnds.{fresh_walker};
ghost use Rattle.tp_layout.specs.Requests.{numbers_of};
ghost use Rattle.turn_lock.specs.Seats.{fresh_seats};

use crate::{Member, MemberRing, MemberSeat};
use block_ring::Producer;
use frame_view::Memory;
use ring_words::{TableWalker, table_ring};
use std::alloc::Global;
use tp_layout::{Block, Shape, a_shape_is_sound, blocks};
use turn_lock::{TurnLock, TurnSeat};

/// A member with an empty ring of this shape, the seats at it, and the reader's end of its ring.
/// There is a seat for each of the CPUs, from 0 up, and one more for the timer; there are at most 8
/// CPUs.
pub fn open_member(
    alloc: Global,
    shape: &Shape,
    cpus: u32,
) -> Result<(Member, Vec<MemberSeat>, TableWalker<Block>), Memory>
    requires few { cpus ≤ 8 }
    ensures base { IfOk result (λ opened. opened.0.base ≡ record {
      shape = shape.now;
      cpus = cpus;
      table = table_numbers opened.2.id;
    }) }
    ensures first { IfOk result (λ opened. opened.0.first ≡ []) }
    ensures count { IfOk result (λ opened. opened.0.seats ≡ cpus + 1) }
    ensures member_seats { IfOk result (λ opened.
        opened.1.items ≡ fresh_seats opened.0 0 (cpus + 1)) }
    ensures walker { IfOk result (λ opened. opened.2
        ≡ fresh_walker opened.2.id shape.now.block_nr (numbers_of shape.now)) }
{
    let (ring, walker) = new_ring(alloc, shape, cpus)?;
    let (lock, seats) = TurnLock::new(alloc, ring, cpus + 1)?;
    let member_seats = as_member_seats(alloc, seats)?;
    Ok((Member { lock }, member_seats, walker))
}

/// An empty ring, and the reader's end of it.
fn new_ring(
    alloc: Global,
    shape: &Shape,
    cpus: u32,
) -> Result<(MemberRing, TableWalker<Block>), Memory>
    ensures shape { IfOk result (λ made. made.0.producer.value.shape ≡ shape.now) }
    ensures notes { IfOk result (λ made. made.0.producer.value.notes ≡ []) }
    ensures cpus { IfOk result (λ made. made.0.cpus ≡ cpus) }
    ensures ring { IfOk result (λ made. made.1.id ≡ made.0.producer.value.end.id) }
    ensures walker { IfOk result (λ made. made.1
        ≡ fresh_walker made.1.id shape.now.block_nr (numbers_of shape.now)) }
{
    a_shape_is_sound(shape);
    let (feeder, walker) = table_ring(alloc, blocks(alloc, shape)?)?;
    let producer = Box::new(alloc, Producer::new(alloc, *shape, feeder)?)?;
    Ok((MemberRing { producer, cpus }, walker))
}

/// Each seat of the lock as one at the member.
fn as_member_seats(
    alloc: Global,
    seats: Vec<TurnSeat<MemberRing>>,
) -> Result<Vec<MemberSeat>, Memory>
    ensures { IfOk result (λ member_seats. member_seats.items ≡ seats.items) }
{
    let mut member_seats = Vec::with_capacity(alloc, seats.len())?;
    for seat in seats {
        member_seats.push(MemberSeat { seat })?;
    }
    Ok(member_seats)
}
