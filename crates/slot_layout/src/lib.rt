//! Rings of slots (TPACKET_V2): the definitions of such a ring, and slots as bytes: how a slot is
//! filled, and how it is read.
#![tactic(auto)]

mod checks;
mod contents;
mod laws;
mod layouts;
mod numbers;
mod packet_fields;
mod ring_laws;
mod ring_slots;
mod slot_reads;
mod slot_writes;

pub use laws::{
    a_checked_ring_is_bounded, a_slot_is_read_as_it_was_written, a_slot_text_says_one_thing,
};
pub use ring_laws::{
    a_ring_with_slots_left_drops_nothing, a_slot_noted_as_held_is_unreleased,
    a_slot_ring_counts_as_a_ring_of_blocks, slot_puts_may_follow, slot_tries_may_follow,
    the_filled_slots_are_the_kept_packets,
};
pub use ring_slots::{Slot, slots};
pub use slot_reads::{packet_of, read_slot};
pub use slot_writes::write_slot;
