//! The receive ring of slots (TPACKET_V2): each frame goes into a slot of its own, which goes to
//! the reader at once.
#![tactic(auto)]

mod machine;
mod producer;
mod walker_end;

pub use producer::SlotProducer;
use reader_walk::RingReader;
pub use slot_layout::{Slot, read_slot, slots};

/// The reader of a ring of slots.
pub type SlotReader = RingReader<Slot>;
