//! The reader of a ring: it takes retired blocks, walks over their packets and gives the blocks
//! back.
#![tactic(auto)]

mod copies;
mod dumps;
mod laws;
mod outputs;
mod reader;
mod taker;

pub use dumps::Dump;
pub use laws::{a_block_has_few_packets, a_text_is_read_as_it_was_written};
pub use outputs::Outputs;
pub use reader::{Reader, RingReader};
pub use taker::Taker;
