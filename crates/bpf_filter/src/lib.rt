//! Classic BPF: the text of `tcpdump -ddd`, the programs that a filter accepts, and the verdict on
//! a packet.
#![tactic(auto)]

mod error;
mod insn;
mod listings;
mod loads;
mod machine;
mod packets;
mod program;

pub use error::FilterError;
pub use insn::Insn;
pub use listings::read_ddd;
pub use packets::Seen;
pub use program::{LARGEST_PROGRAM, Program, verdict_with};
