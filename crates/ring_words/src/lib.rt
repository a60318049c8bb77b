//! The two ends of a ring of blocks that are handed over by status words, and the same ring on one
//! thread.
#![tactic(auto)]

mod closing_ring;
mod ends;
mod feeder;
mod handover;
mod knowledge;
mod pending_blocks;
mod plain_ring;
mod sleepers;
mod tables;
mod walker;

pub use closing_ring::ClosingRing;
pub use ends::{BothEnds, FeederEnd, Next, WalkerEnd};
pub use feeder::TableFeeder;
pub use handover::Handover;
pub use knowledge::Known;
pub use pending_blocks::{Pending, finish};
pub use plain_ring::{PlainRing, ownership_holds};
pub use ring_model::Content;
pub use tables::{table_front_holds, table_looks_hold, table_ownership_holds, table_ring};
pub use walker::TableWalker;
