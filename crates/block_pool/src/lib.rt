//! A run on threads whose readers hand whole blocks to a pool of decoding workers.
#![tactic(auto)]

mod ended_takers;
mod fresh_workers;
mod pieces;
mod pool;
mod pool_threads;
mod tables;
mod takers;
mod work_packets;
mod workers;

pub use pool::run_pool;
pub use work_packets::decode;
pub use work_queue::{Unhanded, Work, WorkPass, WorkQueue};
