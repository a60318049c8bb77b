//! The files of a run, saved in a store.
#![tactic(auto)]

mod block_pieces;
mod members;
mod names;
mod planned_file;
mod saves;
mod sent_file;

pub use members::save_members;
pub use sent_file::save_sent;
