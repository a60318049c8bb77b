//! The blocks of a pcapng capture: a decoder that is fed piece by piece, in either byte order.
#![tactic(auto)]

mod block_reader;
mod bodies;
mod byte_order;
mod decoder;
mod error;
mod fronts;
mod heads;
mod interfaces;
mod laws;
mod stage;

pub use byte_order::Order;
pub use decoder::{BlockDecoder, LARGEST_CAPTURE};
pub use error::BlockError;
pub use laws::{
    damage_is_the_end, damage_stays, few_bytes_are_kept, frames_are_few, frames_are_packets,
    frames_fit, frames_only_grow, too_many_bytes_are_damage,
};
