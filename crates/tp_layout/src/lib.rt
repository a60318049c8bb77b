//! Blocks as bytes: which rings are valid, how a block is filled, and how it is read.
#![tactic(auto)]

mod block_headers;
mod block_walks;
mod block_writes;
mod checks;
mod contents;
mod error;
pub mod fields;
mod laws;
mod layouts;
mod lazy_bytes;
pub mod link_addresses;
mod numbers;
mod packet_fields;
mod packet_refs;
mod packet_walks;
mod requests;
mod ring_blocks;
mod shapes;

pub use block_walks::{packets_of, text_of, walk, walk_text};
pub use block_writes::{Closing, close_header, write_header, write_packet};
pub use checks::check_zeros;
pub use error::{LayoutError, LayoutKind, RequestError};
pub use laws::{a_closed_block_begins_with_its_text, a_text_says_one_thing};
pub use layouts::Layout;
pub use lazy_bytes::{LazyBytes, zeros};
pub use packet_refs::{PacketRef, tpid_may};
pub use packet_walks::PacketWalk;
pub use requests::RingRequest;
pub use ring_blocks::{Block, BlockWriter, blocks};
pub use shapes::{Shape, a_shape_is_sound};
