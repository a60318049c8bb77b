//! Frames and packets, the lists that hold them, and what a frame's headers say.
#![tactic(auto)]

mod byte_lists;
mod checksums;
mod frame_parts;
mod frames;
mod headers;
mod ip_headers;
mod list_types;
mod memory;
mod numbers;
mod vlan;

pub use byte_lists::{ByteList, PIECE, Piece};
pub use checksums::checksum;
pub use frame_parts::{Parts, build};
pub use frames::{Frame, Frames, Packet, Packets, Tag};
pub use headers::{Headers, LINK_HEADER, Link, link_header, pkttype, view};
pub use ip_headers::{V4Part, V6Part};
pub use list_types::{ItemList, MomentList};
pub use memory::Memory;
pub use vlan::{retag, untag};
