//! The ring of slots that a process fills and a socket sends from (PACKET_TX_RING with TPACKET_V3).
#![tactic(auto)]

mod error;
mod laws;
mod ring;
mod slot_fields;
mod slots;
mod transmission;

pub use error::{SendError, TxError};
pub use laws::{a_bad_slot_stops_for_good, no_request_is_lost};
pub use ring::{Sent, TxRing};
pub use transmission::{Transmitted, transmit_frames};
