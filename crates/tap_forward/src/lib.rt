//! A bridge: it receives on one ring and transmits on another. Each reader of a run sends the
//! packets that it reads.
#![tactic(auto)]

mod bridge;
mod forwarder;
mod sender;

pub use bridge::{ForwardRan, forward_workers};
pub use forwarder::{Forwarded, Forwarder};
