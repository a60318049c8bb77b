//! Captures in the formats pcap and pcapng: a decoder that is fed piece by piece, and the output
//! file of packets.
#![tactic(auto)]

mod batches;
mod cpu_end;
mod decoder;
mod endings;
mod error;
mod format;
mod format_decoder;
mod laws;
mod output;
mod pcap_decoder;
mod record_reader;
mod stage;

pub use cpu_end::CpuEnd;
pub use decoder::Decoder;
pub use endings::damage_is_the_end;
pub use error::CaptureError;
pub use laws::{
    an_empty_capture_has_no_frames, damage_is_not_memory, damage_stays, frames_are_captured,
    frames_are_few, frames_are_numbered, frames_fit, frames_only_grow, output_reads_back,
    too_many_bytes_are_damage,
};
pub use output::{PcapPieces, pcap_text};
