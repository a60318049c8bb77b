//! The verdict of a text on a packet.
use bpf_filter::{FilterError, Program, Seen, read_ddd, verdict_with};
use std::alloc::Global;

/// The verdict of a text's program on a packet, or why the text is refused.
pub(crate) fn judged(alloc: Global, text: &str, packet: &Seen<'_>) -> Result<u32, FilterError> {
    let program = Program::check(alloc, read_ddd(alloc, text.as_bytes())?)?;
    Ok(verdict_with(Some(&program), packet))
}

/// A packet with a number of its own in each field.
pub(crate) fn packet(bytes: &[u8]) -> Seen<'_> {
    Seen {
        bytes,
        wire: 1500,
        protocol: 0x0806,
        pkttype: 2,
        queue: 70001,
        rxhash: 0x51cc_c178,
        cpu: 5,
    }
}
