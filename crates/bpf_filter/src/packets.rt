//! What a filter sees of a packet.

/// A packet as a filter sees it.
#[derive(Clone, Copy, Debug, PartialEq, Eq)]
pub struct Seen<'a> {
    /// The captured bytes, from the destination address on.
    pub bytes: &'a [u8],
    /// The length in bytes on the wire.
    pub wire: u32,
    /// The protocol of the link layer, as a number (`SKF_AD_PROTOCOL` of `linux/filter.h`).
    pub protocol: u16,
    /// The packet type of `linux/if_packet.h` (`SKF_AD_PKTTYPE`).
    pub pkttype: u8,
    /// The number of the receive queue (`SKF_AD_QUEUE`).
    pub queue: u32,
    /// The receive hash (`SKF_AD_RXHASH`).
    pub rxhash: u32,
    /// The number of the CPU (`SKF_AD_CPU`).
    pub cpu: u32,
}
