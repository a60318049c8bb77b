//! The fixed numbers of a block, of `linux/if_packet.h` unless said otherwise.

use ring_model::PACKET_HEADER;

/// TPACKET_V3.
pub(crate) const VERSION: u32 = 2;

/// The size of a block's descriptor (`struct tpacket_block_desc`).
pub(crate) const DESCRIPTOR: u32 = 48;

/// The place of a packet's data in its header, which `tp_mac` says; this project's own choice.
pub(crate) const MAC: u16 = PACKET_HEADER as u16;

/// The place of what follows an Ethernet header, which `tp_net` says.
pub(crate) const NET: u16 = 96;

/// The last nanosecond of a second.
pub(crate) const LAST_NANOSECOND: u32 = 999_999_999;
