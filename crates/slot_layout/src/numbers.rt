//! The fixed numbers of a slot, of `linux/if_packet.h` unless said otherwise.

/// The place of a packet's data in its slot, which `tp_mac` says; this project's own choice.
pub(crate) const MAC: u16 = 66;

/// The place of what follows an Ethernet header, which `tp_net` says.
pub(crate) const NET: u16 = 80;

/// TP_STATUS_USER.
pub(crate) const USER: u32 = 1;

/// TP_STATUS_LOSING.
pub(crate) const LOSING: u32 = 4;

/// TP_STATUS_VLAN_VALID and TP_STATUS_VLAN_TPID_VALID.
pub(crate) const WITH_TAG: u32 = 80;

/// The last nanosecond of a second.
pub(crate) const LAST_NANOSECOND: u32 = 999_999_999;
