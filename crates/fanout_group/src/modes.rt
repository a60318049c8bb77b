//! The fanout modes of `linux/if_packet.h` that a group can have.

/// How a group chooses the member that an arrival is for.
#[derive(Clone, Copy, Debug, PartialEq, Eq)]
pub enum Mode {
    /// PACKET_FANOUT_HASH: by the flow hash.
    Hash,
    /// PACKET_FANOUT_LB: round robin, by the arrival's ticket.
    Lb,
    /// PACKET_FANOUT_CPU: by the CPU.
    Cpu,
    /// PACKET_FANOUT_ROLLOVER: the CPU's present member, until it has no room.
    Rollover,
    /// PACKET_FANOUT_QM: by the receive queue.
    Qm,
}
