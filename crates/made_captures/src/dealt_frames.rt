//! Frames, dealt out to CPUs as packets.
ghost use Rattle.std.specs.Prelude.{◌≡◌, ◌<◌, ◌≤◌, [], length, map, replicate, All, IfOk};
ghost use Rattle.std.specs.List.{range_with_len};
ghost use Rattle.frame_maker.specs.Made.{IsMade};
ghost use Rattle.made_captures.specs.Made.{AreShort, packet_of, packets_for};

use frame_view::{Frame, Frames, Memory, Packet, Packets};
use std::alloc::Global;

/// Gives frame i to CPU i modulo the number of CPUs. Returns for each CPU, from 0 up, a list of
/// packets in the order of the frames.
pub(crate) fn deal(alloc: Global, frames: Frames, cpus: u32) -> Result<Vec<Packets>, Memory>
    requires count { length frames ≤ 20000 }
    requires cpus { 0 < cpus }
    requires made { All IsMade frames }
    ensures lists { IfOk result (λ lists.
        lists.items ≡ map (packets_for cpus frames) (range_with_len 0 cpus)) }
    ensures short { IfOk result (λ lists. All AreShort lists.items) }
{
    let mut lists = no_packets(alloc, cpus)?;
    let mut index = 0u32;
    for frame in frames.into_vec() {
        lists[(index % cpus) as usize].push(packet_of(frame))?;
        index += 1;
    }
    Ok(lists)
}

/// An empty list of packets for each CPU.
fn no_packets(alloc: Global, cpus: u32) -> Result<Vec<Packets>, Memory>
    ensures { IfOk result (λ lists. lists.items ≡ replicate cpus []) }
{
    let mut lists = Vec::with_capacity(alloc, cpus as usize)?;
    for _cpu in 0..cpus {
        lists.push(Packets::new(alloc))?;
    }
    Ok(lists)
}

/// A frame as a packet: its time, its length on the wire and its bytes.
fn packet_of(frame: Frame) -> Packet
    requires { IsMade frame }
    ensures { result ≡ packet_of frame }
{
    let mut packet = Packet::plain(frame.bytes);
    packet.sec = frame.sec;
    packet.nsec = frame.nsec;
    packet.wire = frame.wire;
    packet
}
