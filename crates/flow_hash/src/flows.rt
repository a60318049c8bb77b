//! The two ends of a flow, in an order that both directions share, and their hash.
ghost use Rattle.std.specs.Prelude.{◌≡◌, ◌≤◌, drop, if◌then◌else◌};
ghost use Rattle.std.specs.Int.{to_be_bytes, w32, w128};
ghost use Rattle.flow_hash.specs.Toeplitz.{hash_of};
ghost use Rattle.flow_hash.specs.FlowHash.{flow_input, way_back, ends_input, port_bytes};
ghost use Rattle.flow_hash.specs.FlowHash.{source_first};

use crate::Key;
use crate::toeplitz_hash::hash_from;
use frame_view::Headers;

/// The hash of a frame's flow: the Toeplitz hash over the two addresses of its IP header and, where
/// it has them, the two ports, the smaller end first, by address and then port. So both directions
/// of a flow have one hash. It is 0 for a frame without an IP header. The choice of what is hashed
/// is this project's own. It takes no memory.
#[tactic(auto, using(crate::proofs::BothWays::flows), unfolding(crate::specs::FlowHash::flow_input))]
#[inline(always)]
pub fn flow_hash(key: &Key, view: &Headers) -> u32
    ensures hash { result ≡ hash_of key.now (flow_input view.now) }
    ensures both_ways { result ≡ hash_of key.now (flow_input (way_back view.now)) }
{
    match view {
        Headers::Runt | Headers::Plain(_) => 0,
        Headers::V4(_, part) => hash_v4(key, part.from, part.to, part.ports),
        Headers::V6(_, part) => hash_v6(key, part.from, part.to, part.ports),
    }
}

/// The hash of the two ends of an IPv4 packet.
fn hash_v4(key: &Key, from: u32, to: u32, ports: Option<(u16, u16)>) -> u32
    ensures { result ≡ hash_of key.now (ends_input w32 from to ports) }
{
    let first = source_first(u128::from(from), u128::from(to), ports);
    let (low, high) = in_order(first, from, to);
    let of_ports = hash_ports(key, 8, first, ports);
    hash_from(key, 0, &low.to_be_bytes()) ^ hash_from(key, 4, &high.to_be_bytes()) ^ of_ports
}

/// The hash of the two ends of an IPv6 packet.
#[inline(never)]
fn hash_v6(key: &Key, from: u128, to: u128, ports: Option<(u16, u16)>) -> u32
    ensures { result ≡ hash_of key.now (ends_input w128 from to ports) }
{
    let first = source_first(from, to, ports);
    let (low, high) = in_order(first, from, to);
    let of_ports = hash_ports(key, 32, first, ports);
    hash_from(key, 0, &low.to_be_bytes()) ^ hash_from(key, 16, &high.to_be_bytes()) ^ of_ports
}

/// Whether the source is the smaller end.
fn source_first(from: u128, to: u128, ports: Option<(u16, u16)>) -> bool
    ensures { result ≡ source_first from to ports }
{
    match ports {
        None => from <= to,
        Some((sport, dport)) => from < to || from == to && sport <= dport,
    }
}

/// Two values, in their order or the other way round.
fn in_order<T: Copy>(first: bool, one: T, other: T) -> (T, T)
    ensures { result ≡ (if first then (one, other) else (other, one)) }
{
    if first { (one, other) } else { (other, one) }
}

/// The hash of the ports, if there are any, which begin at this byte of the input.
#[tactic(auto, using(crate::proofs::BitLists::pieces))]
fn hash_ports(key: &Key, at: usize, first: bool, ports: Option<(u16, u16)>) -> u32
    requires { at ≤ 32 }
    ensures { result ≡ hash_of (drop at key.now) (port_bytes first ports) }
{
    match ports {
        None => 0,
        Some((sport, dport)) => {
            let (low, high) = in_order(first, sport, dport);
            hash_from(key, at, &low.to_be_bytes()) ^ hash_from(key, at + 2, &high.to_be_bytes())
        }
    }
}
