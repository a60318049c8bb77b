//! An interface of a section, and the moments that its time stamps mean.
ghost use Rattle.std.specs.Prelude.{◌≡◌, ◌+◌, ◌*◌, ◌^◌, ◌<◌, ◌≤◌, ◌/◌, length, drop};
ghost use Rattle.pcapng_blocks.specs.Interfaces.{begins_option, resolution_after, resolution_of};
ghost use Rattle.pcapng_blocks.specs.Interfaces.{interface_of, nanoseconds};
ghost use Rattle.pcapng_blocks.specs.Numbers.{padded, number_at};

use crate::Order;

/// The code of the option that says the time resolution (if_tsresol).
const TIME_RESOLUTION: u16 = 9;

/// The time resolution of an interface that doesn't state one: microseconds.
const MICROSECONDS: u8 = 6;

/// The number of nanoseconds in a second.
const SECOND: u128 = 1_000_000_000;

/// An interface of a section.
#[derive(Clone, Copy, Debug)]
pub(crate) struct Interface {
    /// The most bytes that were captured of a packet; 0 means no limit.
    pub snaplen: u32,
    /// The unit of its time stamps, as if_tsresol says it: with the low seven bits k, 10 to the -k
    /// seconds, or 2 to the -k seconds where the top bit is set.
    pub resolution: u8,
}

/// The interface that a whole interface description block says.
#[tactic(auto, unfolding(crate::specs::Interfaces::interface_of))]
pub(crate) fn interface_of(order: Order, block: &[u8]) -> Interface
    requires { 20 ≤ length block.now }
    ensures { result ≡ interface_of order block.now }
{
    let (body, _) = block.split_at(block.len() - 4);
    let (_, options) = body.split_at(16);
    Interface {
        snaplen: order.u32_at(block, 12),
        resolution: resolution(order, options),
    }
}

/// The last time resolution of options.
fn resolution(order: Order, options: &[u8]) -> u8
    ensures { result ≡ resolution_of order 6 options.now }
{
    let mut resolution = MICROSECONDS;
    let mut rest = options;
    while begins_option(order, rest) {
        resolution = resolution_after(order, resolution, rest);
        rest = behind_option(order, rest);
    }
    resolution
}

/// Whether the bytes begin with an option that is whole and isn't the end of the options.
#[tactic(auto, unfolding(crate::specs::Interfaces::begins_option))]
fn begins_option(order: Order, bytes: &[u8]) -> bool
    ensures { result ≡ begins_option order bytes.now }
{
    bytes.len() >= 4
        && order.u16_at(bytes, 0) != 0
        && bytes.len() >= 4 + order.u16_at(bytes, 2) as usize
}

/// The time resolution after the first option.
fn resolution_after(order: Order, so_far: u8, bytes: &[u8]) -> u8
    requires head { 4 ≤ length bytes.now }
    requires there { 4 + number_at order 2 2 bytes.now ≤ length bytes.now }
    ensures { result ≡ resolution_after order so_far bytes.now }
{
    if order.u16_at(bytes, 0) == TIME_RESOLUTION && order.u16_at(bytes, 2) == 1 {
        bytes[4]
    } else {
        so_far
    }
}

/// The bytes after the first option, whose value is padded to four bytes.
fn behind_option(order: Order, bytes: &[u8]) -> &[u8]
    requires { 4 ≤ length bytes.now }
    ensures { result.now ≡ drop (4 + padded (number_at order 2 2 bytes.now)) bytes.now }
{
    let size = 4 + (order.u16_at(bytes, 2) as usize).div_ceil(4) * 4;
    let (_, behind) = bytes.split_at(size.min(bytes.len()));
    behind
}

/// The nanoseconds of a time stamp.
#[tactic(auto, unfolding(crate::specs::Interfaces::nanoseconds))]
pub(crate) fn nanoseconds(resolution: u8, stamp: u64) -> u128
    ensures { result ≡ nanoseconds resolution stamp }
{
    let scaled = u128::from(stamp) * SECOND;
    if resolution < 128 {
        decimal(scaled, resolution)
    } else {
        scaled >> (resolution - 128)
    }
}

/// A number of nanoseconds divided by ten `times` times.
fn decimal(scaled: u128, times: u8) -> u128
    ensures { result ≡ scaled / 10 ^ times }
{
    let mut quotient = scaled;
    for _ in 0..times {
        quotient /= 10;
    }
    quotient
}
