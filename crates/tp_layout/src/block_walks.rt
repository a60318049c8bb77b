//! How a block is read: it is tested as a whole, and then its packets are given one after another.
ghost use Rattle.std.specs.Prelude.{◌≡◌, ◌+◌, ◌<◌, ◌≤◌, ℕ, List, IfOk, IsOk, Ok, length};
ghost use Rattle.frame_view.specs.declared.frames.Packet.{Packet};
ghost use Rattle.tp_layout.specs.Blocks.{BeginsLawfully, BeginsWith, HasText, IsLawful, block_text};
ghost use Rattle.tp_layout.specs.Blocks.{last_time};
ghost use Rattle.tp_layout.specs.Checks.{EndsWithin, block_tests, descriptor_tests, fits_of};
ghost use Rattle.tp_layout.specs.Checks.{packets_tests, time_tests};
ghost use Rattle.tp_layout.specs.Faults.{area_of, fault_of, packets_in, packets_of, text_fault};
ghost use Rattle.tp_layout.specs.Readers.{IsTextOf, told};
ghost use Rattle.tp_layout.specs.Requests.{IsShape, first_of};
ghost use Rattle.tp_layout.specs.Rows.{number_at};

use crate::checks::{Ends, check_head, check_packet, check_zeros};
use crate::fields::u32_at;
use crate::{Block, LayoutError, LayoutKind, PacketWalk, Shape, a_shape_is_sound};

/// Tests a whole block up to its end (`blk_len`), and returns its packets. It is Ok exactly if the
/// block begins with a lawful text; otherwise it reports the first test that fails, and where.
pub fn walk<'a>(bytes: &'a [u8], shape: &Shape) -> Result<PacketWalk<'a>, LayoutError>
    requires { length bytes.now ≡ shape.now.block_size }
    ensures fault { told result ≡ fault_of shape.now bytes.now }
    ensures found { IfOk result (λ packets. HasText shape.now bytes.now packets) }
    ensures only { (number status : ℕ) (packets : List Packet)
        → BeginsWith shape.now number status packets bytes.now → result ≡ Ok packets }
    ensures lawful { (number status : ℕ)
        → BeginsLawfully shape.now number status bytes.now → IsOk result }
{
    walk_by(bytes, shape, Ends::UpTo(shape.block_size()))
}

/// Tests the text of a block on its own, and returns its packets. It answers as `walk` does on the
/// text with zeros after it, except that the packets have to end with the text.
pub fn walk_text<'a>(text: &'a [u8], shape: &Shape) -> Result<PacketWalk<'a>, LayoutError>
    requires header { 48 ≤ length text.now }
    requires size { length text.now ≤ shape.now.block_size }
    ensures fault { told result ≡ text_fault shape.now text.now }
    ensures found { IfOk result (λ packets. IsTextOf shape.now text.now packets) }
    ensures only { (number status : ℕ) (packets : List Packet)
        → IsLawful shape.now number status packets
        → text.now ≡ block_text shape.now number status packets → result ≡ Ok packets }
{
    walk_by(text, shape, Ends::At(text.len()))
}

/// The text that a block begins with, borrowed: all bytes up to its end.
pub fn text_of(block: &Block) -> &[u8]
    requires { (number : ℕ) × (status : ℕ)
        × BeginsLawfully block.now.shape number status block.now.bytes }
    ensures { (number status : ℕ) (packets : List Packet)
        → BeginsWith block.now.shape number status packets block.now.bytes
        → result.now ≡ block_text block.now.shape number status packets }
{
    let bytes = block.bytes();
    let (text, _) = bytes.split_at(u32_at(bytes, 20) as usize);
    text
}

/// The packets of at most a block of bytes that begin with a lawful text of this shape: a block, or
/// a text on its own. The text isn't tested again.
pub fn packets_of<'a>(bytes: &'a [u8], shape: &Shape) -> PacketWalk<'a>
    requires size { length bytes.now ≤ shape.now.block_size }
    requires lawful { (number : ℕ) × (status : ℕ)
        × BeginsLawfully shape.now number status bytes.now }
    ensures packets { result ≡ packets_of shape.now bytes.now }
    ensures found { HasText shape.now bytes.now result }
    ensures only { (number status : ℕ) (packets : List Packet)
        → BeginsWith shape.now number status packets bytes.now → result ≡ packets }
{
    a_shape_is_sound(shape);
    PacketWalk::of(u32_at(bytes, 12), area_of(bytes, shape))
}

/// Tests a block whose packets end at this place, and returns its packets.
#[tactic(auto, unfolding(crate::specs::Checks::block_tests))]
fn walk_by<'a>(bytes: &'a [u8], shape: &Shape, ends: Ends) -> Result<PacketWalk<'a>, LayoutError>
    requires header { 48 ≤ length bytes.now }
    requires size { length bytes.now ≤ shape.now.block_size }
    requires ends { EndsWithin shape.now (fits_of ends shape.now) (length bytes.now) }
    ensures fault { told result ≡ block_tests (fits_of ends shape.now) shape.now bytes.now }
    ensures packets { IfOk result (λ packets. packets ≡ packets_of shape.now bytes.now) }
    ensures sound { IsShape shape.now }
{
    let first = shape.first();
    check_descriptor(bytes, shape, ends)?;
    let area = area_of(bytes, shape);
    let count = u32_at(bytes, 12);
    let last = check_packets(area, first, count)?;
    check_times(bytes, area, last)?;
    Ok(PacketWalk::of(count, area))
}

/// Tests the descriptor up to the times, and the zeros after it.
fn check_descriptor(bytes: &[u8], shape: &Shape, ends: Ends) -> Result<(), LayoutError>
    requires header { 48 ≤ length bytes.now }
    requires ends { EndsWithin shape.now (fits_of ends shape.now) (length bytes.now) }
    ensures fault { told result ≡ descriptor_tests (fits_of ends shape.now) shape.now bytes.now }
    ensures area { IfOk result (λ _. (first_of shape.now < number_at 4 20 bytes.now)
        × (number_at 4 20 bytes.now ≤ length bytes.now)) }
    ensures some { IfOk result (λ _. 0 < number_at 4 12 bytes.now) }
{
    check_head(bytes, shape, ends)?;
    check_zeros(bytes, 0, 48, shape.first())
}

/// The bytes of a block's packets.
fn area_of<'a>(bytes: &'a [u8], shape: &Shape) -> &'a [u8]
    requires header { 48 ≤ length bytes.now }
    requires order { first_of shape.now ≤ number_at 4 20 bytes.now }
    requires within { number_at 4 20 bytes.now ≤ length bytes.now }
    ensures { result.now ≡ area_of shape.now bytes.now }
{
    let (text, _) = bytes.split_at(u32_at(bytes, 20) as usize);
    let (_, area) = text.split_at(shape.first() as usize);
    area
}

/// Tests `count` packets in bytes that begin at `at`, and reports the time of the last one.
#[tactic(auto, using(crate::proofs::Walks::packet_rules))]
fn check_packets(bytes: &[u8], at: u32, count: u32) -> Result<(u32, u32), LayoutError>
    requires small { at + length bytes.now ≤ 1048576 }
    ensures fault { told result ≡ packets_tests count at bytes.now }
    ensures last { IfOk result (λ time. time ≡ last_time (packets_in count bytes.now)) }
    ensures some { IfOk result (λ _. 0 < count → 88 ≤ length bytes.now) }
{
    let mut rest = bytes;
    let mut place = at;
    let mut left = count;
    let mut time = (0, 0);
    while left > 0 {
        left -= 1;
        let need = check_packet(rest, place, left == 0)?;
        time = (u32_at(rest, 4), u32_at(rest, 8));
        let (_, tail) = rest.split_at(need as usize);
        rest = tail;
        place += need;
    }
    if !rest.is_empty() {
        return Err(LayoutError::new(LayoutKind::Length, 20));
    }
    Ok(time)
}

/// Tests the times of a descriptor: those of the packet at the start of the area, and of the last
/// packet.
#[tactic(auto, unfolding(crate::specs::Checks::time_tests))]
fn check_times(bytes: &[u8], area: &[u8], last: (u32, u32)) -> Result<(), LayoutError>
    requires header { 48 ≤ length bytes.now }
    requires packet { 88 ≤ length area.now }
    ensures { told result
        ≡ time_tests (number_at 4 4 area.now, number_at 4 8 area.now) last bytes.now }
{
    let first = (u32_at(area, 4), u32_at(area, 8));
    if u32_at(bytes, 32) != first.0 || u32_at(bytes, 36) != first.1 {
        return Err(LayoutError::new(LayoutKind::Field, 32));
    }
    if u32_at(bytes, 40) != last.0 || u32_at(bytes, 44) != last.1 {
        return Err(LayoutError::new(LayoutKind::Field, 40));
    }
    Ok(())
}
