//! What the first bytes of a block say: its type, its byte order and its total length.
ghost use Rattle.std.specs.Prelude.{◌≡◌, ◌+◌, ◌≤◌, length};
ghost use Rattle.pcapng_blocks.specs.Heads.{kind_of, head_size, least, is_skipped, length_fits};
ghost use Rattle.pcapng_blocks.specs.Heads.{order_by_magic, order_of, look_at, HasTotal};

use crate::{BlockError, Order};

/// The type of a section header block.
const SECTION_HEADER: u32 = 0x0a0d_0d0a;

/// The type of an interface description block.
const INTERFACE_DESCRIPTION: u32 = 1;

/// The type of an enhanced packet block.
const ENHANCED_PACKET: u32 = 6;

/// The type of a simple packet block.
const SIMPLE_PACKET: u32 = 3;

/// The byte-order magic of a section header.
const BYTE_ORDER_MAGIC: u32 = 0x1a2b_3c4d;

/// The largest total length of a block that is read.
const LARGEST_BLOCK: u32 = 524_288;

/// What a block is.
#[derive(Clone, Copy, Debug)]
pub(crate) enum Kind {
    /// A section header.
    Section,
    /// An interface description.
    Interface,
    /// An enhanced packet.
    Enhanced,
    /// A simple packet.
    Simple,
    /// A block of another type: it is skipped.
    Other,
}

/// What the head of a block says, if that is allowed.
#[derive(Clone, Copy, Debug)]
pub(crate) struct Head {
    /// What the block is.
    pub kind: Kind,
    /// The byte order of its fields.
    pub order: Order,
    /// Its number of bytes, head and tail included.
    pub total: u32,
}

/// What bytes begin with.
#[derive(Clone, Copy)]
pub(crate) enum Look {
    /// Too few bytes for the head of a block.
    Short,
    /// A head that says something that isn't allowed.
    Bad(BlockError),
    /// The head of a block.
    Headed(Head),
}

/// What bytes begin with at a place of a capture, in a section of this byte order.
#[tactic(auto, unfolding(crate::specs::Heads::look_at))]
pub(crate) fn look_at(order: Order, place: usize, bytes: &[u8]) -> Look
    ensures look { result ≡ look_at order place bytes.now }
    ensures total { HasTotal result }
{
    if bytes.len() < 8 {
        return Look::Short;
    }
    let kind = kind_of(order.u32_at(bytes, 0));
    if bytes.len() < kind.head_size() {
        return Look::Short;
    }
    let Some(order) = kind.order(order, bytes) else {
        return Look::Bad(BlockError::BadMagic);
    };
    let total = order.u32_at(bytes, 4);
    if kind.length_fits(total) {
        Look::Headed(Head { kind, order, total })
    } else {
        Look::Bad(BlockError::BadLength(place as u64))
    }
}

/// What a block is, by its type.
fn kind_of(number: u32) -> Kind
    ensures { result ≡ kind_of number }
{
    match number {
        SECTION_HEADER => Kind::Section,
        INTERFACE_DESCRIPTION => Kind::Interface,
        ENHANCED_PACKET => Kind::Enhanced,
        SIMPLE_PACKET => Kind::Simple,
        _ => Kind::Other,
    }
}

/// The byte order that the magic of a section header says.
fn order_by_magic(bytes: &[u8]) -> Option<Order>
    requires { 12 ≤ length bytes.now }
    ensures { result ≡ order_by_magic bytes.now }
{
    if Order::Little.u32_at(bytes, 8) == BYTE_ORDER_MAGIC {
        Some(Order::Little)
    } else if Order::Big.u32_at(bytes, 8) == BYTE_ORDER_MAGIC {
        Some(Order::Big)
    } else {
        None
    }
}

impl Kind {
    /// Whether a block is skipped.
    pub(crate) fn is_skipped(self) -> bool
        ensures { result ≡ is_skipped self }
    {
        match self {
            Kind::Other => true,
            _ => false,
        }
    }

    /// The number of bytes of the head.
    fn head_size(self) -> usize
        ensures { result ≡ head_size self }
    {
        match self {
            Kind::Section => 12,
            _ => 8,
        }
    }

    /// The least total length.
    fn least(self) -> u32
        ensures { result ≡ least self }
    {
        match self {
            Kind::Section => 28,
            Kind::Interface => 20,
            Kind::Enhanced => 32,
            Kind::Simple => 16,
            Kind::Other => 12,
        }
    }

    /// Whether a block may have this total length.
    fn length_fits(self, total: u32) -> bool
        ensures { result ≡ length_fits self total }
    {
        total % 4 == 0 && self.least() <= total && (self.is_skipped() || total <= LARGEST_BLOCK)
    }

    /// The byte order of a block in a section of this byte order; a section header says its own.
    fn order(self, order: Order, bytes: &[u8]) -> Option<Order>
        requires { head_size self ≤ length bytes.now }
        ensures { result ≡ order_of self order bytes.now }
    {
        match self {
            Kind::Section => order_by_magic(bytes),
            _ => Some(order),
        }
    }
}
