//! Fields of the structs of `linux/if_packet.h`, by their names.

/// The name of a field, the place of its first byte in its struct, how many bytes it has, and
/// whether they are in network order.
type FieldPlace = (&'static str, usize, usize, bool);

/// The header of a block of TPACKET_V3.
static BLOCK: [FieldPlace; 11] = [
    ("version", 0, 4, false),
    ("offset_to_priv", 4, 4, false),
    ("block_status", 8, 4, false),
    ("num_pkts", 12, 4, false),
    ("offset_to_first_pkt", 16, 4, false),
    ("blk_len", 20, 4, false),
    ("seq_num", 24, 8, false),
    ("first_sec", 32, 4, false),
    ("first_nsec", 36, 4, false),
    ("last_sec", 40, 4, false),
    ("last_nsec", 44, 4, false),
];

/// The header of a packet of TPACKET_V3.
static PACKET: [FieldPlace; 11] = [
    ("tp_next_offset", 0, 4, false),
    ("tp_sec", 4, 4, false),
    ("tp_nsec", 8, 4, false),
    ("tp_snaplen", 12, 4, false),
    ("tp_len", 16, 4, false),
    ("tp_status", 20, 4, false),
    ("tp_mac", 24, 2, false),
    ("tp_net", 26, 2, false),
    ("tp_rxhash", 28, 4, false),
    ("tp_vlan_tci", 32, 4, false),
    ("tp_vlan_tpid", 36, 2, false),
];

/// The header of a slot of TPACKET_V2.
static SLOT: [FieldPlace; 9] = [
    ("tp_status", 0, 4, false),
    ("tp_len", 4, 4, false),
    ("tp_snaplen", 8, 4, false),
    ("tp_mac", 12, 2, false),
    ("tp_net", 14, 2, false),
    ("tp_sec", 16, 4, false),
    ("tp_nsec", 20, 4, false),
    ("tp_vlan_tci", 24, 2, false),
    ("tp_vlan_tpid", 26, 2, false),
];

/// The address that follows the header of a packet or a slot.
static ADDRESS: [FieldPlace; 7] = [
    ("sll_family", 0, 2, false),
    ("sll_protocol", 2, 2, true),
    ("sll_ifindex", 4, 4, false),
    ("sll_hatype", 8, 2, false),
    ("sll_pkttype", 10, 1, false),
    ("sll_halen", 11, 1, false),
    ("sll_addr", 12, 8, true),
];

/// The structs that have fields here.
pub(crate) const STRUCTS: &str = "block packet slot";

/// A field of a struct.
#[derive(Clone, Copy)]
pub struct Field {
    /// The place of its first byte in the struct.
    pub at: usize,
    /// How many bytes it has: 1, 2, 4 or 8.
    pub size: usize,
    /// Whether they are in network order.
    is_network: bool,
}

/// The rows of a struct; those of the address that follows it, and its place.
pub(crate) fn rows_of(layout: &str) -> (&'static [FieldPlace], &'static [FieldPlace], usize) {
    match layout {
        "block" => (BLOCK.as_slice(), &[], 0),
        "packet" => (PACKET.as_slice(), ADDRESS.as_slice(), 48),
        "slot" => (SLOT.as_slice(), ADDRESS.as_slice(), 32),
        _ => (&[], &[], 0),
    }
}

/// The field of a name in rows that begin at a place.
fn found_in(rows: &[FieldPlace], name: &str, front: usize) -> Option<Field> {
    for (other, at, size, is_network) in rows {
        if *other == name {
            return Some(Field {
                at: front.saturating_add(*at),
                size: *size,
                is_network: *is_network,
            });
        }
    }
    None
}

/// The field of a name in a struct: `block`, `packet` or `slot`.
pub fn field_of(layout: &str, name: &str) -> Option<Field> {
    let (rows, address, front) = rows_of(layout);
    match found_in(rows, name, 0) {
        Some(field) => Some(field),
        None => found_in(address, name, front),
    }
}

impl Field {
    /// The greatest number that it can have.
    pub(crate) fn greatest(&self) -> u64 {
        match self.size {
            1 => 0xff,
            2 => 0xffff,
            4 => 0xffff_ffff,
            _ => u64::MAX,
        }
    }
}

/// The number with one more byte after those that it had.
fn longer(number: u64, byte: u8) -> u64 {
    number.wrapping_mul(256).wrapping_add(u64::from(byte))
}

/// The number of a field of a struct that begins at a place; `None` where the bytes end before.
pub fn number_at(bytes: &[u8], at: usize, field: &Field) -> Option<u64> {
    let (_, rest) = bytes.split_at_checked(at.saturating_add(field.at))?;
    let (part, _) = rest.split_at_checked(field.size)?;
    let mut number: u64 = 0;
    for index in 0..part.len() {
        let from = if field.is_network {
            index
        } else {
            part.len() - 1 - index
        };
        number = longer(number, part[from]);
    }
    Some(number)
}
