//! Blocks written in a byte order, as the pcapng format defines them.
use frame_view::Memory;
use pcapng_blocks::Order;

/// Appends a number in four bytes.
pub(crate) fn push_u32(bytes: &mut Vec<u8>, order: Order, number: u32) -> Result<(), Memory> {
    match order {
        Order::Little => bytes.extend_from_slice(&number.to_le_bytes())?,
        Order::Big => bytes.extend_from_slice(&number.to_be_bytes())?,
    }
    Ok(())
}

/// Appends two numbers in two bytes each.
pub(crate) fn push_pair(
    bytes: &mut Vec<u8>,
    order: Order,
    first: u16,
    second: u16,
) -> Result<(), Memory> {
    match order {
        Order::Little => {
            bytes.extend_from_slice(&first.to_le_bytes())?;
            bytes.extend_from_slice(&second.to_le_bytes())?;
        }
        Order::Big => {
            bytes.extend_from_slice(&first.to_be_bytes())?;
            bytes.extend_from_slice(&second.to_be_bytes())?;
        }
    }
    Ok(())
}

/// Appends a section header of version 1.0 and unknown length: 28 bytes.
pub(crate) fn push_section(bytes: &mut Vec<u8>, order: Order) -> Result<(), Memory> {
    push_u32(bytes, order, 0x0a0d_0d0a)?;
    push_u32(bytes, order, 28)?;
    push_u32(bytes, order, 0x1a2b_3c4d)?;
    push_pair(bytes, order, 1, 0)?;
    bytes.extend_from_slice(&[0xff; 8])?;
    push_u32(bytes, order, 28)
}

/// Appends an Ethernet interface without options: 20 bytes.
pub(crate) fn push_interface(
    bytes: &mut Vec<u8>,
    order: Order,
    snaplen: u32,
) -> Result<(), Memory> {
    push_u32(bytes, order, 1)?;
    push_u32(bytes, order, 20)?;
    push_pair(bytes, order, 1, 0)?;
    push_u32(bytes, order, snaplen)?;
    push_u32(bytes, order, 20)
}

/// Appends an Ethernet interface with a name, a time resolution and the end of the options: 40
/// bytes.
pub(crate) fn push_timed(bytes: &mut Vec<u8>, order: Order, resolution: u8) -> Result<(), Memory> {
    push_u32(bytes, order, 1)?;
    push_u32(bytes, order, 40)?;
    push_pair(bytes, order, 1, 0)?;
    push_u32(bytes, order, 0)?;
    push_pair(bytes, order, 2, 2)?;
    bytes.extend_from_slice(&[b'e', b'0', 0, 0])?;
    push_pair(bytes, order, 9, 1)?;
    bytes.extend_from_slice(&[resolution, 0, 0, 0])?;
    push_pair(bytes, order, 0, 0)?;
    push_u32(bytes, order, 40)
}

/// Appends an enhanced packet of four bytes with a time stamp: 36 bytes.
pub(crate) fn push_enhanced(
    bytes: &mut Vec<u8>,
    order: Order,
    interface: u32,
    upper: u32,
    lower: u32,
    original: u32,
) -> Result<(), Memory> {
    push_u32(bytes, order, 6)?;
    push_u32(bytes, order, 36)?;
    push_u32(bytes, order, interface)?;
    push_u32(bytes, order, upper)?;
    push_u32(bytes, order, lower)?;
    push_u32(bytes, order, 4)?;
    push_u32(bytes, order, original)?;
    bytes.extend_from_slice(&[1, 2, 3, 4])?;
    push_u32(bytes, order, 36)
}

/// Appends a simple packet of eight bytes: 24 bytes.
pub(crate) fn push_simple(bytes: &mut Vec<u8>, order: Order, original: u32) -> Result<(), Memory> {
    push_u32(bytes, order, 3)?;
    push_u32(bytes, order, 24)?;
    push_u32(bytes, order, original)?;
    bytes.extend_from_slice(&[1, 2, 3, 4, 5, 6, 7, 8])?;
    push_u32(bytes, order, 24)
}
