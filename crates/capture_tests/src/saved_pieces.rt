//! An output file that is saved a piece at a time, in a real file.
ghost use Rattle.std.specs.Prelude.{◌≤◌, length, All, IfOk, IsTrue};

use capture_file::{PcapPieces, pcap_text};
use capture_reading::Buffer;
use frame_view::{ByteList, Memory, Packet, Packets};
use std::alloc::Global;
use std::fs;
use std::test::Fail;
use tap_outside::{DiskStore, OutError, Store};

/// The sizes of packets whose records end before, at and after the end of a piece.
static SIZES: [u16; 7] = [60, 65_404, 60, 65_535, 1, 65_400, 0];

/// A packet of this many bytes; those of one size differ from those of another.
fn packet_of(alloc: Global, size: u16) -> Result<Packet, Memory>
    ensures { IfOk result (λ packet. length packet.bytes ≤ 4294967291) }
{
    let [byte, _] = size.to_le_bytes();
    let bytes = vec![in alloc; byte; usize::from(size)]?;
    Ok(Packet {
        sec: 1,
        nsec: 2,
        wire: u32::from(size),
        rxhash: 3,
        protocol: 4,
        pkttype: 0,
        addr: [5; 6],
        bytes: ByteList::from_vec(bytes),
        tag: None,
    })
}

/// Packets of these sizes.
fn packets_of(alloc: Global, sizes: &[u16]) -> Result<Packets, Memory>
    ensures { IfOk result (λ packets. All (λ packet. length packet.bytes ≤ 4294967291) packets) }
{
    let mut packets = Packets::new(alloc);
    for size in sizes {
        packets.push(packet_of(alloc, *size)?)?;
    }
    Ok(packets)
}

/// All that a name gives, up to nine pieces.
fn read_back<S: Store>(alloc: Global, store: &mut S, name: &[u8]) -> Result<Vec<u8>, OutError>
    requires { IsTrue ((S.seen store.old).to_read name.now) }
{
    let mut input = store.fetch(name)?;
    let mut buffer = Buffer::new(alloc)?;
    let mut bytes = Vec::new(alloc);
    for _ in 0..9 {
        buffer.read(&mut input)?;
        bytes.extend_from_slice(buffer.piece())?;
    }
    store.close(input);
    Ok(bytes)
}

#[test]
fn an_output_saved_in_pieces_is_read_back(rt: HostRuntime) -> Result<(), Fail> {
    let packets = packets_of(rt.alloc(), &SIZES)?;
    let mut store = DiskStore::new(&rt);
    let name = b"tap_outside.pieces";
    let saved = store.save_pieces(rt.alloc(), name, PcapPieces::new(&packets));
    let read = read_back(rt.alloc(), &mut store, name)?;
    let text = pcap_text(rt.alloc(), &packets)?;
    assert_eq!(rt; (saved, read.len()), (Ok(()), 196_596));
    assert_eq!(rt; read.as_slice(), text.as_slice());
    fs::remove_file(&rt, "tap_outside.pieces")?;
    assert_eq!(rt; (store.read_faults(), store.save_faults()), (0, 0));
    Ok(())
}

#[test]
fn pieces_that_cannot_be_saved_are_a_fault(rt: HostRuntime) -> Result<(), Fail> {
    let packets = Packets::new(rt.alloc());
    let mut store = DiskStore::new(&rt);
    let saved = store.save_pieces(
        rt.alloc(),
        b"tap_outside.none/file",
        PcapPieces::new(&packets),
    );
    assert_eq!(rt;
        (saved, store.read_faults(), store.save_faults()),
        (Err(OutError::Failed), 0, 1)
    );
    Ok(())
}
