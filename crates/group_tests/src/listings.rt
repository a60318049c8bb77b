//! What `tcpdump -ddd ip` writes, with a number of bytes to keep.
use crate::verdicts::{judged, packet};
use std::test::Fail;

const CUTS: &str = "4\n40 0 0 12\n21 0 1 2048\n6 0 0 96\n6 0 0 0\n";

#[test]
fn passes_and_cuts(rt: HostRuntime) -> Result<(), Fail> {
    let mut frame = vec![in rt.alloc(); 0u8; 1514]?;
    frame[12] = 0x08;
    assert_eq!(rt; judged(rt.alloc(), CUTS, &packet(&frame)), Ok(96), "ipv4");
    frame[13] = 0x06;
    assert_eq!(rt; judged(rt.alloc(), CUTS, &packet(&frame)), Ok(0), "arp");
    Ok(())
}
