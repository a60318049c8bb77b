//! What another program reads in frames that a Linux kernel sent.
ghost use Rattle.std.specs.Prelude.{◌≤◌, length};

use crate::captured_frames::{
    ARP, FIRST, HERE, HERE6, LAST, LINK, LINK6, RECEIVER, REPORT, SENDER, TCP, TCP6, THERE, THERE6,
    UDP, UDP6,
};
use frame_view::{ByteList, Headers, Link, Packet, V4Part, V6Part, checksum, pkttype, view};
use std::process::Abort;
use std::test::Fail;

/// An IPv4 header without options from one station to the other: total length, identification,
/// more, offset, protocol, ports.
const fn v4(
    total: u32,
    ident: u16,
    more: bool,
    offset: u32,
    next: u8,
    ports: Option<(u16, u16)>,
) -> Headers {
    Headers::V4(
        LINK,
        V4Part {
            header: 20,
            total,
            ident,
            more,
            offset,
            next,
            from: HERE,
            to: THERE,
            ports,
        },
    )
}

/// An IPv6 header from one station to the other: next header, ports.
const fn v6(next: u8, ports: (u16, u16)) -> Headers {
    Headers::V6(
        LINK6,
        V6Part {
            next,
            from: HERE6,
            to: THERE6,
            ports: Some(ports),
        },
    )
}

/// The report goes to a multicast group, from no address.
fn report() -> Headers {
    let link = Link {
        to: [0x33, 0x33, 0, 0, 0, 0x16],
        from: SENDER,
        protocol: 0x86dd,
    };
    let part = V6Part {
        next: 0,
        from: 0,
        to: 0xff02_0000_0000_0000_0000_0000_0000_0016,
        ports: None,
    };
    Headers::V6(link, part)
}

/// The request goes to all stations.
fn request() -> Headers {
    Headers::Plain(Link {
        to: [0xff; 6],
        from: SENDER,
        protocol: 0x0806,
    })
}

/// What is read of a frame.
fn check_view(rt: &impl Abort, name: &str, bytes: &[u8], want: Headers) {
    assert_eq!(rt; view(bytes), want, "{name}");
}

#[test]
fn reads_captured_frames(rt: HostRuntime) {
    check_view(
        &rt,
        "udp",
        &UDP,
        v4(33, 15902, false, 0, 17, Some((40001, 53))),
    );
    check_view(
        &rt,
        "first fragment",
        &FIRST,
        v4(1396, 15929, true, 0, 17, None),
    );
    check_view(
        &rt,
        "last fragment",
        &LAST,
        v4(188, 15929, false, 172, 17, None),
    );
    check_view(
        &rt,
        "tcp",
        &TCP,
        v4(60, 24212, false, 0, 6, Some((48170, 443))),
    );
    check_view(&rt, "udp over ipv6", &UDP6, v6(17, (49988, 53)));
    check_view(&rt, "tcp over ipv6", &TCP6, v6(6, (47556, 8080)));
    check_view(&rt, "multicast report", &REPORT, report());
    check_view(&rt, "arp request", &ARP, request());
    check_view(&rt, "13 bytes", &ARP[..13], Headers::Runt);
}

/// The packet type of a frame, at a host with this address.
fn check_type(rt: &impl Abort, name: &str, bytes: &[u8], own: Option<[u8; 6]>, want: u8)
    requires { 14 ≤ length bytes.now }
{
    assert_eq!(rt; pkttype(bytes, own), want, "{name}");
}

#[test]
fn tells_packet_types(rt: HostRuntime) {
    let own = Some(RECEIVER);
    check_type(&rt, "broadcast", &ARP, own, 1);
    check_type(&rt, "multicast", &REPORT, own, 2);
    check_type(&rt, "this host", &UDP, own, 0);
    check_type(&rt, "no own address", &UDP, None, 0);
    check_type(&rt, "another host", &UDP, Some(SENDER), 3);
}

/// The sum of a frame's header, which follows 14 bytes and has 20, is 0.
fn check_sum(rt: &impl Abort, name: &str, bytes: &[u8]) {
    let header = bytes.get(14..34).unwrap_or(&[]);
    assert!(rt; header.len() == 20, "{name}");
    assert_eq!(rt; checksum(header), 0, "{name}");
}

#[test]
fn sums_captured_headers(rt: HostRuntime) {
    check_sum(&rt, "udp", &UDP);
    check_sum(&rt, "first fragment", &FIRST);
    check_sum(&rt, "last fragment", &LAST);
    check_sum(&rt, "tcp", &TCP);
}

#[test]
fn a_plain_packet_has_its_frames_fields(rt: HostRuntime) -> Result<(), Fail> {
    let packet = Packet::plain(ByteList::from_vec(REPORT.to_vec(rt.alloc())?));
    assert_eq!(rt;
        (packet.wire, packet.protocol, packet.pkttype),
        (58, 0x86dd, 2)
    );
    assert_eq!(rt; packet.addr, SENDER);
    Ok(())
}
