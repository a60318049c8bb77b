//! The published verification suite of receive side scaling, and flows that another program hashed.
use flow_hash::{Key, KeyError, flow_hash, toeplitz};
use frame_view::{Headers, Link, Memory, V4Part, V6Part};
use std::alloc::Global;
use std::process::Abort;
use std::test::Fail;

/// The default key, of the verification suite.
const DIGITS: &[u8] =
    b"6d5a56da255b0ec24167253d43a38fb0d0ca2bcbae7b30b477cb2da38030f20c6a42b73bbeac01fa";

/// A row of the suite over IPv4: source, destination, their ports, the hash of the addresses, and
/// with the ports.
type Ipv4Row = ([u8; 4], [u8; 4], u16, u16, u32, u32);

static OVER_IPV4: [Ipv4Row; 5] = [
    (
        [66, 9, 149, 187],
        [161, 142, 100, 80],
        2794,
        1766,
        0x323e_8fc2,
        0x51cc_c178,
    ),
    (
        [199, 92, 111, 2],
        [65, 69, 140, 83],
        14230,
        4739,
        0xd718_262a,
        0xc626_b0ea,
    ),
    (
        [24, 19, 198, 95],
        [12, 22, 207, 184],
        12898,
        38024,
        0xd2d0_a5de,
        0x5c2b_394a,
    ),
    (
        [38, 27, 205, 30],
        [209, 142, 163, 6],
        48228,
        2217,
        0x8298_9176,
        0xafc7_327f,
    ),
    (
        [153, 39, 163, 191],
        [202, 188, 127, 2],
        44251,
        1303,
        0x5d18_09c5,
        0x10e8_28a2,
    ),
];

/// A row over IPv6, as above.
type Ipv6Row = (u128, u128, u16, u16, u32, u32);

static OVER_IPV6: [Ipv6Row; 3] = [
    (
        0x3ffe_2501_0200_1fff_0000_0000_0000_0007,
        0x3ffe_2501_0200_0003_0000_0000_0000_0001,
        2794,
        1766,
        0x2cc1_8cd5,
        0x4020_7d3d,
    ),
    (
        0x3ffe_0501_0008_0000_0260_97ff_fe40_efab,
        0xff02_0000_0000_0000_0000_0000_0000_0001,
        14230,
        4739,
        0x0f0c_461c,
        0xdde5_1bbf,
    ),
    (
        0x3ffe_1900_4545_0003_0200_f8ff_fe21_67cf,
        0xfe80_0000_0000_0000_0200_f8ff_fe21_67cf,
        44251,
        38024,
        0x4b61_e985,
        0x02d1_feef,
    ),
];

/// Some bytes, and others after them.
fn joined(alloc: Global, first: &[u8], second: &[u8]) -> Result<Vec<u8>, Memory> {
    let mut bytes = first.to_vec(alloc)?;
    bytes.extend_from_slice(second)?;
    Ok(bytes)
}

/// Texts that aren't keys: one digit, four digits, a letter that is no digit, nothing, and a key
/// with two digits more.
static REFUSED: [(&[u8], KeyError); 5] = [
    (b"6", KeyError::NotHex),
    (b"6d5a", KeyError::WrongLength),
    (b"6g", KeyError::NotHex),
    (b"", KeyError::WrongLength),
    (
        b"6d5a56da255b0ec24167253d43a38fb0d0ca2bcbae7b30b477cb2da38030f20c6a42b73bbeac01fa6d",
        KeyError::WrongLength,
    ),
];

/// Compares why each of these texts isn't a key.
fn check_refused(rt: &impl Abort, alloc: Global, rows: &[(&[u8], KeyError)]) {
    for (text, error) in rows {
        let refused = Key::from_hex(alloc, text).err();
        assert_eq!(rt; (*text, refused), (*text, Some(*error)));
    }
}

#[test]
fn says_why_a_text_is_no_key(rt: HostRuntime) -> Result<(), Fail> {
    check_refused(&rt, rt.alloc(), &REFUSED);
    Ok(())
}

/// Two ports, one after another.
fn ports(sport: u16, dport: u16) -> [u8; 4] {
    let (source, dest) = (sport.to_be_bytes(), dport.to_be_bytes());
    [source[0], source[1], dest[0], dest[1]]
}

/// The hash of some bytes that fit.
fn hash(rt: &impl Abort, key: &Key, input: &[u8]) -> u32 {
    assert!(rt; input.len() <= 36);
    toeplitz(key, input)
}

/// Compares the hashes of two addresses, and of these with two ports after them, with a row's.
fn check_hashes(
    rt: &impl Abort,
    alloc: Global,
    key: &Key,
    addresses: &[u8],
    (sport, dport): (u16, u16),
    (plain, ported): (u32, u32),
) -> Result<(), Fail> {
    let long = joined(alloc, addresses, &ports(sport, dport))?;
    assert_eq!(rt;
        hash(rt, key, addresses),
        plain,
        "addresses, from port {sport}"
    );
    assert_eq!(rt; hash(rt, key, &long), ported, "from port {sport}");
    Ok(())
}

/// Compares the hashes of each row with the row.
fn check_ipv4(rt: &impl Abort, alloc: Global, key: &Key, rows: &[Ipv4Row]) -> Result<(), Fail> {
    for (from, to, sport, dport, plain, ported) in rows {
        let addresses = joined(alloc, from, to)?;
        let hashes = (*plain, *ported);
        check_hashes(rt, alloc, key, &addresses, (*sport, *dport), hashes)?;
    }
    Ok(())
}

#[test]
fn meets_the_published_suite_over_ipv4(rt: HostRuntime) -> Result<(), Fail> {
    let key = Key::from_hex(rt.alloc(), DIGITS)?;
    check_ipv4(&rt, rt.alloc(), &key, &OVER_IPV4)
}

/// Compares the hashes of each row with the row.
fn check_ipv6(rt: &impl Abort, alloc: Global, key: &Key, rows: &[Ipv6Row]) -> Result<(), Fail> {
    for (from, to, sport, dport, plain, ported) in rows {
        let addresses = joined(alloc, &from.to_be_bytes(), &to.to_be_bytes())?;
        let hashes = (*plain, *ported);
        check_hashes(rt, alloc, key, &addresses, (*sport, *dport), hashes)?;
    }
    Ok(())
}

#[test]
fn meets_the_published_suite_over_ipv6(rt: HostRuntime) -> Result<(), Fail> {
    let key = Key::from_hex(rt.alloc(), DIGITS)?;
    check_ipv6(&rt, rt.alloc(), &key, &OVER_IPV6)
}

const LINK: Link = Link {
    to: [2, 0, 0, 0, 0, 2],
    from: [2, 0, 0, 0, 0, 1],
    protocol: 0x0800,
};

/// The headers of an IPv4 packet from one end to another.
fn over_ipv4(from: u32, to: u32, ports: Option<(u16, u16)>) -> Headers {
    let part = V4Part {
        header: 20,
        total: 40,
        ident: 7,
        more: false,
        offset: 0,
        next: 6,
        from,
        to,
        ports,
    };
    Headers::V4(LINK, part)
}

/// The two ends, with their ports, and the hash of a segment between them, whichever way it goes.
type Flow = (u32, u16, u32, u16, u32);

static FLOWS: [Flow; 3] = [
    (0x4209_95bb, 2794, 0xa18e_6450, 1766, 0x51cc_c178),
    (0xc75c_6f02, 14230, 0x4145_8c53, 4739, 0xe53c_74e8),
    (0x0a00_0001, 4000, 0x0a00_0001, 53, 0x8c19_de0a),
];

/// Compares the hash of a segment in either direction with each row.
fn check_flows(rt: &impl Abort, key: &Key, rows: &[Flow]) {
    for (a, a_port, b, b_port, want) in rows {
        let there = over_ipv4(*a, *b, Some((*a_port, *b_port)));
        let back = over_ipv4(*b, *a, Some((*b_port, *a_port)));
        assert_eq!(rt; flow_hash(key, &there), *want, "from port {a_port}");
        assert_eq!(rt; flow_hash(key, &back), *want, "to port {a_port}");
    }
}

#[test]
fn hashes_both_directions_of_a_flow_alike(rt: HostRuntime) -> Result<(), Fail> {
    let key = Key::from_hex(rt.alloc(), DIGITS)?;
    check_flows(&rt, &key, &FLOWS);
    Ok(())
}

#[test]
fn hashes_a_flow_over_ipv6(rt: HostRuntime) -> Result<(), Fail> {
    let key = Key::from_hex(rt.alloc(), DIGITS)?;
    let part = V6Part {
        next: 6,
        from: 0x3ffe_2501_0200_1fff_0000_0000_0000_0007,
        to: 0x3ffe_2501_0200_0003_0000_0000_0000_0001,
        ports: Some((2794, 1766)),
    };
    assert_eq!(rt; flow_hash(&key, &Headers::V6(LINK, part)), 0x1ac0_fcce);
    Ok(())
}
