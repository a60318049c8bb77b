//! The documented meaning of each code, and of the ancillary loads.
use crate::verdicts::{judged, packet};
use bpf_filter::verdict_with;

/// A name, the text of a program, and the verdict that its documented meaning gives on the bytes
/// below. There is one program for each code, and for each choice at its edges.
static VERDICTS: [(&str, &str, u32); 76] = [
    ("ld imm", "2\n0 0 0 7\n22 0 0 0\n", 7),
    ("ld w abs", "2\n32 0 0 2\n22 0 0 0\n", 1450744508),
    ("ld h abs", "2\n40 0 0 6\n22 0 0 0\n", 57072),
    ("ld b abs", "2\n48 0 0 7\n22 0 0 0\n", 240),
    ("ld w ind", "3\n1 0 0 1\n64 0 0 3\n22 0 0 0\n", 2596069104),
    ("ld h ind", "3\n1 0 0 2\n72 0 0 3\n22 0 0 0\n", 48350),
    ("ld b ind", "3\n1 0 0 3\n80 0 0 3\n22 0 0 0\n", 222),
    (
        "ld mem and st",
        "5\n0 0 0 9\n2 0 0 15\n0 0 0 0\n96 0 0 15\n22 0 0 0\n",
        9,
    ),
    ("ld len", "2\n128 0 0 0\n22 0 0 0\n", 1500),
    ("ldx imm and txa", "3\n1 0 0 5\n135 0 0 0\n22 0 0 0\n", 5),
    (
        "ldx mem and stx",
        "6\n1 0 0 6\n3 0 0 3\n1 0 0 0\n97 0 0 3\n135 0 0 0\n22 0 0 0\n",
        6,
    ),
    ("ldx len", "3\n129 0 0 0\n135 0 0 0\n22 0 0 0\n", 1500),
    ("ldx b msh", "3\n177 0 0 3\n135 0 0 0\n22 0 0 0\n", 32),
    (
        "tax",
        "5\n0 0 0 8\n7 0 0 0\n0 0 0 0\n135 0 0 0\n22 0 0 0\n",
        8,
    ),
    ("add k", "3\n0 0 0 4294967295\n4 0 0 3\n22 0 0 0\n", 2),
    (
        "add x",
        "4\n0 0 0 4294967295\n1 0 0 3\n12 0 0 0\n22 0 0 0\n",
        2,
    ),
    ("sub k", "3\n0 0 0 1\n20 0 0 3\n22 0 0 0\n", 4294967294),
    (
        "sub x",
        "4\n0 0 0 1\n1 0 0 3\n28 0 0 0\n22 0 0 0\n",
        4294967294,
    ),
    ("mul k", "3\n0 0 0 2147483649\n36 0 0 6\n22 0 0 0\n", 6),
    (
        "mul x",
        "4\n0 0 0 2147483649\n1 0 0 6\n44 0 0 0\n22 0 0 0\n",
        6,
    ),
    ("div k", "3\n0 0 0 100\n52 0 0 7\n22 0 0 0\n", 14),
    ("div x", "4\n0 0 0 100\n1 0 0 7\n60 0 0 0\n22 0 0 0\n", 14),
    ("or k", "3\n0 0 0 12\n68 0 0 10\n22 0 0 0\n", 14),
    ("or x", "4\n0 0 0 12\n1 0 0 10\n76 0 0 0\n22 0 0 0\n", 14),
    ("and k", "3\n0 0 0 12\n84 0 0 10\n22 0 0 0\n", 8),
    ("and x", "4\n0 0 0 12\n1 0 0 10\n92 0 0 0\n22 0 0 0\n", 8),
    ("lsh k", "3\n0 0 0 2147483651\n100 0 0 4\n22 0 0 0\n", 48),
    (
        "lsh x",
        "4\n0 0 0 2147483651\n1 0 0 4\n108 0 0 0\n22 0 0 0\n",
        48,
    ),
    (
        "rsh k",
        "3\n0 0 0 2147483651\n116 0 0 4\n22 0 0 0\n",
        134217728,
    ),
    (
        "rsh x",
        "4\n0 0 0 2147483651\n1 0 0 4\n124 0 0 0\n22 0 0 0\n",
        134217728,
    ),
    ("mod k", "3\n0 0 0 100\n148 0 0 7\n22 0 0 0\n", 2),
    ("mod x", "4\n0 0 0 100\n1 0 0 7\n156 0 0 0\n22 0 0 0\n", 2),
    ("xor k", "3\n0 0 0 12\n164 0 0 10\n22 0 0 0\n", 6),
    ("xor x", "4\n0 0 0 12\n1 0 0 10\n172 0 0 0\n22 0 0 0\n", 6),
    ("neg", "3\n0 0 0 5\n132 0 0 0\n22 0 0 0\n", 4294967291),
    ("jeq k holds", "4\n0 0 0 7\n21 0 1 7\n6 0 0 1\n6 0 0 2\n", 1),
    (
        "jeq x holds",
        "5\n0 0 0 7\n1 0 0 7\n29 0 1 0\n6 0 0 1\n6 0 0 2\n",
        1,
    ),
    ("jeq k fails", "4\n0 0 0 7\n21 0 1 8\n6 0 0 1\n6 0 0 2\n", 2),
    (
        "jeq x fails",
        "5\n0 0 0 7\n1 0 0 8\n29 0 1 0\n6 0 0 1\n6 0 0 2\n",
        2,
    ),
    ("jgt k holds", "4\n0 0 0 8\n37 0 1 7\n6 0 0 1\n6 0 0 2\n", 1),
    (
        "jgt x holds",
        "5\n0 0 0 8\n1 0 0 7\n45 0 1 0\n6 0 0 1\n6 0 0 2\n",
        1,
    ),
    ("jgt k fails", "4\n0 0 0 7\n37 0 1 7\n6 0 0 1\n6 0 0 2\n", 2),
    (
        "jgt x fails",
        "5\n0 0 0 7\n1 0 0 7\n45 0 1 0\n6 0 0 1\n6 0 0 2\n",
        2,
    ),
    ("jge k holds", "4\n0 0 0 7\n53 0 1 7\n6 0 0 1\n6 0 0 2\n", 1),
    (
        "jge x holds",
        "5\n0 0 0 7\n1 0 0 7\n61 0 1 0\n6 0 0 1\n6 0 0 2\n",
        1,
    ),
    ("jge k fails", "4\n0 0 0 6\n53 0 1 7\n6 0 0 1\n6 0 0 2\n", 2),
    (
        "jge x fails",
        "5\n0 0 0 6\n1 0 0 7\n61 0 1 0\n6 0 0 1\n6 0 0 2\n",
        2,
    ),
    (
        "jset k holds",
        "4\n0 0 0 6\n69 0 1 2\n6 0 0 1\n6 0 0 2\n",
        1,
    ),
    (
        "jset x holds",
        "5\n0 0 0 6\n1 0 0 2\n77 0 1 0\n6 0 0 1\n6 0 0 2\n",
        1,
    ),
    (
        "jset k fails",
        "4\n0 0 0 6\n69 0 1 9\n6 0 0 1\n6 0 0 2\n",
        2,
    ),
    (
        "jset x fails",
        "5\n0 0 0 6\n1 0 0 9\n77 0 1 0\n6 0 0 1\n6 0 0 2\n",
        2,
    ),
    ("ja", "3\n5 0 0 1\n6 0 0 1\n6 0 0 2\n", 2),
    ("ret k", "1\n6 0 0 96\n", 96),
    ("ret a", "2\n0 0 0 97\n22 0 0 0\n", 97),
    (
        "ancillary protocol",
        "2\n32 0 0 4294963200\n22 0 0 0\n",
        2054,
    ),
    (
        "ancillary packet type",
        "2\n32 0 0 4294963204\n22 0 0 0\n",
        2,
    ),
    ("ancillary interface", "2\n32 0 0 4294963208\n22 0 0 0\n", 1),
    ("ancillary queue", "2\n32 0 0 4294963224\n22 0 0 0\n", 70001),
    (
        "ancillary hardware type",
        "2\n32 0 0 4294963228\n22 0 0 0\n",
        1,
    ),
    (
        "ancillary hash",
        "2\n32 0 0 4294963232\n22 0 0 0\n",
        1372373368,
    ),
    ("ancillary cpu", "2\n32 0 0 4294963236\n22 0 0 0\n", 5),
    (
        "ancillary whole with two bytes",
        "2\n40 0 0 4294963224\n22 0 0 0\n",
        70001,
    ),
    (
        "ancillary whole with one byte",
        "2\n48 0 0 4294963232\n22 0 0 0\n",
        1372373368,
    ),
    ("load up to the end", "2\n32 0 0 4\n6 0 0 1\n", 1),
    ("load past the end", "2\n32 0 0 5\n6 0 0 1\n", 0),
    ("half past the end", "2\n40 0 0 7\n6 0 0 1\n", 0),
    ("byte past the end", "2\n48 0 0 8\n6 0 0 1\n", 0),
    ("msh past the end", "2\n177 0 0 8\n6 0 0 1\n", 0),
    (
        "place past 2 ^ 32 does not wrap",
        "3\n1 0 0 4294967295\n80 0 0 2\n6 0 0 1\n",
        0,
    ),
    (
        "division by x 0",
        "4\n1 0 0 0\n0 0 0 9\n60 0 0 0\n6 0 0 1\n",
        0,
    ),
    (
        "remainder by x 0",
        "4\n1 0 0 0\n0 0 0 9\n156 0 0 0\n6 0 0 1\n",
        0,
    ),
    (
        "left shift by x 32",
        "4\n1 0 0 32\n0 0 0 9\n108 0 0 0\n22 0 0 0\n",
        0,
    ),
    (
        "right shift by x 33",
        "4\n1 0 0 33\n0 0 0 4294967295\n124 0 0 0\n22 0 0 0\n",
        0,
    ),
    (
        "left shift by x 31",
        "4\n1 0 0 31\n0 0 0 3\n108 0 0 0\n22 0 0 0\n",
        2147483648,
    ),
    (
        "a word before it is written",
        "3\n0 0 0 9\n96 0 0 4\n22 0 0 0\n",
        0,
    ),
    (
        "len is the length on the wire",
        "2\n128 0 0 0\n22 0 0 0\n",
        1500,
    ),
];

#[test]
fn gives_the_documented_verdicts(rt: HostRuntime) {
    let bytes = [0x12, 0x34, 0x56, 0x78, 0x9a, 0xbc, 0xde, 0xf0];
    let packet = packet(&bytes);
    for (name, text, verdict) in &VERDICTS {
        let found = judged(rt.alloc(), text, &packet);
        assert_eq!(rt; (*name, found), (*name, Ok(*verdict)));
    }
}

#[test]
fn keeps_all_without_a_filter(rt: HostRuntime) {
    assert_eq!(rt; verdict_with(None, &packet(&[])), 4_294_967_295);
}
