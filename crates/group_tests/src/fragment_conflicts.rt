//! Two fragments of one name, copies, conflicts and ages: how many are given up, and how many stay
//! held.
use crate::fragments::{FIRST, MORE, Piece, fragment, frame, pushed};
use frame_view::Memory;
use ip_defrag::Defrag;
use std::alloc::Global;
use std::process::Abort;
use std::test::Fail;

/// A name, two fragments, how many of them are given up and how many stay held. A fragment is the
/// first eight bytes of the datagram, except for the fields that it names.
type Pair = (&'static str, Piece, Piece, u32, u32);

static PAIRS: [Pair; 11] = [
    (
        "the next eight bytes",
        FIRST,
        Piece {
            place: MORE + 1,
            ..FIRST
        },
        0,
        2,
    ),
    ("a copy", FIRST, FIRST, 1, 1),
    (
        "other data at one place",
        FIRST,
        Piece { salt: 1, ..FIRST },
        2,
        0,
    ),
    (
        "the first reaches into it",
        Piece { len: 16, ..FIRST },
        Piece {
            place: MORE + 1,
            ..FIRST
        },
        2,
        0,
    ),
    (
        "within the first",
        Piece { len: 24, ..FIRST },
        Piece {
            place: MORE + 1,
            ..FIRST
        },
        2,
        0,
    ),
    (
        "around the first",
        Piece {
            place: MORE + 1,
            ..FIRST
        },
        Piece { len: 24, ..FIRST },
        2,
        0,
    ),
    (
        "past a known end",
        Piece { place: 1, ..FIRST },
        Piece {
            place: MORE + 2,
            ..FIRST
        },
        2,
        0,
    ),
    (
        "another end",
        Piece { place: 1, ..FIRST },
        Piece { place: 2, ..FIRST },
        2,
        0,
    ),
    (
        "an end before a held one's",
        Piece {
            place: MORE + 2,
            ..FIRST
        },
        Piece { place: 1, ..FIRST },
        2,
        0,
    ),
    (
        "one place, and the end",
        Piece {
            place: MORE + 1,
            ..FIRST
        },
        Piece { place: 1, ..FIRST },
        2,
        0,
    ),
    (
        "another protocol",
        FIRST,
        Piece {
            protocol: 6,
            place: 1,
            ..FIRST
        },
        0,
        2,
    ),
];

/// No pair makes a datagram, and these numbers of its fragments are given up and held.
fn check_pairs(rt: &impl Abort, alloc: Global, pairs: &[Pair]) -> Result<(), Fail> {
    for (name, first, second, given_up, held) in pairs {
        let (whole, discarded, pending) = pushed(alloc, &[*first, *second])?;
        assert!(rt; whole.is_none(), "{name}");
        assert_eq!(rt; (discarded, pending), (*given_up, *held), "{name}");
    }
    Ok(())
}

#[test]
fn gives_up_what_conflicts(rt: HostRuntime) -> Result<(), Fail> {
    check_pairs(&rt, rt.alloc(), &PAIRS)
}

/// The seconds of two fragments that make a datagram, how many are given up, and how many stay
/// held.
type Age = (u32, u32, u32, u32);

static AGES: [Age; 5] = [
    (100, 129, 0, 0),
    (100, 130, 1, 1),
    (100, 4_294_967_295, 1, 1),
    (4_294_967_290, 4_294_967_295, 0, 0),
    (130, 100, 0, 0),
];

/// The result of two fragments with a row's seconds: whether a datagram comes out, and how many
/// fragments are given up and held.
fn aged(alloc: Global, age: &Age) -> Result<(bool, u32, u32), Fail> {
    let early = Piece {
        sec: age.0,
        ..FIRST
    };
    let late = Piece {
        sec: age.1,
        ..fragment(1, 8)
    };
    let (whole, discarded, pending) = pushed(alloc, &[early, late])?;
    Ok((whole.is_some(), discarded, pending))
}

/// Compares the result of each row's fragments with the row.
fn check_ages(rt: &impl Abort, alloc: Global, ages: &[Age]) -> Result<(), Fail> {
    for age in ages {
        let (first, second, given_up, held) = *age;
        let want = (given_up == 0, given_up, held);
        assert_eq!(rt; aged(alloc, age)?, want, "from {first} to {second}");
    }
    Ok(())
}

#[test]
fn gives_up_a_datagram_of_30_seconds(rt: HostRuntime) -> Result<(), Fail> {
    check_ages(&rt, rt.alloc(), &AGES)
}

/// Pushes the first fragment of each of n names, and returns how many are given up.
fn push_names(alloc: Global, defrag: &mut Defrag, count: u16) -> Result<u32, Memory> {
    let mut discarded = 0_u32;
    for ident in 0..count {
        let step = defrag.push(frame(alloc, &Piece { ident, ..FIRST })?)?;
        discarded = discarded.saturating_add(step.discarded);
    }
    Ok(discarded)
}

/// Pushes the last fragment of a name, and returns whether a datagram comes out.
fn is_ended(alloc: Global, defrag: &mut Defrag, ident: u16) -> Result<bool, Memory> {
    let last = Piece {
        ident,
        ..fragment(1, 8)
    };
    Ok(defrag.push(frame(alloc, &last)?)?.whole.is_some())
}

#[test]
fn gives_up_the_oldest_of_65_names(rt: HostRuntime) -> Result<(), Fail> {
    let mut defrag = Defrag::new(rt.alloc());
    let discarded = push_names(rt.alloc(), &mut defrag, 65)?;
    assert_eq!(rt; (discarded, defrag.pending()), (1, 64));
    assert!(rt;
        is_ended(rt.alloc(), &mut defrag, 1)?,
        "the second name is there still"
    );
    Ok(())
}
