//! Standard output over a printer that does as it is told: it takes few bytes, is interrupted, or
//! fails.
use std::cell::Cell;
use std::fmt::Display;
use std::io;
use std::io::ErrorKind;
use std::process::Abort;
use tap_outside::{OutError, StdSink, write_whole};

/// What a printer does at a write.
#[derive(Clone, Copy, Debug)]
enum Does {
    /// It takes at most this number of bytes.
    Takes(usize),
    /// It fails, and takes none.
    Fails(ErrorKind),
}

/// A printer that does this at its first write and that at each later one.
#[derive(Drop)]
struct Printer {
    first: Does,
    later: Does,
    /// How many writes there were.
    writes: Cell<u32>,
    /// The bytes that it took, and how many of them there are.
    taken: Cell<[u8; 8]>,
    count: Cell<usize>,
}

impl Printer {
    /// A printer that took no byte yet.
    fn new(first: Does, later: Does) -> Printer {
        Printer {
            first,
            later,
            writes: Cell::new(0),
            taken: Cell::new([0; 8]),
            count: Cell::new(0),
        }
    }

    /// Keeps a byte, of the first eight.
    fn keep(&self, byte: u8) {
        let mut taken = self.taken.get();
        let count = self.count.get();
        if let Some(place) = taken.get_mut(count) {
            *place = byte;
            self.taken.set(taken);
            self.count.set(count.saturating_add(1));
        }
    }
}

impl Print for Printer {
    fn print<D: Display + Drop>(&self, _value: D) -> io::Result<()> {
        Err(io::Error::from(ErrorKind::Unsupported))
    }

    fn println<D: Display + Drop>(&self, _value: D) -> io::Result<()> {
        Err(io::Error::from(ErrorKind::Unsupported))
    }

    fn write_all(&self, _bytes: &[u8]) -> io::Result<()> {
        Err(io::Error::from(ErrorKind::Unsupported))
    }

    fn write_some(&self, bytes: &[u8]) -> io::Result<usize> {
        let earlier = self.writes.get();
        self.writes.set(earlier.saturating_add(1));
        let does = if earlier == 0 { self.first } else { self.later };
        match does {
            Does::Takes(most) => {
                let count = most.min(bytes.len());
                for byte in &bytes[..count] {
                    self.keep(*byte);
                }
                Ok(count)
            }
            Does::Fails(kind) => Err(io::Error::from(kind)),
        }
    }
}

/// Its name, what the printer does, the answer to a whole write of `abcdefg`, what was taken, and
/// the faults.
type Row = (
    &'static str,
    Does,
    Does,
    Result<(), OutError>,
    &'static [u8],
    u64,
);

static ROWS: [Row; 7] = [
    (
        "at once",
        Does::Takes(9),
        Does::Takes(9),
        Ok(()),
        b"abcdefg",
        0,
    ),
    (
        "short writes",
        Does::Takes(3),
        Does::Takes(2),
        Ok(()),
        b"abcdefg",
        0,
    ),
    (
        "interrupted once",
        Does::Fails(ErrorKind::Interrupted),
        Does::Takes(4),
        Ok(()),
        b"abcdefg",
        0,
    ),
    (
        "interrupted for ever",
        Does::Takes(1),
        Does::Fails(ErrorKind::Interrupted),
        Err(OutError::Failed),
        b"a",
        1,
    ),
    (
        "nothing is taken",
        Does::Takes(5),
        Does::Takes(0),
        Err(OutError::Failed),
        b"abcde",
        1,
    ),
    (
        "a closed pipe",
        Does::Takes(2),
        Does::Fails(ErrorKind::BrokenPipe),
        Err(OutError::Failed),
        b"ab",
        1,
    ),
    (
        "out of memory",
        Does::Takes(2),
        Does::Fails(ErrorKind::OutOfMemory),
        Err(OutError::Memory),
        b"ab",
        0,
    ),
];

/// Holds what becomes of a whole write to each row.
fn check_rows(rt: &impl Abort, rows: &[Row]) {
    for (name, first, later, answer, taken, faults) in rows {
        let printer = Printer::new(*first, *later);
        let mut sink = StdSink::new(&printer);
        let written = write_whole(&mut sink, b"abcdefg");
        assert_eq!(rt; (*name, written, sink.faults()), (*name, *answer, *faults));
        let kept = printer.taken.get();
        assert_eq!(rt; kept.get(..printer.count.get()), Some(*taken), "{name}");
    }
}

#[test]
fn standard_output_takes_what_the_system_takes(rt: HostRuntime) {
    check_rows(&rt, &ROWS);
}
