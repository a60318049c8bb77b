//! Readers' texts that are refused, for two CPUs and a time-out of 8 milliseconds.
use reader_pace::{ReaderError, read_reader};
use std::alloc::Global;

/// Texts, with the line of the first fault and its word.
static REFUSED: [(&str, u32, &str); 49] = [
    ("", 0, "missing"),
    ("# pause 1\n", 0, "missing"),
    ("stall 1 2\nslots\n", 0, "missing"),
    ("pause 1\n\u{e9}\n", 2, "bad_line"),
    ("pause\n", 1, "bad_line"),
    ("pause 1 2\n", 1, "bad_line"),
    ("poll\n", 1, "bad_line"),
    ("blocks 1 2\n", 1, "bad_line"),
    ("stall 1\n", 1, "bad_line"),
    ("stall 1 2 3\n", 1, "bad_line"),
    ("phase\n", 1, "bad_line"),
    ("phases\n", 1, "bad_line"),
    ("from\n", 1, "bad_line"),
    ("more 0\n", 1, "bad_line"),
    ("more 0 a b\n", 1, "bad_line"),
    ("slots yes\n", 1, "bad_line"),
    ("sleep 1\n", 1, "unknown_word"),
    ("Pause 1\n", 1, "unknown_word"),
    ("# a reader\n\npaus 1\n", 3, "unknown_word"),
    ("phases 5\n", 1, "unknown_word"),
    ("pause 1\npause 1\n", 2, "twice"),
    ("pause 1\npoll 1\n", 2, "twice"),
    ("poll 0\nblocks x\n", 2, "twice"),
    ("phase 1\nphases all\n", 2, "twice"),
    ("phases all\nphase 1\n", 2, "twice"),
    ("from 1\nfrom all\n", 2, "twice"),
    ("slots\nslots\n", 2, "twice"),
    ("pause 0\n", 1, "bad_number"),
    ("pause x\n", 1, "bad_number"),
    ("pause 4294967296\n", 1, "bad_number"),
    ("poll -1\n", 1, "bad_number"),
    ("blocks 0\n", 1, "bad_number"),
    ("stall 5 0\n", 1, "bad_number"),
    ("stall 1:5 2\n", 1, "bad_number"),
    ("phase 8\n", 1, "bad_number"),
    ("phase all\n", 1, "bad_number"),
    ("from x\n", 1, "bad_number"),
    ("more x a.pcap\n", 1, "bad_number"),
    ("more 2 a.pcap\n", 1, "no_such_cpu"),
    ("pause 1\nphase 1\nslots\n", 0, "bad_phase"),
    ("slots\nphases all\nblocks 1\n", 0, "bad_phase"),
    ("slots\nphases all\npoll 1\nfrom 0\n", 0, "bad_phase"),
    ("poll 1\nfrom 0\n", 0, "bad_from"),
    ("from all\npoll 1\n", 0, "bad_from"),
    ("from 20\npause 20\n", 0, "bad_from"),
    ("blocks 1000\nfrom 1\n", 0, "bad_from"),
    ("blocks 3\nfrom 334\n", 0, "bad_from"),
    ("poll 1\nfrom 0\nstop\n", 3, "unknown_word"),
    ("from 5\nphase 9\n", 2, "bad_number"),
];

/// The first fault of a text, if it has one.
fn fault_of(alloc: Global, text: &str) -> Option<ReaderError> {
    read_reader(alloc, text.as_bytes(), 2, 8).err()
}

#[test]
fn refuses_readers(rt: HostRuntime) {
    for (text, line, word) in &REFUSED {
        let fault = fault_of(rt.alloc(), text);
        assert_eq!(rt; fault.map(|fault| fault.line), Some(*line), "{text}");
        assert_eq!(rt; fault.map(|fault| fault.kind.word()), Some(*word), "{text}");
    }
}

#[test]
fn refuses_long_names_and_texts(rt: HostRuntime) -> Result<(), frame_view::Memory> {
    let mut long = Vec::new(rt.alloc());
    long.extend_from_slice(b"pause 1\nmore 1 ")?;
    long.resize(15 + 256, b'a')?;
    let fault = read_reader(rt.alloc(), &long, 2, 8).err();
    assert_eq!(rt; fault.map(|fault| fault.line), Some(2));
    assert_eq!(rt; fault.map(|fault| fault.kind.word()), Some("bad_number"));
    long.resize(1_048_577, b'a')?;
    let fault = read_reader(rt.alloc(), &long, 2, 8).err();
    assert_eq!(rt; fault.map(|fault| fault.line), Some(0));
    assert_eq!(rt; fault.map(|fault| fault.kind.word()), Some("too_large"));
    Ok(())
}
