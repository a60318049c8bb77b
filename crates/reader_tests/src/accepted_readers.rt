//! Readers' texts that are accepted, for two CPUs and a time-out of 8 milliseconds.
use reader_pace::{Beginnings, Pace, Phases, ReaderError, Stall, read_reader};

/// Texts, with the pace, the phases, the beginnings and whether the ring has slots.
static ACCEPTED: [(&str, Pace, Phases, Beginnings, bool); 12] = [
    (
        "pause 20",
        Pace::Pause(20),
        Phases::All,
        Beginnings::All,
        false,
    ),
    (
        "blocks 3\n",
        Pace::Blocks(3),
        Phases::All,
        Beginnings::All,
        false,
    ),
    (
        "poll 0\n",
        Pace::Poll(0),
        Phases::All,
        Beginnings::One(0),
        false,
    ),
    (
        "poll 7\nslots\n",
        Pace::Poll(7),
        Phases::One(0),
        Beginnings::One(0),
        true,
    ),
    (
        "slots\npause 1\n",
        Pace::Pause(1),
        Phases::One(0),
        Beginnings::All,
        true,
    ),
    (
        "phase 7\npause 1\n",
        Pace::Pause(1),
        Phases::One(7),
        Beginnings::All,
        false,
    ),
    (
        "phases all\r\npause 1\n",
        Pace::Pause(1),
        Phases::All,
        Beginnings::All,
        false,
    ),
    (
        "from 19\npause 20\n",
        Pace::Pause(20),
        Phases::All,
        Beginnings::One(19),
        false,
    ),
    (
        "from 0\npause 1\n",
        Pace::Pause(1),
        Phases::All,
        Beginnings::One(0),
        false,
    ),
    (
        "from all\nblocks 1\n",
        Pace::Blocks(1),
        Phases::All,
        Beginnings::All,
        false,
    ),
    (
        "blocks 3\nfrom 333\n",
        Pace::Blocks(3),
        Phases::All,
        Beginnings::One(333),
        false,
    ),
    (
        "blocks 4294967295\nfrom 0\n",
        Pace::Blocks(4_294_967_295),
        Phases::All,
        Beginnings::One(0),
        false,
    ),
];

#[test]
fn reads_readers(rt: HostRuntime) -> Result<(), ReaderError> {
    for (text, pace, phases, beginnings, slots) in &ACCEPTED {
        let reader = read_reader(rt.alloc(), text.as_bytes(), 2, 8)?;
        assert_eq!(rt; reader.pace, *pace, "{text}");
        assert_eq!(rt; reader.phases, *phases, "{text}");
        assert_eq!(rt; reader.beginnings, *beginnings, "{text}");
        assert_eq!(rt; reader.slots, *slots, "{text}");
        assert!(rt;
            reader.stalls.is_empty() && reader.more.is_empty(),
            "{text}"
        );
    }
    Ok(())
}

#[test]
fn reads_stalls_and_files(rt: HostRuntime) -> Result<(), ReaderError> {
    let text = b"# a disk\nstall 713 2134\nmore 1 b.pcap2\n\npause 1\nmore 0 a.pcap2\nstall 0 1";
    let reader = read_reader(rt.alloc(), text, 2, 8)?;
    let stalls = [
        Stall {
            from: 713,
            length: 2134,
        },
        Stall { from: 0, length: 1 },
    ];
    assert_eq!(rt; reader.stalls.as_slice(), stalls.as_slice());
    let files: [(u32, &str); 2] = [(1, "b.pcap2"), (0, "a.pcap2")];
    assert_eq!(rt; reader.more.len(), 2);
    for (more, (cpu, file)) in reader.more.as_slice().iter().zip(files) {
        assert_eq!(rt; more.cpu, cpu);
        assert_eq!(rt; more.file.bytes(), file.as_bytes());
    }
    Ok(())
}
