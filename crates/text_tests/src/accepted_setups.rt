//! Setups that are accepted, and what they are read as.
use crate::answers::NEEDED;
use frame_view::Memory;
use setup_text::{Command, CpuSetup, Setup, read_setup};
use std::alloc::Global;
use tap_outside::Word;
use tap_printing::setup_refusal;

/// Appends words, each followed by a number.
fn push_numbers(text: &mut String, parts: &[(&str, u64)]) -> Result<(), Memory> {
    for (word, number) in parts {
        write!(text, "{word}{number}")?;
    }
    Ok(())
}

/// Appends a word, and whether it holds.
fn push_answer(text: &mut String, word: &str, holds: bool) -> Result<(), Memory> {
    text.push_str(word)?;
    Ok(text.push_str(if holds { "true" } else { "false" })?)
}

/// Appends the numbers of the ring.
fn push_ring(text: &mut String, setup: &Setup) -> Result<(), Memory> {
    let shape = &setup.shape;
    push_numbers(
        text,
        &[
            ("blocks ", u64::from(shape.block_nr())),
            (" of ", u64::from(shape.block_size())),
            ("\nframes ", u64::from(shape.frame_nr())),
            (" of ", u64::from(shape.frame_size())),
            ("\nfirst ", u64::from(shape.first())),
            (" room ", u64::from(shape.room())),
        ],
    )
}

/// Appends the frames and the time-out that are asked for, the time-out that counts, and the
/// feature.
fn push_asked(text: &mut String, setup: &Setup) -> Result<(), Memory> {
    push_numbers(
        text,
        &[
            ("\nasked ", u64::from(setup.request.frame_nr)),
            (" tov ", u64::from(setup.request.tov)),
            ("\ntov ", setup.shape.tov()),
        ],
    )?;
    push_answer(text, "\nhash ", setup.shape.fill_hash())
}

/// Appends the numbers of the group.
fn push_group(text: &mut String, setup: &Setup) -> Result<(), Memory> {
    let plan = &setup.plan;
    write!(
        text,
        "\ngroup {} {:?} {}\n",
        plan.members(),
        plan.mode(),
        plan.flags()
    )?;
    Ok(())
}

/// Appends the bytes of a word as characters.
fn push_word(text: &mut String, word: &Word) -> Result<(), Memory> {
    for byte in word.bytes() {
        text.push(char::from(*byte))?;
    }
    Ok(())
}

/// Appends the name of a file, if there is one.
fn push_name(text: &mut String, name: &Option<Word>) -> Result<(), Memory> {
    match name {
        Some(name) => push_word(text, name)?,
        None => text.push_str("none")?,
    }
    Ok(text.push_str("\n")?)
}

/// Appends the capture of a CPU and its queue.
fn push_cpu(text: &mut String, cpu: &CpuSetup) -> Result<(), Memory> {
    push_word(text, &cpu.file)?;
    push_numbers(text, &[(" ", u64::from(cpu.queue))])?;
    Ok(text.push_str("\n")?)
}

/// Appends the CPUs and the names of files.
fn push_files(text: &mut String, setup: &Setup) -> Result<(), Memory> {
    for cpu in setup.cpus.as_slice() {
        push_cpu(text, cpu)?;
    }
    push_name(text, &setup.filter)?;
    push_name(text, &setup.ticks)?;
    push_word(text, &setup.prefix)
}

/// Appends the bytes of the host's address, if there is one.
fn push_address(text: &mut String, setup: &Setup) -> Result<(), Memory> {
    if let Some(mac) = setup.mac {
        for byte in &mac {
            push_numbers(text, &[(" ", u64::from(*byte))])?;
        }
    }
    Ok(())
}

/// Appends what else is chosen: a key, an address, a dump, frames that are skipped and made, and
/// workers.
fn push_choices(text: &mut String, setup: &Setup) -> Result<(), Memory> {
    push_answer(text, "\nkey ", setup.key.is_some())?;
    text.push_str(" mac")?;
    push_address(text, setup)?;
    push_answer(text, "\ndump ", setup.dump)?;
    push_answer(text, " skip ", setup.skip_bad)?;
    push_numbers(
        text,
        &[
            ("\nmake ", setup.seed),
            (" ", u64::from(setup.count)),
            ("\nworkers ", u64::from(setup.workers)),
        ],
    )?;
    Ok(text.push_str("\n")?)
}

/// Appends what a setup is read as, line by line.
fn push_setup(text: &mut String, setup: &Setup) -> Result<(), Memory> {
    push_ring(text, setup)?;
    push_asked(text, setup)?;
    push_group(text, setup)?;
    push_files(text, setup)?;
    push_choices(text, setup)
}

/// The same as a text of its own.
fn shown_setup(alloc: Global, setup: &Setup) -> Result<String, Memory> {
    let mut text = String::new(alloc);
    push_setup(&mut text, setup)?;
    Ok(text)
}

/// What a setup is read as, line by line, or the line that refuses it.
fn shown(alloc: Global, setup: &str, command: Command) -> Result<String, Memory> {
    match read_setup(alloc, setup.as_bytes(), command) {
        Ok(setup) => shown_setup(alloc, &setup),
        Err(error) => setup_refusal(alloc, &error),
    }
}

/// What is read from the lines that each setup needs.
const OF_NEEDED: &str = "blocks 2 of 4096
frames 4 of 2048
first 48 room 4048
asked 4 tov 0
tov 8
hash false
group 1 Cpu 0
a.pcap 0
none
none
out
key false mac
dump false skip false
make 0 0
workers 0
";

#[test]
fn reads_what_is_needed(rt: HostRuntime) -> Result<(), Memory> {
    let text = shown(rt.alloc(), NEEDED, Command::Check)?;
    assert_eq!(rt; text.as_str(), OF_NEEDED);
    Ok(())
}

/// A setup with each word, with comments, blank lines, tabs, and lines that end as another system
/// writes them.
const EVERY_WORD: &str = "# a ring of two blocks
block_size 65536
block_nr 64\r
frame_size\t2048
frame_nr 2048

tov 0000000100
priv 13
features 1
cpu a.pcap
 cpu b.pcap 7
cpu c.pcap
members 4
mode hash
flag rollover
flag defrag
key 6d5a56da255b0ec24167253d43a38fb0d0ca2bcbae7b30b477cb2da38030f20c6a42b73bbeac01fa
mac 0200000000Ab
filter tcp.ddd
ticks t.txt
out run/1
make\t4294967295 0000000001
workers 8
skip_bad yes
dump yes";

/// What is read from it.
const OF_EVERY_WORD: &str = "blocks 64 of 65536
frames 2048 of 2048
first 64 room 65472
asked 2048 tov 100
tov 100
hash true
group 4 Hash 36864
a.pcap 0
b.pcap 7
c.pcap 2
tcp.ddd
t.txt
run/1
key true mac 2 0 0 0 0 171
dump true skip true
make 4294967295 1
workers 8
";

#[test]
fn reads_every_word(rt: HostRuntime) -> Result<(), Memory> {
    let text = shown(rt.alloc(), EVERY_WORD, Command::Replay)?;
    assert_eq!(rt; text.as_str(), OF_EVERY_WORD);
    Ok(())
}

/// The needed lines, and those of made frames and of frames that are skipped.
const MADE: &str = "block_size 4096
block_nr 2
frame_size 2048
frame_nr 4
cpu a.pcap
make 1 20000
skip_bad yes
";

#[test]
fn reads_made_frames_and_skip_bad(rt: HostRuntime) -> Result<(), Memory> {
    for command in [
        Command::Check,
        Command::Replay,
        Command::Capture,
        Command::Send,
        Command::Make,
        Command::Forward,
        Command::Replay2,
    ] {
        let text = shown(rt.alloc(), MADE, command)?;
        let end = "dump false skip true\nmake 1 20000\nworkers 0\n";
        assert!(rt; text.as_str().ends_with(end), "{command:?} {text}");
    }
    Ok(())
}
