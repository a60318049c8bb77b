//! Setups without a required line, and texts and names at their greatest length.
use crate::answers::{NEEDED, Reading, Row, check_rows, joined, setup_answer};
use frame_view::Memory;
use setup_text::Command;
use std::alloc::Global;

/// Whole setups, and the first fault.
static WHOLE: [Row; 12] = [
    ("", "setup line 0: missing block_size\n"),
    ("block_size 1\n", "setup line 0: missing block_nr\n"),
    (
        "block_nr 2\nblock_size 4096\n",
        "setup line 0: missing frame_size\n",
    ),
    (
        "cpu a.pcap\nframe_size 2048\nblock_nr 2\nblock_size 4096\n",
        "setup line 0: missing frame_nr\n",
    ),
    (
        "block_size 4096\nblock_nr 2\nframe_size 2048\nframe_nr 4\n",
        "setup line 0: missing cpu\n",
    ),
    ("blok 3\n", "setup line 1: unknown_word\n"),
    ("block_size 4k\n", "setup line 1: bad_number\n"),
    ("block_nr two\n", "setup line 1: bad_number\n"),
    ("frame_size 4294967296\n", "setup line 1: bad_number\n"),
    ("frame_nr 12345678901\n", "setup line 1: bad_number\n"),
    (
        "block_size 4096\nblock_nr 2\nframe_size 2048\nframe_nr 5\ncpu a.pcap\nmembers 0\n",
        "setup line 0: request frame_count\n",
    ),
    (
        "block_size 0\nblock_nr 0\nframe_size 0\nframe_nr 0\ncpu a.pcap\n",
        "setup line 0: request block_size\n",
    ),
];

#[test]
fn refuses_whole_setups(rt: HostRuntime) -> Result<(), Memory> {
    check_rows(&rt, rt.alloc(), Reading::Setup(Command::Replay), &WHOLE)
}

/// Whether the answer to a setup is this.
fn answers(alloc: Global, text: Vec<u8>, wanted: &str) -> Result<bool, Memory> {
    let answer = setup_answer(alloc, &text, Command::Replay)?;
    Ok(answer.as_str() == wanted)
}

/// A setup whose last line is a word and a name of `size` bytes, 256 at most.
fn named(alloc: Global, word: &str, size: usize) -> Result<Vec<u8>, Memory> {
    let mut text = joined(alloc, NEEDED, word)?;
    text.extend_from_slice(&[b'n'; 256][..size.min(256)])?;
    Ok(text)
}

#[test]
fn measures_names(rt: HostRuntime) -> Result<(), Memory> {
    for word in ["cpu ", "filter ", "ticks ", "out "] {
        let longest = named(rt.alloc(), word, 255)?;
        let is_accepted = answers(rt.alloc(), longest, "")?;
        let longer = named(rt.alloc(), word, 256)?;
        let is_refused = answers(rt.alloc(), longer, "setup line 6: bad_number\n")?;
        assert_eq!(rt; (word, is_accepted, is_refused), (word, true, true));
    }
    Ok(())
}

/// A comment of 1,048,576 bytes, and these bytes after it.
fn large(alloc: Global, rest: &[u8]) -> Result<Vec<u8>, Memory> {
    let mut text = vec![in alloc; b'#'; 1_048_576]?;
    text.extend_from_slice(rest)?;
    Ok(text)
}

#[test]
fn measures_texts(rt: HostRuntime) -> Result<(), Memory> {
    let longest = large(rt.alloc(), b"")?;
    let is_read = answers(rt.alloc(), longest, "setup line 0: missing block_size\n")?;
    let longer = large(rt.alloc(), b"\n")?;
    let is_refused = answers(rt.alloc(), longer, "setup line 0: too_large\n")?;
    assert_eq!(rt; (is_read, is_refused), (true, true));
    Ok(())
}
