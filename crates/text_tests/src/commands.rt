//! What the lines of a setup say together, for each command.
use crate::answers::{Reading, Row, check_rows};
use frame_view::Memory;
use setup_text::Command;

/// Lines after the five that are needed, and each command's fault for all lines together.
static TOGETHER: [(Command, &[Row]); 7] = [
    (
        Command::Check,
        &[("", ""), ("tov 8\npriv 16\nfeatures 1\n", "")],
    ),
    (
        Command::Replay,
        &[("", ""), ("tov 8\npriv 16\nfeatures 1\n", "")],
    ),
    (
        Command::Capture,
        &[
            ("", ""),
            ("tov 8\npriv 16\nfeatures 1\n", ""),
            ("features 2\n", "setup line 0: request feature\n"),
            ("members 0\n", "setup line 0: group no_member\n"),
        ],
    ),
    // only `Make` needs its line, before a fault of the ring or of the group
    (
        Command::Make,
        &[
            ("", "setup line 0: missing make\n"),
            ("tov 8\npriv 16\n", "setup line 0: missing make\n"),
            ("features 2\n", "setup line 0: missing make\n"),
            ("members 0\n", "setup line 0: missing make\n"),
            ("make 1 5\nfeatures 2\n", "setup line 0: request feature\n"),
            ("make 1 5\nmembers 0\n", "setup line 0: group no_member\n"),
            ("make 1 5\n", ""),
            ("tov 8\npriv 16\nfeatures 1\nmake 1 5\n", ""),
        ],
    ),
    // only `Send` and `Replay2` ask for a ring without a time-out, a private area and a feature
    (
        Command::Send,
        &[
            ("", ""),
            ("tov 8\n", "setup line 0: request transmit\n"),
            ("priv 16\n", "setup line 0: request transmit\n"),
            ("features 1\n", "setup line 0: request transmit\n"),
            ("features 2\n", "setup line 0: request feature\n"),
            ("priv 1025\n", "setup line 0: request private\n"),
            ("tov 8\nmembers 0\n", "setup line 0: request transmit\n"),
            ("members 0\n", "setup line 0: group no_member\n"),
        ],
    ),
    (
        Command::Replay2,
        &[
            ("", ""),
            ("tov 8\n", "setup line 0: request transmit\n"),
            ("priv 16\n", "setup line 0: request transmit\n"),
            ("features 1\n", "setup line 0: request transmit\n"),
            ("priv 1025\n", "setup line 0: request private\n"),
            ("members 0\n", "setup line 0: group no_member\n"),
        ],
    ),
    // `Forward` asks for the ring of captured frames: its transmit ring has no such lines
    (
        Command::Forward,
        &[
            ("", ""),
            ("tov 8\npriv 16\nfeatures 1\n", ""),
            ("features 2\n", "setup line 0: request feature\n"),
            ("members 0\n", "setup line 0: group no_member\n"),
        ],
    ),
];

/// `TOGETHER`, whose values appear only in this function's proof.
fn all_together() -> &'static [(Command, &'static [Row])] {
    &TOGETHER
}

#[test]
fn tests_lines_together_for_a_command(rt: HostRuntime) -> Result<(), Memory> {
    for (command, rows) in all_together() {
        check_rows(&rt, rt.alloc(), Reading::Added(*command), rows)?;
    }
    Ok(())
}

/// The first four of the lines that are needed.
static WITHOUT_CPU: [Row; 1] = [(
    "block_size 4096\nblock_nr 2\nframe_size 2048\nframe_nr 4\n",
    "setup line 0: missing cpu\n",
)];

#[test]
fn misses_a_cpu_for_each_command(rt: HostRuntime) -> Result<(), Memory> {
    for (command, _) in all_together() {
        check_rows(&rt, rt.alloc(), Reading::Setup(*command), &WITHOUT_CPU)?;
    }
    Ok(())
}

/// A ring of 65,536 slots, and one with more.
const MOST: &str = "block_size 1048576\nblock_nr 64\nframe_size 1024\nframe_nr 65536\ncpu a.pcap\n";

const MORE: &str = "block_size 1048576\nblock_nr 64\nframe_size 80\nframe_nr 838848\ncpu a.pcap\n";

/// What `Replay2` answers, which counts slots, and what `Replay` answers, which doesn't.
static SLOTS: [Row; 2] = [(MOST, ""), (MORE, "setup line 0: request slots\n")];

static BLOCKS: [Row; 2] = [(MOST, ""), (MORE, "")];

#[test]
fn counts_the_slots_of_a_ring_of_tpacket_v2(rt: HostRuntime) -> Result<(), Memory> {
    check_rows(&rt, rt.alloc(), Reading::Setup(Command::Replay2), &SLOTS)?;
    check_rows(&rt, rt.alloc(), Reading::Setup(Command::Replay), &BLOCKS)
}
