//! Setups with one fault in a line, or two.
use crate::answers::{Reading, Row, check_rows};
use frame_view::Memory;
use setup_text::Command;

/// Lines after the five that are needed, and the first fault.
static ADDED: [Row; 85] = [
    // the byte test comes before the word, and a comment isn't tested
    ("blok\u{e9} 3\n", "setup line 6: bad_line\n"),
    ("tov \u{7f}\n", "setup line 6: bad_line\n"),
    ("# \u{e9}\n\n \t\nblok\n", "setup line 9: unknown_word\n"),
    ("tov 8 # eight\n", "setup line 6: bad_line\n"),
    ("tov 8\r\r\n", "setup line 6: bad_line\n"),
    ("tov 8\r", "setup line 6: bad_line\n"),
    // unknown words, and those of no command
    ("blok 3\n", "setup line 6: unknown_word\n"),
    ("Tov 8\n", "setup line 6: unknown_word\n"),
    // the number of values is tested before a word that appeared before
    ("block_size\n", "setup line 6: bad_line\n"),
    ("block_size 1 2\n", "setup line 6: bad_line\n"),
    ("block_size x\n", "setup line 6: twice\n"),
    ("block_nr 2\n", "setup line 6: twice\n"),
    ("frame_size 2048\n", "setup line 6: twice\n"),
    ("frame_nr 4\n", "setup line 6: twice\n"),
    ("tov\n", "setup line 6: bad_line\n"),
    ("tov 1 2\n", "setup line 6: bad_line\n"),
    ("tov 60001\n", "setup line 6: bad_number\n"),
    ("tov -1\n", "setup line 6: bad_number\n"),
    ("tov 8\ntov 60001\n", "setup line 7: twice\n"),
    ("priv 4294967296\n", "setup line 6: bad_number\n"),
    ("priv 1 2\n", "setup line 6: bad_line\n"),
    ("priv 0\npriv 0\n", "setup line 7: twice\n"),
    ("priv 1025\n", "setup line 0: request private\n"),
    ("features 0x1\n", "setup line 6: bad_number\n"),
    ("features 1 1\n", "setup line 6: bad_line\n"),
    ("features 1\nfeatures 1\n", "setup line 7: twice\n"),
    ("features 2\n", "setup line 0: request feature\n"),
    // a CPU: its values come after its number
    ("cpu\n", "setup line 6: bad_line\n"),
    ("cpu b.pcap 1 2\n", "setup line 6: bad_line\n"),
    ("cpu b.pcap 65536\n", "setup line 6: bad_number\n"),
    ("cpu b.pcap one\n", "setup line 6: bad_number\n"),
    (
        "cpu b\ncpu c\ncpu d\ncpu e\ncpu f\ncpu g\ncpu h\ncpu i x\n",
        "setup line 13: bad_line\n",
    ),
    ("members 00000000001\n", "setup line 6: bad_number\n"),
    ("members\n", "setup line 6: bad_line\n"),
    ("members 1\nmembers 1\n", "setup line 7: twice\n"),
    ("members 0\n", "setup line 0: group no_member\n"),
    ("members 9\n", "setup line 0: group too_many\n"),
    ("mode rnd\n", "setup line 6: unknown_word\n"),
    ("mode hash lb\n", "setup line 6: bad_line\n"),
    ("mode lb\nmode rnd\n", "setup line 7: twice\n"),
    ("mode hash\n", "setup line 0: group no_key\n"),
    (
        "mode rollover\nflag rollover\n",
        "setup line 0: group backup_of_rollover\n",
    ),
    ("flag unique\n", "setup line 6: unknown_word\n"),
    ("flag rollover defrag\n", "setup line 6: bad_line\n"),
    (
        "flag defrag\nflag rollover\nflag defrag\n",
        "setup line 8: twice\n",
    ),
    ("key 6d5a56da\n", "setup line 6: bad_number\n"),
    (
        "key 6d5a56da255b0ec24167253d43a38fb0d0ca2bcbae7b30b477cb2da38030f20c6a42b73bbeac01fg\n",
        "setup line 6: bad_number\n",
    ),
    ("key\n", "setup line 6: bad_line\n"),
    ("mac 02000000000\n", "setup line 6: bad_number\n"),
    ("mac 02:00:00:00:00:01\n", "setup line 6: bad_number\n"),
    ("mac 020000000001 1\n", "setup line 6: bad_line\n"),
    (
        "mac 020000000001\nmac 020000000001\n",
        "setup line 7: twice\n",
    ),
    ("filter\n", "setup line 6: bad_line\n"),
    ("filter a b\n", "setup line 6: bad_line\n"),
    ("filter a\nfilter a\n", "setup line 7: twice\n"),
    ("ticks\n", "setup line 6: bad_line\n"),
    ("ticks a\nticks a\n", "setup line 7: twice\n"),
    ("out\n", "setup line 6: bad_line\n"),
    ("out a\nout a\n", "setup line 7: twice\n"),
    ("dump\n", "setup line 6: bad_line\n"),
    ("dump no\n", "setup line 6: unknown_word\n"),
    ("dump yes\ndump yes\n", "setup line 7: twice\n"),
    ("skip_bad\n", "setup line 6: bad_line\n"),
    ("skip_bad yes yes\n", "setup line 6: bad_line\n"),
    ("skip_bad no\n", "setup line 6: unknown_word\n"),
    ("skip_bad yes\nskip_bad no\n", "setup line 7: twice\n"),
    // made frames: two values, which come after the test of the word
    ("make\n", "setup line 6: bad_line\n"),
    ("make 1\n", "setup line 6: bad_line\n"),
    ("make 1 2 3\n", "setup line 6: bad_line\n"),
    ("make 1 0\n", "setup line 6: bad_number\n"),
    ("make 1 20001\n", "setup line 6: bad_number\n"),
    ("make 1 x\n", "setup line 6: bad_number\n"),
    ("make x 5\n", "setup line 6: bad_number\n"),
    ("make 4294967296 5\n", "setup line 6: bad_number\n"),
    ("make 1 5\nmake 1 5\n", "setup line 7: twice\n"),
    ("make 1 5\nmake x 5\n", "setup line 7: twice\n"),
    ("make 1 5\nmake 1\n", "setup line 7: bad_line\n"),
    (
        "make 1 5\nskip_bad yes\nskip_bad yes\n",
        "setup line 8: twice\n",
    ),
    // the workers of a pool
    ("workers\n", "setup line 6: bad_line\n"),
    ("workers 1 1\n", "setup line 6: bad_line\n"),
    ("workers 9\n", "setup line 6: bad_number\n"),
    ("workers two\n", "setup line 6: bad_number\n"),
    ("workers 8\nworkers 9\n", "setup line 7: twice\n"),
    // of two faulty lines the first is reported, and before the faults of all lines together
    ("blok 3\ntov x\n", "setup line 6: unknown_word\n"),
    ("members 0\ntov x\n", "setup line 7: bad_number\n"),
];

#[test]
fn refuses_added_lines(rt: HostRuntime) -> Result<(), Memory> {
    check_rows(&rt, rt.alloc(), Reading::Added(Command::Replay), &ADDED)
}
