//! The words with which a line of a reader's text begins.
ghost use Rattle.std.specs.Prelude.{◌≡◌};
ghost use Rattle.reader_pace.specs.ReaderWords.{word_named};

/// A word with which a line of a reader's text begins.
#[derive(Clone, Copy)]
pub(crate) enum ReaderWord {
    /// How long the reader sleeps before it takes all that is there.
    Pause,
    /// How long after a block is handed over the reader wakes.
    Poll,
    /// How many blocks a second the reader takes.
    Blocks,
    /// A time in which no reader reads.
    Stall,
    /// The one phase of the timer.
    Phase,
    /// All phases of the timer.
    Phases,
    /// The reader's beginning.
    From,
    /// A further capture file of a CPU.
    More,
    /// That the ring is one of slots.
    Slots,
}

impl ReaderWord {
    /// The word with this spelling.
    #[tactic(auto, unfolding(crate::specs::ReaderWords::word_named))]
    pub(crate) fn named(word: &[u8]) -> Option<ReaderWord>
        ensures { result ≡ word_named word.now }
    {
        if word == b"pause".as_slice() {
            Some(ReaderWord::Pause)
        } else if word == b"poll".as_slice() {
            Some(ReaderWord::Poll)
        } else if word == b"blocks".as_slice() {
            Some(ReaderWord::Blocks)
        } else if word == b"stall".as_slice() {
            Some(ReaderWord::Stall)
        } else if word == b"phase".as_slice() {
            Some(ReaderWord::Phase)
        } else if word == b"phases".as_slice() {
            Some(ReaderWord::Phases)
        } else if word == b"from".as_slice() {
            Some(ReaderWord::From)
        } else if word == b"more".as_slice() {
            Some(ReaderWord::More)
        } else if word == b"slots".as_slice() {
            Some(ReaderWord::Slots)
        } else {
            None
        }
    }
}
