//! The words with which a line of a setup begins.
ghost use Rattle.std.specs.Prelude.{◌≡◌};
ghost use Rattle.setup_text.specs.SetupWords.{name_of, word_named};

/// A word with which a line of a setup begins. Its value is described at the field of `Setup`.
#[derive(Clone, Copy)]
pub(crate) enum SetupWord {
    /// The size of a block.
    BlockSize,
    /// The number of blocks.
    BlockNr,
    /// The size of a frame.
    FrameSize,
    /// The number of frames.
    FrameNr,
    /// The time-out of a block, 0 to 60,000 milliseconds.
    Tov,
    /// The size of a block's private area.
    Priv,
    /// The features of the ring.
    Features,
    /// A CPU: the name of its capture file, and optionally its receive queue, 0 to 65,535.
    Cpu,
    /// The number of members.
    Members,
    /// How the member of an arrival is chosen.
    Mode,
    /// A flag of the group.
    Flag,
    /// The key of the flow hash, 80 hexadecimal digits.
    Key,
    /// The address of this host, 12 hexadecimal digits.
    Mac,
    /// The name of the filter's file.
    Filter,
    /// The name of the file of the moments.
    Ticks,
    /// What the names of the written files begin with.
    Out,
    /// That the retired blocks are written too.
    Dump,
    /// That a frame too long for a slot of the transmit ring is skipped.
    SkipBad,
    /// The number that frames are made from, and how many are made, 1 to 20,000.
    Make,
    /// The number of workers that decode the blocks of a capture, 0 to 8.
    Workers,
}

/// All setup words.
const ALL: [SetupWord; 20] = [
    SetupWord::BlockSize,
    SetupWord::BlockNr,
    SetupWord::FrameSize,
    SetupWord::FrameNr,
    SetupWord::Tov,
    SetupWord::Priv,
    SetupWord::Features,
    SetupWord::Cpu,
    SetupWord::Members,
    SetupWord::Mode,
    SetupWord::Flag,
    SetupWord::Key,
    SetupWord::Mac,
    SetupWord::Filter,
    SetupWord::Ticks,
    SetupWord::Out,
    SetupWord::Dump,
    SetupWord::SkipBad,
    SetupWord::Make,
    SetupWord::Workers,
];

impl SetupWord {
    /// The word as a setup spells it.
    pub(crate) fn name(self) -> &'static str
        ensures { result.now ≡ name_of self }
    {
        match self {
            SetupWord::BlockSize => "block_size",
            SetupWord::BlockNr => "block_nr",
            SetupWord::FrameSize => "frame_size",
            SetupWord::FrameNr => "frame_nr",
            SetupWord::Tov => "tov",
            SetupWord::Priv => "priv",
            SetupWord::Features => "features",
            SetupWord::Cpu => "cpu",
            SetupWord::Members => "members",
            SetupWord::Mode => "mode",
            SetupWord::Flag => "flag",
            SetupWord::Key => "key",
            SetupWord::Mac => "mac",
            SetupWord::Filter => "filter",
            SetupWord::Ticks => "ticks",
            SetupWord::Out => "out",
            SetupWord::Dump => "dump",
            SetupWord::SkipBad => "skip_bad",
            SetupWord::Make => "make",
            SetupWord::Workers => "workers",
        }
    }

    /// The setup word with this spelling.
    pub(crate) fn named(name: &[u8]) -> Option<SetupWord>
        ensures { result ≡ word_named name.now }
    {
        for word in ALL {
            if word.name().as_bytes() == name {
                return Some(word);
            }
        }
        None
    }
}
