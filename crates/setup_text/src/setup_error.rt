//! Why a setup is refused.
ghost use Rattle.std.specs.Prelude.{◌≡◌};
ghost use Rattle.setup_text.specs.KindWords.{kind_word, needed_word};
ghost use Rattle.setup_text.specs.KeyFaults.{key_fault};
ghost use Rattle.setup_text.specs.declared.setup_error.SetupKind.TheVariants.{Group, Memory};
ghost use Rattle.setup_text.specs.declared.setup_error.SetupKind.TheVariants.{Request};

use crate::setup_words::SetupWord;
use fanout_group::PlanError;
use flow_hash::KeyError;
use tp_layout::RequestError;

/// The first fault of a setup.
#[derive(Clone, Copy, Debug, PartialEq, Eq)]
pub struct SetupError {
    /// The line, from 1; 0 if no single line is at fault.
    pub line: u32,
    /// What is wrong.
    pub kind: SetupKind,
}

/// What is wrong with a setup. The faults of single lines come before those of all lines together.
#[derive(Clone, Copy, Debug, PartialEq, Eq)]
pub enum SetupKind {
    /// A byte that is neither printable ASCII nor space nor tab, a wrong number of values, or a
    /// ninth CPU.
    BadLine,
    /// A line that doesn't begin with a setup word, or a value that isn't one of the words allowed
    /// there.
    UnknownWord,
    /// A setup word or a flag that appeared before.
    Twice,
    /// A value that isn't a number, a number out of its range, a name of more than 255 bytes, or a
    /// value that isn't a key or an address.
    BadNumber,
    /// A required line is missing.
    Missing(Needed),
    /// The ring that is asked for is invalid.
    Request(RequestError),
    /// The group is invalid.
    Group(PlanError),
    /// A text of more than 1,048,576 bytes.
    TooLarge,
    /// Out of memory.
    Memory,
}

/// A line that a setup requires, in the order in which they are tested.
#[derive(Clone, Copy, Debug, PartialEq, Eq)]
pub enum Needed {
    /// The size of a block.
    BlockSize,
    /// The number of blocks.
    BlockNr,
    /// The size of a frame.
    FrameSize,
    /// The number of frames.
    FrameNr,
    /// A CPU with its capture.
    Cpu,
    /// How frames are made; only the command `make` needs it.
    Make,
}

impl SetupKind {
    /// The word for the fault, as the program prints it. After `missing`, `request` and `group` the
    /// inner word follows.
    pub fn word(&self) -> &'static str
        ensures { result.now ≡ kind_word self.now }
    {
        match self {
            SetupKind::BadLine => "bad_line",
            SetupKind::UnknownWord => "unknown_word",
            SetupKind::Twice => "twice",
            SetupKind::BadNumber => "bad_number",
            SetupKind::Missing(_) => "missing",
            SetupKind::Request(_) => "request",
            SetupKind::Group(_) => "group",
            SetupKind::TooLarge => "too_large",
            SetupKind::Memory => "memory",
        }
    }
}

impl Needed {
    /// The setup word of the line that is missing.
    pub fn word(&self) -> &'static str
        ensures { result.now ≡ needed_word self.now }
    {
        let word = match self {
            Needed::BlockSize => SetupWord::BlockSize,
            Needed::BlockNr => SetupWord::BlockNr,
            Needed::FrameSize => SetupWord::FrameSize,
            Needed::FrameNr => SetupWord::FrameNr,
            Needed::Cpu => SetupWord::Cpu,
            Needed::Make => SetupWord::Make,
        };
        word.name()
    }
}

impl From<RequestError> for SetupKind {
    ghost from_gives = { λ error kind. kind ≡ Request error };

    fn from(error: RequestError) -> SetupKind {
        SetupKind::Request(error)
    }
}

impl From<KeyError> for SetupKind {
    ghost from_gives = { λ error kind. kind ≡ key_fault error };

    fn from(error: KeyError) -> SetupKind {
        match error {
            KeyError::NotHex | KeyError::WrongLength => SetupKind::BadNumber,
            KeyError::Memory => SetupKind::Memory,
        }
    }
}

impl From<PlanError> for SetupKind {
    ghost from_gives = { λ error kind. kind ≡ Group error };

    fn from(error: PlanError) -> SetupKind {
        SetupKind::Group(error)
    }
}

impl From<frame_view::Memory> for SetupKind {
    ghost from_gives = { λ _ kind. kind ≡ Memory };

    fn from(_: frame_view::Memory) -> SetupKind {
        SetupKind::Memory
    }
}
