//! Why a text beside the setup is refused.
ghost use Rattle.std.specs.Prelude.{◌≡◌};
ghost use Rattle.setup_text.specs.KindWords.{text_word, which_word};
ghost use Rattle.setup_text.specs.declared.text_error.TextKind.TheVariants.{Memory};

use bpf_filter::FilterError;

/// The first fault of a text.
#[derive(Clone, Copy, Debug, PartialEq, Eq)]
pub struct TextError {
    /// The text.
    pub which: Which,
    /// The line, from 1; 0 if no single line is at fault.
    pub line: u32,
    /// What is wrong.
    pub kind: TextKind,
}

/// A text that is read beside the setup.
#[derive(Clone, Copy, Debug, PartialEq, Eq)]
pub enum Which {
    /// The filter, as `tcpdump -ddd` writes it.
    Filter,
    /// The moments of the ticks, which every member gets.
    Ticks,
    /// What is done in a replay, line by line.
    Schedule,
}

/// What is wrong with a text.
#[derive(Clone, Copy, Debug, PartialEq, Eq)]
pub enum TextKind {
    /// A byte that is neither printable ASCII nor space nor tab, or a wrong number of values.
    BadLine,
    /// A line of a schedule that doesn't begin with a word of schedules.
    UnknownWord,
    /// A value that isn't a number.
    BadNumber,
    /// A moment less than the one before.
    NotAscending,
    /// A CPU that the setup doesn't have.
    NoSuchCpu,
    /// A member that the group doesn't have.
    NoSuchMember,
    /// A text of more than 1,048,576 bytes.
    TooLarge,
    /// A fault of the filter.
    Filter(FilterError),
    /// Out of memory.
    Memory,
}

impl Which {
    /// The word for the text, as the program prints it.
    pub fn word(&self) -> &'static str
        ensures { result.now ≡ which_word self.now }
    {
        match self {
            Which::Filter => "filter",
            Which::Ticks => "ticks",
            Which::Schedule => "schedule",
        }
    }
}

impl TextKind {
    /// The word for the fault, as the program prints it; for a filter it is the filter's own word.
    pub fn word(&self) -> &'static str
        ensures { result.now ≡ text_word self.now }
    {
        match self {
            TextKind::BadLine => "bad_line",
            TextKind::UnknownWord => "unknown_word",
            TextKind::BadNumber => "bad_number",
            TextKind::NotAscending => "not_ascending",
            TextKind::NoSuchCpu => "no_such_cpu",
            TextKind::NoSuchMember => "no_such_member",
            TextKind::TooLarge => "too_large",
            TextKind::Filter(error) => error.word(),
            TextKind::Memory => "memory",
        }
    }
}

impl From<frame_view::Memory> for TextKind {
    ghost from_gives = { λ _ kind. kind ≡ Memory };

    fn from(_: frame_view::Memory) -> TextKind {
        TextKind::Memory
    }
}
