//! Why a reader's text is refused.
ghost use Rattle.std.specs.Prelude.{◌≡◌};
ghost use Rattle.reader_pace.specs.KindWords.{kind_word};
ghost use Rattle.reader_pace.specs.declared.reader_error.ReaderKind.TheVariants.{Memory};

/// The first fault of a reader's text.
#[derive(Clone, Copy, Debug, PartialEq, Eq)]
pub struct ReaderError {
    /// The line, from 1; 0 if no single line is at fault.
    pub line: u32,
    /// What is wrong.
    pub kind: ReaderKind,
}

/// What is wrong with a reader's text. The faults of single lines come before those of all lines
/// together.
#[derive(Clone, Copy, Debug, PartialEq, Eq)]
pub enum ReaderKind {
    /// A byte that is neither printable ASCII nor space nor tab, or a wrong number of values.
    BadLine,
    /// A line that doesn't begin with a reader's word, or `phases` with another value than `all`.
    UnknownWord,
    /// A second line that says the pace, the phase, the beginning or `slots`.
    Twice,
    /// A value that isn't a number, a number out of its range, or a name of more than 255 bytes.
    BadNumber,
    /// A CPU that the setup doesn't have.
    NoSuchCpu,
    /// No line says the pace.
    Missing,
    /// A phase beside `slots`, where there is no timer.
    BadPhase,
    /// A beginning that isn't below the reader's period, or one beside `poll`, which has none.
    BadFrom,
    /// A text of more than 1,048,576 bytes.
    TooLarge,
    /// Out of memory.
    Memory,
}

impl ReaderKind {
    /// The word for the fault, as a program prints it.
    pub fn word(&self) -> &'static str
        ensures { result.now ≡ kind_word self.now }
    {
        match self {
            ReaderKind::BadLine => "bad_line",
            ReaderKind::UnknownWord => "unknown_word",
            ReaderKind::Twice => "twice",
            ReaderKind::BadNumber => "bad_number",
            ReaderKind::NoSuchCpu => "no_such_cpu",
            ReaderKind::Missing => "missing",
            ReaderKind::BadPhase => "bad_phase",
            ReaderKind::BadFrom => "bad_from",
            ReaderKind::TooLarge => "too_large",
            ReaderKind::Memory => "memory",
        }
    }
}

impl From<frame_view::Memory> for ReaderKind {
    ghost from_gives = { λ _ kind. kind ≡ Memory };

    fn from(_: frame_view::Memory) -> ReaderKind {
        ReaderKind::Memory
    }
}
