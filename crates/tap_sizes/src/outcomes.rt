//! What the top call returns.
ghost use Rattle.std.specs.Prelude.{◌≡◌};
ghost use Rattle.tap_sizes.specs.SizeNumbers.{number_of};

use capture_file::CaptureError;
use reader_pace::ReaderError;
use setup_text::{SetupError, TextError};
use size_printing::SizeReport;

/// Why a reader's text that is accepted isn't answered: the program can't do so yet.
#[derive(Clone, Copy, Debug, PartialEq, Eq)]
pub enum Unanswered {
    /// The reader polls.
    Poll,
}

/// How the call ended.
#[derive(Clone, Copy, Debug, PartialEq, Eq)]
pub enum SizeStatus {
    /// 0: nothing else applies.
    Fine,
    /// 1: the words aren't two names.
    Usage,
    /// 2: the setup was read and is refused.
    Setup(SetupError),
    /// 3: the filter was read and is refused; the setup was accepted.
    Text(TextError),
    /// 3: the reader's text was read and is refused; setup and filter were accepted.
    Reader(ReaderError),
    /// 3: the texts are accepted, and the program can't answer them yet.
    Unanswered(Unanswered),
    /// 3: the frames last longer than the clock of a schedule goes.
    TooLong,
    /// 4: a file of a CPU is damaged, or cut; the first such file that was read.
    Damaged { cpu: u32, fault: CaptureError },
    /// 5: a file couldn't be read.
    ReadFault,
    /// 6: a line couldn't be printed.
    WriteFault,
    /// 7: an allocation failed.
    Memory,
}

impl SizeStatus {
    /// The number of the status, with which the program ends.
    pub fn number(&self) -> u8
        ensures { result ≡ number_of self.now }
    {
        match self {
            SizeStatus::Fine => 0,
            SizeStatus::Usage => 1,
            SizeStatus::Setup(_) => 2,
            SizeStatus::Text(_)
            | SizeStatus::Reader(_)
            | SizeStatus::Unanswered(_)
            | SizeStatus::TooLong => 3,
            SizeStatus::Damaged { .. } => 4,
            SizeStatus::ReadFault => 5,
            SizeStatus::WriteFault => 6,
            SizeStatus::Memory => 7,
        }
    }
}

/// What the call returns: its status, and its report if the captures were read.
#[derive(Debug, Drop)]
pub struct SizeOutcome {
    /// How it ended.
    pub status: SizeStatus,
    /// What is found out about the rings.
    pub report: Option<SizeReport>,
}
