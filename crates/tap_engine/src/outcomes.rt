//! What a call returns.
ghost use Rattle.std.specs.Prelude.{◌≡◌};
ghost use Rattle.tap_engine.specs.Numbers.{number_of};

use capture_file::CaptureError;
use run_reports::RunReport;
use setup_text::{SetupError, TextError};

/// How a call ended.
#[derive(Clone, Copy, Debug, PartialEq, Eq)]
pub enum Status {
    /// 0: nothing else applies.
    Fine,
    /// 1: the words aren't a command.
    Usage,
    /// 2: the setup was read and is refused.
    Setup(SetupError),
    /// 3: another text was read and is refused; all before it were accepted.
    Text(TextError),
    /// 4: a capture is damaged, or cut; the lowest such CPU.
    Damaged { cpu: u32, fault: CaptureError },
    /// 5: a file couldn't be read.
    ReadFault,
    /// 6: a file couldn't be saved, or a line couldn't be printed.
    WriteFault,
    /// 7: an allocation failed.
    Memory,
}

impl Status {
    /// The number of the status, with which the program ends.
    pub fn number(&self) -> u8
        ensures { result ≡ number_of self.now }
    {
        match self {
            Status::Fine => 0,
            Status::Usage => 1,
            Status::Setup(_) => 2,
            Status::Text(_) => 3,
            Status::Damaged { .. } => 4,
            Status::ReadFault => 5,
            Status::WriteFault => 6,
            Status::Memory => 7,
        }
    }
}

/// What a call returns: its status, and its report if a run was made.
#[derive(Debug, Drop)]
pub struct Outcome {
    /// How it ended.
    pub status: Status,
    /// What the run reports.
    pub report: Option<RunReport>,
}
