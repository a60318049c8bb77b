//! Why a group is refused.
ghost use Rattle.std.specs.Prelude.{◌≡◌, Some};
ghost use Rattle.fanout_group.specs.PlanWords.{word_of};

use std::error::Error;
use std::fmt;

/// Why a group is refused. Of several faults the first one is reported, in this order.
#[derive(Clone, Copy, Debug, PartialEq, Eq)]
pub enum PlanError {
    /// It has no member.
    NoMember,
    /// It has more than eight members.
    TooMany,
    /// Other members are tried in mode `Rollover` anyway, so the flag of rollover isn't allowed
    /// there.
    BackupOfRollover,
    /// In mode `Hash` the flow hash decides, and it needs a key.
    NoKey,
}

impl PlanError {
    /// The word for the fault, as the program prints it.
    pub fn word(&self) -> &'static str
        ensures { result.now ≡ word_of self.now }
    {
        match self {
            PlanError::NoMember => "no_member",
            PlanError::TooMany => "too_many",
            PlanError::BackupOfRollover => "backup_of_rollover",
            PlanError::NoKey => "no_key",
        }
    }
}

impl fmt::Display for PlanError {
    ghost output = { λ error. Some (word_of error) };

    fn fmt<W: fmt::Write>(&self, f: &mut fmt::Formatter<W>) -> fmt::Result {
        f.write_str(self.word())
    }
}

impl Error for PlanError {}
