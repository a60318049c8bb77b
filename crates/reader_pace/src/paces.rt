//! What a reader's text says: the pace, the stalls, the timer's phases, the reader's beginnings and
//! the further files.
ghost use Rattle.std.specs.Prelude.{◌≡◌};
ghost use Rattle.reader_pace.specs.Values.{all_phases, beginning_in, blocks_in, is_below_period};
ghost use Rattle.reader_pace.specs.Values.{more_in, pause_in, phase_in, poll_in, stall_in};
ghost use Rattle.setup_text.specs.Answers.{IsRight};
ghost use Rattle.reader_pace.specs.Answers.{is_want};

use crate::ReaderKind;
use crate::values::{any_number, count, cpu, name, number_below};
use frame_view::ItemList;
use std::alloc::Global;
use tap_outside::Word;

/// When the members are read. All are read at the same moments.
#[derive(Clone, Copy, Debug, PartialEq, Eq)]
pub enum Pace {
    /// A reader sleeps for so many milliseconds, at least 1, and then takes all that is there.
    Pause(u32),
    /// A reader wakes so many milliseconds after a block of its ring is handed over, with 0 at
    /// once, and takes all that is there.
    Poll(u32),
    /// A reader takes one block so many times a second, at least once.
    Blocks(u32),
}

/// A time in which no reader reads.
#[derive(Clone, Copy, Debug, PartialEq, Eq)]
pub struct Stall {
    /// The millisecond at which it begins, counted from the first frame.
    pub from: u32,
    /// How many milliseconds it lasts, at least 1.
    pub length: u32,
}

/// Stalls, in the order of their lines.
pub type StallList = ItemList<Stall>;

/// How many milliseconds before the first frame the timer was started.
#[derive(Clone, Copy, Debug, PartialEq, Eq)]
pub enum Phases {
    /// Each whole number of milliseconds below the time-out.
    All,
    /// This number.
    One(u32),
}

/// How many milliseconds after the first frame the reader reads first.
#[derive(Clone, Copy, Debug, PartialEq, Eq)]
pub enum Beginnings {
    /// Each whole number of milliseconds below the reader's period.
    All,
    /// This number.
    One(u32),
}

/// A further capture file of a CPU.
#[derive(Debug, Drop)]
pub struct MoreFile {
    /// The CPU.
    pub cpu: u32,
    /// The name of the file.
    pub file: Word,
}

/// Further capture files, in the order of their lines.
pub type MoreFiles = ItemList<MoreFile>;

impl Pace {
    /// The pace of a reader that sleeps for this word's milliseconds.
    #[tactic(auto, unfolding(crate::specs::Values::pause_in))]
    pub(crate) fn pause(word: &[u8]) -> Result<Pace, ReaderKind>
        ensures { result ≡ pause_in word.now }
    {
        Ok(Pace::Pause(count(word)?))
    }

    /// The pace of a reader that wakes this word's milliseconds after a block is handed over.
    #[tactic(auto, unfolding(crate::specs::Values::poll_in))]
    pub(crate) fn poll(word: &[u8]) -> Result<Pace, ReaderKind>
        ensures { result ≡ poll_in word.now }
    {
        Ok(Pace::Poll(any_number(word)?))
    }

    /// The pace of a reader that takes this word's number of blocks a second.
    #[tactic(auto, unfolding(crate::specs::Values::blocks_in))]
    pub(crate) fn blocks(word: &[u8]) -> Result<Pace, ReaderKind>
        ensures { result ≡ blocks_in word.now }
    {
        Ok(Pace::Blocks(count(word)?))
    }

    /// Whether a beginning in milliseconds is below the period; `Poll` has none.
    pub(crate) fn has_beginning(self, from: u32) -> bool
        ensures { result ≡ is_below_period self from }
    {
        match self {
            Pace::Pause(period) => from < period,
            Pace::Poll(_) => false,
            Pace::Blocks(count) => u64::from(from) * u64::from(count) < 1000,
        }
    }
}

impl Stall {
    /// The stall of two words: from which millisecond on, and for how many.
    #[tactic(auto, unfolding(crate::specs::Values::stall_in))]
    pub(crate) fn read(from: &[u8], length: &[u8]) -> Result<Stall, ReaderKind>
        ensures { result ≡ stall_in from.now length.now }
    {
        let from = any_number(from)?;
        let length = count(length)?;
        Ok(Stall { from, length })
    }
}

impl Phases {
    /// The one phase that a word spells.
    #[tactic(auto, unfolding(crate::specs::Values::phase_in))]
    pub(crate) fn one(tov: u32, word: &[u8]) -> Result<Phases, ReaderKind>
        ensures { result ≡ phase_in tov word.now }
    {
        Ok(Phases::One(number_below(tov, word)?))
    }

    /// All phases, which only the word `all` spells.
    #[tactic(auto, unfolding(crate::specs::Values::all_phases))]
    pub(crate) fn all(word: &[u8]) -> Result<Phases, ReaderKind>
        ensures { result ≡ all_phases word.now }
    {
        if word == b"all".as_slice() {
            Ok(Phases::All)
        } else {
            Err(ReaderKind::UnknownWord)
        }
    }
}

impl Beginnings {
    /// The beginnings that a word spells: `all` or a number.
    #[tactic(auto, unfolding(crate::specs::Values::beginning_in))]
    pub(crate) fn read(word: &[u8]) -> Result<Beginnings, ReaderKind>
        ensures { result ≡ beginning_in word.now }
    {
        if word == b"all".as_slice() {
            Ok(Beginnings::All)
        } else {
            Ok(Beginnings::One(any_number(word)?))
        }
    }
}

impl MoreFile {
    /// The further file of two words: a CPU and a name.
    #[tactic(auto, unfolding(crate::specs::Values::more_in))]
    pub(crate) fn read(
        alloc: Global,
        cpus: u32,
        cpu_word: &[u8],
        file: &[u8],
    ) -> Result<MoreFile, ReaderKind>
        ensures { IsRight is_want result (more_in cpus cpu_word.now file.now) }
    {
        let cpu = cpu(cpus, cpu_word)?;
        let file = name(alloc, file)?;
        Ok(MoreFile { cpu, file })
    }
}
