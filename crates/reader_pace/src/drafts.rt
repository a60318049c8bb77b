//! What the lines of a reader's text say so far.
ghost use Rattle.std.specs.Prelude.{◌≡◌};
ghost use Rattle.setup_text.specs.Answers.{IsRight, leaves};
ghost use Rattle.text_lines.specs.Words.{words_of};
ghost use Rattle.reader_pace.specs.Answers.{is_want};
ghost use Rattle.reader_pace.specs.Drafts.{line_after, more_after, nothing_said, pair_after};
ghost use Rattle.reader_pace.specs.Drafts.{put_once, set_once, stall_after, value_after};
ghost use Rattle.reader_pace.specs.Drafts.{values_after, word_after};

use crate::reader_words::ReaderWord;
use crate::{Beginnings, MoreFile, MoreFiles, Pace, Phases, ReaderKind, Stall, StallList};
use std::alloc::Global;
use text_lines::{is_plain, next_word};

/// What the lines of a reader's text say so far; `None` and `false` if no line says it.
#[derive(Drop)]
pub(crate) struct ReaderDraft {
    /// When the members are read.
    pub(crate) pace: Option<Pace>,
    /// The times in which no reader reads.
    pub(crate) stalls: StallList,
    /// The phases of the timer.
    pub(crate) phases: Option<Phases>,
    /// The beginnings of the reader.
    pub(crate) beginnings: Option<Beginnings>,
    /// The further capture files.
    pub(crate) more: MoreFiles,
    /// Whether the ring is one of slots.
    pub(crate) slots: bool,
}

/// What the values of a line are tested against.
#[derive(Clone, Copy)]
pub(crate) struct Bounds {
    /// The number of CPUs.
    pub(crate) cpus: u32,
    /// The time-out of a block in milliseconds.
    pub(crate) tov: u32,
}

impl ReaderDraft {
    /// What is said before the first line.
    pub(crate) fn new(alloc: Global) -> ReaderDraft
        ensures { result ≡ nothing_said }
    {
        ReaderDraft {
            pace: None,
            stalls: StallList::new(alloc),
            phases: None,
            beginnings: None,
            more: MoreFiles::new(alloc),
            slots: false,
        }
    }

    /// Reads a line.
    #[tactic(auto, unfolding(crate::specs::Drafts::line_after))]
    pub(crate) fn read(
        &mut self,
        alloc: Global,
        bounds: Bounds,
        line: &[u8],
    ) -> Result<(), ReaderKind>
        ensures { IsRight is_want (leaves self.new result) (line_after bounds self.old line.now) }
    {
        if !is_plain(line) {
            return Err(ReaderKind::BadLine);
        }
        let Some((first, values)) = next_word(line) else {
            return Ok(());
        };
        match ReaderWord::named(first) {
            Some(word) => self.say(alloc, bounds, word, values),
            None => Err(ReaderKind::UnknownWord),
        }
    }

    /// Reads the values of a reader's word, which are the rest of its line.
    #[tactic(auto, unfolding(crate::specs::Drafts::values_after))]
    fn say(
        &mut self,
        alloc: Global,
        bounds: Bounds,
        word: ReaderWord,
        values: &[u8],
    ) -> Result<(), ReaderKind>
        ensures { IsRight is_want (leaves self.new result)
            (values_after bounds self.old word (words_of values.now)) }
    {
        let Some((value, rest)) = next_word(values) else {
            return self.say_none(word);
        };
        let Some((second, rest)) = next_word(rest) else {
            return self.say_one(bounds.tov, word, value);
        };
        if next_word(rest).is_some() {
            return Err(ReaderKind::BadLine);
        }
        self.say_two(alloc, bounds.cpus, word, value, second)
    }

    /// Reads a reader's word without a value.
    fn say_none(&mut self, word: ReaderWord) -> Result<(), ReaderKind>
        ensures { leaves self.new result ≡ word_after self.old word }
    {
        match word {
            ReaderWord::Slots => set(&mut self.slots),
            _ => Err(ReaderKind::BadLine),
        }
    }

    /// Reads the only value of a reader's word.
    fn say_one(&mut self, tov: u32, word: ReaderWord, value: &[u8]) -> Result<(), ReaderKind>
        ensures { leaves self.new result ≡ value_after tov self.old word value.now }
    {
        match word {
            ReaderWord::Pause => once(&mut self.pace, Pace::pause(value)),
            ReaderWord::Poll => once(&mut self.pace, Pace::poll(value)),
            ReaderWord::Blocks => once(&mut self.pace, Pace::blocks(value)),
            ReaderWord::Phase => once(&mut self.phases, Phases::one(tov, value)),
            ReaderWord::Phases => once(&mut self.phases, Phases::all(value)),
            ReaderWord::From => once(&mut self.beginnings, Beginnings::read(value)),
            ReaderWord::Stall | ReaderWord::More | ReaderWord::Slots => Err(ReaderKind::BadLine),
        }
    }

    /// Reads the two values of a reader's word.
    fn say_two(
        &mut self,
        alloc: Global,
        cpus: u32,
        word: ReaderWord,
        value: &[u8],
        second: &[u8],
    ) -> Result<(), ReaderKind>
        ensures { IsRight is_want (leaves self.new result)
            (pair_after cpus self.old word value.now second.now) }
    {
        match word {
            ReaderWord::Stall => self.add_stall(value, second),
            ReaderWord::More => self.add_more(alloc, cpus, value, second),
            _ => Err(ReaderKind::BadLine),
        }
    }

    /// Adds a stall.
    fn add_stall(&mut self, from: &[u8], length: &[u8]) -> Result<(), ReaderKind>
        ensures { IsRight is_want (leaves self.new result)
            (stall_after self.old from.now length.now) }
    {
        let stall = Stall::read(from, length)?;
        self.stalls.push(stall)?;
        Ok(())
    }

    /// Adds a further file of a CPU.
    fn add_more(
        &mut self,
        alloc: Global,
        cpus: u32,
        cpu: &[u8],
        file: &[u8],
    ) -> Result<(), ReaderKind>
        ensures { IsRight is_want (leaves self.new result)
            (more_after cpus self.old cpu.now file.now) }
    {
        let more = MoreFile::read(alloc, cpus, cpu, file)?;
        self.more.push(more)?;
        Ok(())
    }
}

/// Keeps a value that only one line may say.
fn once<T: Drop>(field: &mut Option<T>, value: Result<T, ReaderKind>) -> Result<(), ReaderKind>
    ensures { leaves field.new result ≡ put_once field.old value }
{
    if field.is_some() {
        return Err(ReaderKind::Twice);
    }
    *field = Some(value?);
    Ok(())
}

/// Sets what only one line may set.
fn set(field: &mut bool) -> Result<(), ReaderKind>
    ensures { leaves field.new result ≡ set_once field.old }
{
    if *field {
        return Err(ReaderKind::Twice);
    }
    *field = true;
    Ok(())
}
