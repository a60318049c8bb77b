//! What the lines of a setup say so far.
ghost use Rattle.std.specs.Prelude.{◌≡◌, option_copied};
ghost use Rattle.setup_text.specs.Answers.{IsRight, is_want, leaves};
ghost use Rattle.setup_text.specs.Drafts.{cpu_after, flag_after, line_after, nothing_said};
ghost use Rattle.setup_text.specs.Drafts.{pair_after, put_once, queue_in, set_once, value_after};
ghost use Rattle.setup_text.specs.Drafts.{values_after, yes_once};
ghost use Rattle.text_lines.specs.Words.{words_of};

use crate::made_frames::MadeFrames;
use crate::setup_words::SetupWord;
use crate::values::{address, any_number, key, mode, name, number_to};
use crate::{CpuSetup, CpuSetupList, SetupKind};
use fanout_group::Mode;
use flow_hash::Key;
use std::alloc::Global;
use tap_outside::Word;
use text_lines::{is_plain, next_word};

/// The most CPUs, by this project's own choice.
const MOST_CPUS: usize = 8;

/// The greatest number of a receive queue.
const LARGEST_QUEUE: u32 = 65_535;

/// The longest time-out of a block in milliseconds, by this project's own choice.
const LONGEST_TIME_OUT: u32 = 60_000;

/// The most workers of a pool, by this project's own choice.
const MOST_WORKERS: u32 = 8;

/// What the lines of a setup say so far; `None` and `false` if no line says it.
#[derive(Drop)]
pub(crate) struct Draft {
    /// The size of a block in bytes.
    pub(crate) block_size: Option<u32>,
    /// The number of blocks.
    pub(crate) block_nr: Option<u32>,
    /// The size of a frame in bytes.
    pub(crate) frame_size: Option<u32>,
    /// The number of frames in all blocks.
    pub(crate) frame_nr: Option<u32>,
    /// The time-out of a block in milliseconds.
    pub(crate) tov: Option<u32>,
    /// The size of a block's private area in bytes.
    pub(crate) sizeof_priv: Option<u32>,
    /// The features of the ring, as `linux/if_packet.h` numbers them.
    pub(crate) features: Option<u32>,
    /// The CPUs, from 0 up.
    pub(crate) cpus: CpuSetupList,
    /// The number of members.
    pub(crate) members: Option<u32>,
    /// How the member of an arrival is chosen.
    pub(crate) mode: Option<Mode>,
    /// Whether other members are tried if the home has no room.
    pub(crate) rollover: bool,
    /// Whether fragments are reassembled.
    pub(crate) defrag: bool,
    /// The key of the flow hash.
    pub(crate) key: Option<Key>,
    /// The address of this host.
    pub(crate) mac: Option<[u8; 6]>,
    /// The name of the filter's file.
    pub(crate) filter: Option<Word>,
    /// The name of the file of the moments.
    pub(crate) ticks: Option<Word>,
    /// What the names of the written files begin with.
    pub(crate) out: Option<Word>,
    /// Whether the retired blocks are written too.
    pub(crate) dump: bool,
    /// Whether a frame too long for a slot is skipped.
    pub(crate) skip_bad: bool,
    /// The frames that are made.
    pub(crate) made: Option<MadeFrames>,
    /// The number of workers that decode the blocks of a capture.
    pub(crate) workers: Option<u32>,
}

impl Draft {
    /// What is said before the first line.
    pub(crate) fn new(alloc: Global) -> Draft
        ensures { result ≡ nothing_said }
    {
        Draft {
            block_size: None,
            block_nr: None,
            frame_size: None,
            frame_nr: None,
            tov: None,
            sizeof_priv: None,
            features: None,
            cpus: CpuSetupList::new(alloc),
            members: None,
            mode: None,
            rollover: false,
            defrag: false,
            key: None,
            mac: None,
            filter: None,
            ticks: None,
            out: None,
            dump: false,
            skip_bad: false,
            made: None,
            workers: None,
        }
    }

    /// Reads a line.
    #[tactic(auto, unfolding(crate::specs::Drafts::line_after))]
    pub(crate) fn read(&mut self, alloc: Global, line: &[u8]) -> Result<(), SetupKind>
        ensures { IsRight is_want (leaves self.new result) (line_after self.old line.now) }
    {
        if !is_plain(line) {
            return Err(SetupKind::BadLine);
        }
        let Some((first, values)) = next_word(line) else {
            return Ok(());
        };
        match SetupWord::named(first) {
            Some(word) => self.say(alloc, word, values),
            None => Err(SetupKind::UnknownWord),
        }
    }

    /// Reads the values of a setup word, which are the rest of its line.
    #[tactic(auto, unfolding(crate::specs::Drafts::values_after))]
    fn say(&mut self, alloc: Global, word: SetupWord, values: &[u8]) -> Result<(), SetupKind>
        ensures { IsRight is_want (leaves self.new result)
            (values_after self.old word (words_of values.now)) }
    {
        let Some((value, rest)) = next_word(values) else {
            return Err(SetupKind::BadLine);
        };
        let Some((second, rest)) = next_word(rest) else {
            return self.say_one(alloc, word, value);
        };
        if next_word(rest).is_some() {
            return Err(SetupKind::BadLine);
        }
        self.say_two(alloc, word, value, second)
    }

    /// Reads the only value of a setup word.
    #[tactic(auto, unfolding(crate::specs::Drafts::value_after))]
    fn say_one(&mut self, alloc: Global, word: SetupWord, value: &[u8]) -> Result<(), SetupKind>
        ensures { IsRight is_want (leaves self.new result) (value_after self.old word value.now) }
    {
        match word {
            SetupWord::BlockSize => once(&mut self.block_size, any_number(value)),
            SetupWord::BlockNr => once(&mut self.block_nr, any_number(value)),
            SetupWord::FrameSize => once(&mut self.frame_size, any_number(value)),
            SetupWord::FrameNr => once(&mut self.frame_nr, any_number(value)),
            SetupWord::Tov => once(&mut self.tov, number_to(LONGEST_TIME_OUT, value)),
            SetupWord::Priv => once(&mut self.sizeof_priv, any_number(value)),
            SetupWord::Features => once(&mut self.features, any_number(value)),
            SetupWord::Cpu => self.add_cpu(alloc, value, None),
            SetupWord::Members => once(&mut self.members, any_number(value)),
            SetupWord::Mode => once(&mut self.mode, mode(value)),
            SetupWord::Flag => self.set_flag(value),
            SetupWord::Key => once(&mut self.key, key(alloc, value)),
            SetupWord::Mac => once(&mut self.mac, address(value)),
            SetupWord::Filter => once(&mut self.filter, name(alloc, value)),
            SetupWord::Ticks => once(&mut self.ticks, name(alloc, value)),
            SetupWord::Out => once(&mut self.out, name(alloc, value)),
            SetupWord::Dump => yes(&mut self.dump, value),
            SetupWord::SkipBad => yes(&mut self.skip_bad, value),
            SetupWord::Make => Err(SetupKind::BadLine),
            SetupWord::Workers => once(&mut self.workers, number_to(MOST_WORKERS, value)),
        }
    }

    /// Reads the two values of a setup word.
    fn say_two(
        &mut self,
        alloc: Global,
        word: SetupWord,
        value: &[u8],
        second: &[u8],
    ) -> Result<(), SetupKind>
        ensures { IsRight is_want (leaves self.new result)
            (pair_after self.old word value.now second.now) }
    {
        match word {
            SetupWord::Cpu => self.add_cpu(alloc, value, Some(second)),
            SetupWord::Make => once(&mut self.made, MadeFrames::read(value, second)),
            _ => Err(SetupKind::BadLine),
        }
    }

    /// Adds a CPU, whose queue is its own number if none is given.
    #[tactic(auto, unfolding(crate::specs::Drafts::cpu_after))]
    fn add_cpu(&mut self, alloc: Global, file: &[u8], queue: Option<&[u8]>) -> Result<(), SetupKind>
        ensures { IsRight is_want (leaves self.new result)
            (cpu_after self.old file.now (option_copied queue.entry)) }
    {
        let number = self.cpus.len();
        if number >= MOST_CPUS {
            return Err(SetupKind::BadLine);
        }
        let file = name(alloc, file)?;
        let queue = queue_of(number as u32, queue)?;
        self.cpus.push(CpuSetup { file, queue })?;
        Ok(())
    }

    /// Sets a flag.
    #[tactic(auto, unfolding(crate::specs::Drafts::flag_after))]
    fn set_flag(&mut self, word: &[u8]) -> Result<(), SetupKind>
        ensures { leaves self.new result ≡ flag_after self.old word.now }
    {
        if word == b"rollover".as_slice() {
            set(&mut self.rollover)
        } else if word == b"defrag".as_slice() {
            set(&mut self.defrag)
        } else {
            Err(SetupKind::UnknownWord)
        }
    }
}

/// Keeps the value of a word that may appear only once.
fn once<T: Drop>(field: &mut Option<T>, value: Result<T, SetupKind>) -> Result<(), SetupKind>
    ensures { leaves field.new result ≡ put_once field.old value }
{
    if field.is_some() {
        return Err(SetupKind::Twice);
    }
    *field = Some(value?);
    Ok(())
}

/// Sets a value that may be set only once.
fn set(field: &mut bool) -> Result<(), SetupKind>
    ensures { leaves field.new result ≡ set_once field.old }
{
    if *field {
        return Err(SetupKind::Twice);
    }
    *field = true;
    Ok(())
}

/// Sets what the word `yes` sets; it may be set only once.
fn yes(field: &mut bool, word: &[u8]) -> Result<(), SetupKind>
    ensures { leaves field.new result ≡ yes_once field.old word.now }
{
    if *field {
        return Err(SetupKind::Twice);
    }
    if word != b"yes".as_slice() {
        return Err(SetupKind::UnknownWord);
    }
    *field = true;
    Ok(())
}

/// The queue of the CPU of this number.
fn queue_of(number: u32, word: Option<&[u8]>) -> Result<u32, SetupKind>
    ensures { result ≡ queue_in number (option_copied word.entry) }
{
    match word {
        None => Ok(number),
        Some(word) => number_to(LARGEST_QUEUE, word),
    }
}
