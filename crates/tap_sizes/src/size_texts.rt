//! The texts of the program, read and accepted.
ghost use Rattle.std.specs.Prelude.{◌≡◌, ◌≤◌, true, option_map, length, IfErr, IfOk, IfSome};
ghost use Rattle.std.specs.Prelude.{IsTrue};
ghost use Rattle.reader_pace.specs.Answers.{is_reader_want};
ghost use Rattle.reader_pace.specs.ReaderWords.{says_slots};
ghost use Rattle.reader_pace.specs.Sound.{IsReader};
ghost use Rattle.setup_text.specs.Answers.{IsRight};
ghost use Rattle.setup_text.specs.Sound.{IsSetup};
ghost use Rattle.slot_layout.specs.SlotShapes.{IsSlotShape};
ghost use Rattle.tap_outside.specs.Seen.{OnlyReads};
ghost use Rattle.tap_sizes.specs.SizeNames.{AreMeantToSize, IsRestMeant};
ghost use Rattle.tap_sizes.specs.SizeTexts.{IsJobRead, IsProgramRead, StopsAtFilter, StopsAtJob};
ghost use Rattle.tap_sizes.specs.SizeTexts.{command_for, reader_for};
ghost use Rattle.tap_sizes.specs.SizeWords.{size_named};
ghost use Rattle.tp_layout.specs.Requests.{time_out_of};

use crate::asked_sizes::AskedSizes;
use bpf_filter::Program;
use frame_view::ByteList;
use reader_pace::{PacedReader, ReaderError, read_reader, says_slots};
use setup_text::{Command, Job, Setup};
use std::alloc::Global;
use tap_outside::{Store, Word};
use tap_reading::{LoadError, load_filter, load_setup, read_text};

/// What was read of the texts.
#[derive(Drop)]
pub(crate) struct SizeTexts {
    /// The reader's text, which isn't accepted yet.
    pub reader: ByteList,
    /// The setup and its filter.
    pub job: Job,
}

/// Reads the reader's text, then the setup, as the command for that text takes it, and then the
/// filter that it names.
pub(crate) fn load_size_texts<S: Store>(
    alloc: Global,
    asked: AskedSizes<'_>,
    store: &mut S,
) -> Result<SizeTexts, LoadError>
    requires { AreMeantToSize (Some (size_named asked.setup.now asked.reader.now))
        (S.seen store.old) }
    ensures job { IfOk result (λ texts. IsJobRead (S.seen store.old) (S.seen store.new)
        (size_named asked.entry.setup.now asked.entry.reader.now) texts.reader texts.job) }
    ensures sound { IfOk result (λ texts. IsSetup texts.job.setup) }
    ensures slots { IfOk result (λ texts. says_slots texts.reader ≡ true
        → IsSlotShape texts.job.setup.shape) }
    ensures meant { IfOk result (λ texts.
        IsRestMeant (S.seen store.new) texts.reader texts.job.setup) }
    ensures stop { IfErr result (StopsAtJob (S.seen store.old) (S.seen store.new)
        (size_named asked.entry.setup.now asked.entry.reader.now)) }
    ensures store { OnlyReads (S.seen store.old) (S.seen store.new) }
{
    let reader = read_text(alloc, store, asked.reader)?;
    let command = command_for(reader.as_slice());
    let setup = load_setup(alloc, store, asked.setup, command)?;
    let program = load_program(alloc, store, filter_of(&setup))?;
    Ok(SizeTexts {
        reader,
        job: Job { setup, program },
    })
}

/// The command by which the setup is accepted: a reader's text that says `slots` wants one of
/// TPACKET_V2.
fn command_for(reader: &[u8]) -> Command
    ensures { result ≡ command_for reader.now }
{
    if says_slots(reader) {
        Command::Replay2
    } else {
        Command::Replay
    }
}

/// The name of the filter that a setup names, if it names one.
fn filter_of(setup: &Setup) -> Option<&Word>
    ensures { option_map (λ word. word.now) result ≡ setup.now.filter }
{
    setup.filter.as_ref()
}

/// Reads the filter, if one is named.
fn load_program<S: Store>(
    alloc: Global,
    store: &mut S,
    filter: Option<&Word>,
) -> Result<Option<Program>, LoadError>
    requires { IfSome filter (λ name. IsTrue ((S.seen store.old).to_read name.now)) }
    ensures program { IfOk result (IsProgramRead (S.seen store.old) (S.seen store.new)
        (option_map (λ word. word.now) filter.entry)) }
    ensures stop { IfErr result (StopsAtFilter (S.seen store.old) (S.seen store.new)
        (option_map (λ word. word.now) filter.entry)) }
    ensures store { OnlyReads (S.seen store.old) (S.seen store.new) }
{
    match filter {
        None => Ok(None),
        Some(name) => {
            let program = load_filter(alloc, store, name.bytes())?;
            Ok(Some(program))
        }
    }
}

/// Accepts the reader's text for the setup that was read.
pub(crate) fn accept_reader(alloc: Global, texts: &SizeTexts) -> Result<PacedReader, ReaderError>
    requires { IsSetup texts.now.job.setup }
    ensures right { IsRight is_reader_want result
        (reader_for texts.now.job.setup texts.now.reader) }
    ensures sound { IfOk result (IsReader (length texts.now.job.setup.cpus)
        (time_out_of texts.now.job.setup.shape)) }
    ensures slots { IfOk result (λ reader. reader.slots ≡ says_slots texts.now.reader) }
{
    let cpus = texts.job.setup.cpus.len() as u32;
    let tov = time_out(&texts.job.setup);
    read_reader(alloc, texts.reader.as_slice(), cpus, tov)
}

/// The time-out of a setup's ring, in milliseconds.
pub(crate) fn time_out(setup: &Setup) -> u32
    requires { IsSetup setup.now }
    ensures time_out { result ≡ time_out_of setup.now.shape }
    ensures some { 1 ≤ result }
    ensures few { result ≤ 60000 }
{
    setup.shape.tov() as u32
}
