//! The words of a command.
ghost use Rattle.std.specs.Prelude.{◌≡◌, [], ◌∷◌, false, option_map, IfSome};
ghost use Rattle.tap_engine.specs.Commands.{command_of, is_threaded, lone_command, named_by};
ghost use Rattle.tap_engine.specs.Commands.{plain_command, rings_of, scheduled_command, sends};

use run_reports::RingKind;
use setup_text::Command;
use tap_outside::Word;

/// A command with the names of its texts.
#[derive(Clone, Copy)]
pub(crate) struct Asked<'a> {
    /// What is asked for.
    pub command: Command,
    /// The name of the setup.
    pub setup: &'a [u8],
    /// The name of the schedule; empty if the command has none.
    pub schedule: &'a [u8],
}

/// The command that the words form, if they form one.
pub(crate) fn command_of(words: &[Word]) -> Option<Asked<'_>>
    ensures { option_map (λ asked. named_by asked.command asked.setup.now asked.schedule.now) result
        ≡ command_of words.now }
{
    match words {
        [word, setup] => lone_of(word, setup),
        [word, setup, schedule] => scheduled_of(word, setup, schedule),
        _ => None,
    }
}

/// The command that the words form, if they form one that runs on one thread.
pub(crate) fn plain_command(words: &[Word]) -> Option<Asked<'_>>
    ensures command { option_map
        (λ asked. named_by asked.command asked.setup.now asked.schedule.now) result
        ≡ plain_command words.now }
    ensures plain { IfSome result (λ asked. is_threaded asked.command ≡ false) }
{
    let asked = command_of(words)?;
    if is_threaded(asked.command) {
        return None;
    }
    Some(asked)
}

/// Whether a command runs on threads.
pub(crate) fn is_threaded(command: Command) -> bool
    ensures { result ≡ is_threaded command }
{
    match command {
        Command::Capture | Command::Forward => true,
        Command::Check | Command::Replay | Command::Replay2 | Command::Send | Command::Make => {
            false
        }
    }
}

/// What the rings of a command's run are made of.
pub(crate) fn rings_of(command: Command) -> RingKind
    ensures { result ≡ rings_of command }
{
    match command {
        Command::Replay2 => RingKind::Slots,
        Command::Check
        | Command::Replay
        | Command::Capture
        | Command::Send
        | Command::Make
        | Command::Forward => RingKind::Blocks,
    }
}

/// Whether the members of a command's run send what they read.
pub(crate) fn sends(command: Command) -> bool
    ensures { result ≡ sends command }
{
    match command {
        Command::Forward => true,
        Command::Check
        | Command::Replay
        | Command::Replay2
        | Command::Capture
        | Command::Send
        | Command::Make => false,
    }
}

/// The commands `check CONF`, `capture CONF`, `send CONF`, `make CONF` and `forward CONF`.
fn lone_of<'a>(word: &Word, setup: &'a Word) -> Option<Asked<'a>>
    ensures { option_map (λ asked. named_by asked.command asked.setup.now asked.schedule.now) result
        ≡ command_of (word.now ∷ setup.now ∷ []) }
{
    let setup = setup.bytes();
    if setup.is_empty() {
        return None;
    }
    let command = lone_command(word.bytes())?;
    Some(Asked {
        command,
        setup,
        schedule: &[],
    })
}

/// The command with this name that needs only a setup.
#[tactic(auto, unfolding(crate::specs::Commands::lone_command))]
fn lone_command(word: &[u8]) -> Option<Command>
    ensures { result ≡ lone_command word.now }
{
    if word == b"check".as_slice() {
        Some(Command::Check)
    } else if word == b"capture".as_slice() {
        Some(Command::Capture)
    } else if word == b"send".as_slice() {
        Some(Command::Send)
    } else if word == b"make".as_slice() {
        Some(Command::Make)
    } else if word == b"forward".as_slice() {
        Some(Command::Forward)
    } else {
        None
    }
}

/// The commands `replay CONF SCHED` and `replay2 CONF SCHED`.
fn scheduled_of<'a>(word: &Word, setup: &'a Word, schedule: &'a Word) -> Option<Asked<'a>>
    ensures { option_map (λ asked. named_by asked.command asked.setup.now asked.schedule.now) result
        ≡ command_of (word.now ∷ setup.now ∷ schedule.now ∷ []) }
{
    let (setup, schedule) = (setup.bytes(), schedule.bytes());
    if setup.is_empty() || schedule.is_empty() {
        return None;
    }
    let command = scheduled_command(word.bytes())?;
    Some(Asked {
        command,
        setup,
        schedule,
    })
}

/// The command with this name that needs a setup and a schedule.
#[tactic(auto, unfolding(crate::specs::Commands::scheduled_command))]
fn scheduled_command(word: &[u8]) -> Option<Command>
    ensures { result ≡ scheduled_command word.now }
{
    if word == b"replay".as_slice() {
        Some(Command::Replay)
    } else if word == b"replay2".as_slice() {
        Some(Command::Replay2)
    } else {
        None
    }
}
