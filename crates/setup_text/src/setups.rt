//! The setup of a run.
ghost use Rattle.std.specs.Prelude.{◌≡◌, ◌≤◌, codes, false, true, length, None, Some, IfOk, IfErr};
ghost use Rattle.std.specs.Prelude.{OnOk};
ghost use Rattle.std.specs.Option.{unwrap_or};
ghost use Rattle.fanout_group.specs.Plans.{AreFlags};
ghost use Rattle.tp_layout.specs.Requests.{answer_of};
ghost use Rattle.setup_text.specs.Answers.{IsOnlyWant, IsRight, is_setup_want, is_want};
ghost use Rattle.setup_text.specs.Answers.{setup_memory};
ghost use Rattle.setup_text.specs.Sound.{IsSetup};
ghost use Rattle.setup_text.specs.Setups.{count_of, draft_of, fault_after, flags_of, group_fault};
ghost use Rattle.setup_text.specs.Setups.{group_of, missing, request_fault, request_of, seed_of};
ghost use Rattle.setup_text.specs.Setups.{setup_after, setup_from, setup_of};
ghost use Rattle.setup_text.specs.declared.commands.Command.TheVariants.{Make};

use crate::drafts::Draft;
use crate::{Command, CpuSetupList, Needed, SetupError, SetupKind};
use fanout_group::{Mode, Plan, PlanError};
use flow_hash::Key;
use frame_view::Memory;
use std::alloc::Global;
use tap_outside::Word;
use text_lines::{LARGEST_TEXT, is_passed_over, next_line};
use tp_layout::{RequestError, RingRequest, Shape};

/// A setup: the ring and the group of a run, its captures, and what is written of it.
#[derive(Debug, Drop)]
pub struct Setup {
    /// The ring that is asked for.
    pub request: RingRequest,
    /// The shape of the ring's blocks.
    pub shape: Shape,
    /// The shape of the group.
    pub plan: Plan,
    /// The key of the flow hash, of 40 bytes.
    pub key: Option<Key>,
    /// The address of this host, in network order.
    pub mac: Option<[u8; 6]>,
    /// The CPUs, from 0 up; 1 to 8.
    pub cpus: CpuSetupList,
    /// The name of the filter's file.
    pub filter: Option<Word>,
    /// The name of the file of the moments.
    pub ticks: Option<Word>,
    /// What the names of the written files begin with.
    pub prefix: Word,
    /// Whether the retired blocks are written too.
    pub dump: bool,
    /// Whether a frame too long for a slot of the transmit ring is skipped instead of stopping the
    /// ring.
    pub skip_bad: bool,
    /// The number that `make`'s frames are made from; 0 if no line says it.
    pub seed: u64,
    /// How many frames `make` makes, at most 20,000; 0 if no line says it.
    pub count: u32,
    /// How many workers decode the blocks of `capture`, at most 8; with 0 the readers decode them.
    pub workers: u32,
}

/// Reads a setup for a command. docs/reference.md says what its lines are.
///
/// Returns `TooLarge` for more than 1,048,576 bytes, with line 0. Then the first line with a fault
/// is reported, with its number from 1. If no line has one, `Missing` for the first required line
/// that is missing; only `Make` requires the line `make`. Then `Request` for an invalid ring, which
/// is a transmit ring for `Send`, a ring of TPACKET_V2 for `Replay2` and a ring of blocks for every
/// other command, and then `Group` for an invalid group. Each has line 0. `Memory`, an allocation
/// that failed, has line 0 too.
pub fn read_setup(alloc: Global, text: &[u8], command: Command) -> Result<Setup, SetupError>
    ensures right { IsRight is_setup_want result (setup_of text.now command) }
    ensures memory { IsOnlyWant is_setup_want setup_memory result }
    ensures sound { IfOk result IsSetup }
    ensures ring { IfOk result (λ setup. request_fault command setup.request ≡ None) }
    ensures made { command ≡ Make → IfOk result (λ setup. 1 ≤ setup.count) }
{
    if text.len() > LARGEST_TEXT {
        return Err(SetupError {
            line: 0,
            kind: SetupKind::TooLarge,
        });
    }
    let draft = draft_of(alloc, text)?;
    match complete(alloc, draft, command) {
        Ok(setup) => Ok(setup),
        Err(kind) => Err(SetupError { line: 0, kind }),
    }
}

/// What the lines of a text say.
fn draft_of(alloc: Global, text: &[u8]) -> Result<Draft, SetupError>
    requires { length text.now ≤ 1048576 }
    ensures right { IsRight is_setup_want result (draft_of text.now) }
    ensures memory { IsOnlyWant is_setup_want setup_memory result }
{
    let mut draft = Draft::new(alloc);
    let mut rest = text;
    let mut number: u32 = 1;
    while let Some((line, behind)) = next_line(rest) {
        if !is_passed_over(line) {
            if let Err(kind) = draft.read(alloc, line) {
                return Err(at_line(number, kind));
            }
        }
        rest = behind;
        number += 1;
    }
    Ok(draft)
}

/// A fault of a line. A failed allocation isn't a fault of any line.
#[tactic(auto, using(crate::proofs::MemoryErrors::wants))]
fn at_line(number: u32, kind: SetupKind) -> SetupError
    ensures fault { is_want kind ≡ false → result ≡ record { line = number; kind = kind } }
    ensures memory { is_want kind ≡ true → result ≡ setup_memory }
    ensures kind { result.kind ≡ kind }
{
    match kind {
        SetupKind::Memory => SetupError { line: 0, kind },
        _ => SetupError { line: number, kind },
    }
}

/// The setup of lines without a fault in any of them, or what is wrong with them together.
#[tactic(auto, unfolding(crate::specs::Setups::setup_after))]
fn complete(alloc: Global, draft: Draft, command: Command) -> Result<Setup, SetupKind>
    ensures { IsRight is_want result (setup_after command draft) }
{
    let (shape, plan) = accepted(&draft, command)?;
    Ok(setup_from(alloc, draft, shape, plan)?)
}

/// The ring's shape and the group that lines ask for, or what is wrong with them together.
fn accepted(draft: &Draft, command: Command) -> Result<(Shape, Plan), SetupKind>
    ensures fault { IfErr result (λ kind. fault_after command draft.now ≡ Some kind) }
    ensures none { IfOk result (λ both. fault_after command draft.now ≡ None) }
    ensures shape { IfOk result (λ both. both.0 ≡ request_of draft.now) }
    ensures plan { IfOk result (λ both. both.1 ≡ group_of draft.now) }
{
    if let Some(needed) = draft.missing(command) {
        return Err(SetupKind::Missing(needed));
    }
    let shape = shape_of(&draft.request(), command)?;
    let plan = draft.plan()?;
    Ok((shape, plan))
}

/// The setup of lines that have no fault, with the ring's shape and the group that they ask for.
fn setup_from(alloc: Global, draft: Draft, shape: Shape, plan: Plan) -> Result<Setup, Memory>
    requires shape { shape ≡ request_of draft }
    requires plan { plan ≡ group_of draft }
    ensures { IfOk result (λ setup. setup ≡ setup_from draft) }
{
    let request = draft.request();
    let (seed, count) = (draft.seed(), draft.count());
    let workers = draft.workers.unwrap_or(0);
    let prefix = prefix_of(alloc, draft.out)?;
    Ok(Setup {
        request,
        shape,
        plan,
        key: draft.key,
        mac: draft.mac,
        cpus: draft.cpus,
        filter: draft.filter,
        ticks: draft.ticks,
        prefix,
        dump: draft.dump,
        skip_bad: draft.skip_bad,
        seed,
        count,
        workers,
    })
}

/// What the names of the written files begin with: `out` if no line says it.
fn prefix_of(alloc: Global, out: Option<Word>) -> Result<Word, Memory>
    ensures { IfOk result (λ prefix. prefix ≡ unwrap_or out (codes "out")) }
{
    match out {
        Some(prefix) => Ok(prefix),
        None => Word::new(alloc, "out"),
    }
}

/// The shape of the ring that a command asks for.
fn shape_of(request: &RingRequest, command: Command) -> Result<Shape, RequestError>
    ensures { result ≡ answer_of request.now (request_fault command request.now) }
{
    match command {
        Command::Send => request.check_tx(),
        Command::Replay2 => request.check_v2(),
        Command::Check | Command::Replay | Command::Capture | Command::Make | Command::Forward => {
            request.check()
        }
    }
}

impl Draft {
    /// The first line that is missing.
    #[tactic(auto, unfolding(crate::specs::Setups::missing))]
    fn missing(&self, command: Command) -> Option<Needed>
        ensures { result ≡ missing command self.now }
    {
        if self.block_size.is_none() {
            Some(Needed::BlockSize)
        } else if self.block_nr.is_none() {
            Some(Needed::BlockNr)
        } else if self.frame_size.is_none() {
            Some(Needed::FrameSize)
        } else if self.frame_nr.is_none() {
            Some(Needed::FrameNr)
        } else if self.cpus.is_empty() {
            Some(Needed::Cpu)
        } else if command == Command::Make && self.made.is_none() {
            Some(Needed::Make)
        } else {
            None
        }
    }

    /// The ring that is asked for.
    fn request(&self) -> RingRequest
        ensures { result ≡ request_of self.now }
    {
        RingRequest {
            block_size: self.block_size.unwrap_or(0),
            block_nr: self.block_nr.unwrap_or(0),
            frame_size: self.frame_size.unwrap_or(0),
            frame_nr: self.frame_nr.unwrap_or(0),
            tov: self.tov.unwrap_or(0),
            sizeof_priv: self.sizeof_priv.unwrap_or(0),
            features: self.features.unwrap_or(0),
        }
    }

    /// The number that frames are made from.
    fn seed(&self) -> u64
        ensures { result ≡ seed_of self.now }
    {
        match self.made {
            Some(made) => u64::from(made.seed),
            None => 0,
        }
    }

    /// How many frames are made.
    fn count(&self) -> u32
        ensures { result ≡ count_of self.now }
    {
        match self.made {
            Some(made) => made.count,
            None => 0,
        }
    }

    /// The group that is asked for.
    fn plan(&self) -> Result<Plan, PlanError>
        ensures plan { IfOk result (λ plan. plan ≡ group_of self.now) }
        ensures none { OnOk result (group_fault self.now ≡ None) }
        ensures fault { IfErr result (λ error. group_fault self.now ≡ Some error) }
    {
        let members = self.members.unwrap_or(1);
        let mode = self.mode.unwrap_or(Mode::Cpu);
        Plan::check(members, mode, self.flags(), self.key.is_some())
    }

    /// The flags of the group, as `linux/if_packet.h` numbers them.
    fn flags(&self) -> u32
        ensures value { result ≡ flags_of self.now }
        ensures sound { AreFlags result }
    {
        match (self.rollover, self.defrag) {
            (false, false) => 0,
            (true, false) => 0x1000,
            (false, true) => 0x8000,
            (true, true) => 0x9000,
        }
    }
}
