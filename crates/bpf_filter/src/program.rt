//! The programs that are accepted, and their verdicts.
ghost use Rattle.std.specs.Prelude.{◌≡◌, ◌≤◌, length, option_copied};
ghost use Rattle.bpf_filter.specs.Answers.{Gives};
ghost use Rattle.bpf_filter.specs.Codes.{is_code};
ghost use Rattle.bpf_filter.specs.Programs.{program_of, fault_of, fault_of_known, first_fault};
ghost use Rattle.bpf_filter.specs.Programs.{ends_with_return};
ghost use Rattle.bpf_filter.specs.PacketFacts.{facts_of};
ghost use Rattle.bpf_filter.specs.Verdict.{verdict_of, verdict_with};

use crate::error::FilterError;
use crate::insn::Insn;
use crate::loads::is_ancillary;
use crate::machine::{Jump, Registers, WORDS};
use crate::packets::Seen;
use std::alloc::Global;
use std::marker::Model;

/// The most instructions of a program (`BPF_MAXINSNS` of `linux/bpf_common.h`).
pub const LARGEST_PROGRAM: usize = 4096;

/// A program that was accepted. Contracts see it as the list of its instructions.
#[derive(Drop)]
pub struct Program {
    /// The instructions as they were given. `check` accepted them: each has a known code, names an
    /// existing memory word, if one, and leads to an existing instruction or to a verdict, so no
    /// step has to test that.
    code: Vec<Insn>,
}

impl Model for Program {
    ghost use Rattle.std.specs.Prelude.{◌≡◌, List, Ok};
    ghost use Rattle.bpf_filter.specs.declared.insn.Insn.{Insn};
    ghost use Rattle.bpf_filter.specs.Programs.{program_of};

    ghost Value = { List Insn };

    ghost view = { λ program. program.code.items };

    ghost invariant = { λ program. program_of program.code.items ≡ Ok program.code.items };
}

impl Program {
    /// Accepts a program, or returns the first fault of one that isn't accepted.
    ///
    /// Returns `BadCount` for more than 4096 instructions. Then, for each instruction from the
    /// first on, `BadCode` for a code that isn't known, `BadConstant` for a division by the
    /// constant 0 or a shift by a constant of 32 or more, `BadMemory` for a memory word from 16 on,
    /// `BadAncillary` for a place in the packet from 0x80000000 on that isn't ancillary, and
    /// `BadJump` for a jump past the last instruction. Last, `NoReturn` for a program that doesn't
    /// end with a return. It is this project's own choice that memory words may be read before they
    /// are written.
    pub fn check(_alloc: Global, code: Vec<Insn>) -> Result<Program, FilterError>
        ensures { Gives (λ program. program) result (program_of code.items) }
    {
        if code.len() > LARGEST_PROGRAM {
            return Err(FilterError::BadCount);
        }
        if let Some(fault) = first_fault(code.as_slice()) {
            return Err(fault);
        }
        if !ends_with_return(code.as_slice()) {
            return Err(FilterError::NoReturn);
        }
        Ok(Program { code })
    }

    /// The instructions of the program, as they were given.
    pub fn code(&self) -> &[Insn]
        ensures { result.now ≡ self.now }
    {
        self.code.as_slice()
    }

    /// How many bytes of a packet to keep; 0 refuses it. It takes no memory, and always returns,
    /// because all jumps go forward.
    pub fn verdict(&self, packet: &Seen<'_>) -> u32
        ensures { result ≡ verdict_of self.now (facts_of packet.now) }
    {
        let code = self.code.as_slice();
        let mut machine = Registers::new();
        let mut at = 0;
        loop {
            match machine.perform(&code[at], packet) {
                Jump::Answer(answer) => return answer,
                Jump::Go(further) => at += further,
            }
        }
    }
}

/// The verdict of a filter on a packet: how many bytes to keep. Without a filter it is the greatest
/// number, which keeps all.
pub fn verdict_with(filter: Option<&Program>, packet: &Seen<'_>) -> u32
    ensures { result ≡ verdict_with (option_copied filter.entry) (facts_of packet.now) }
{
    match filter {
        Some(program) => program.verdict(packet),
        None => u32::MAX,
    }
}

/// The first fault of instructions.
fn first_fault(code: &[Insn]) -> Option<FilterError>
    requires { length code.now ≤ 4096 }
    ensures { result ≡ first_fault 0 code.now }
{
    for (at, insn) in code.iter().enumerate() {
        let found = fault_of(*insn, at as u32, code.len() - at - 1);
        if found.is_some() {
            return found;
        }
    }
    None
}

/// The first fault of the instruction of a number, by how many instructions follow it.
#[tactic(auto, unfolding(crate::specs::Programs::fault_of))]
fn fault_of(insn: Insn, at: u32, behind: usize) -> Option<FilterError>
    ensures { result ≡ fault_of at behind insn }
{
    if is_code(insn.code) {
        fault(insn, at, behind)
    } else {
        Some(FilterError::BadCode(at))
    }
}

/// Whether a code is known.
#[tactic(auto, unfolding(crate::specs::Codes::codes))]
fn is_code(code: u16) -> bool
    ensures { result ≡ is_code code }
{
    matches!(
        code,
        0x00 | 0x20 | 0x28 | 0x30 | 0x40 | 0x48 | 0x50 | 0x60 | 0x80 | 0x87 // LD, TXA
            | 0x01 | 0x61 | 0x81 | 0xb1 | 0x07 // LDX, TAX
            | 0x04 | 0x14 | 0x24 | 0x34 | 0x44 | 0x54 | 0x64 | 0x74 | 0x84 | 0x94 | 0xa4 // ALU, by k
            | 0x0c | 0x1c | 0x2c | 0x3c | 0x4c | 0x5c | 0x6c | 0x7c | 0x9c | 0xac // ALU, by X
            | 0x15 | 0x25 | 0x35 | 0x45 | 0x1d | 0x2d | 0x3d | 0x4d // JMP, by k and by X
            | 0x02 | 0x03 | 0x05 | 0x06 | 0x16 // ST, STX, JA, RET
    )
}

/// The fault of an instruction whose code is known.
fn fault(insn: Insn, at: u32, behind: usize) -> Option<FilterError>
    ensures { result ≡ fault_of_known at behind insn }
{
    match insn.code {
        0x34 | 0x94 if insn.k == 0 => Some(FilterError::BadConstant(at)),
        0x64 | 0x74 if insn.k >= 32 => Some(FilterError::BadConstant(at)),
        0x60 | 0x61 | 0x02 | 0x03 if insn.k as usize >= WORDS => Some(FilterError::BadMemory(at)),
        0x20 | 0x28 | 0x30 if insn.k >= 0x8000_0000 && !is_ancillary(insn.k) => {
            Some(FilterError::BadAncillary(at))
        }
        0x05 if insn.k as usize >= behind => Some(FilterError::BadJump(at)),
        0x15 | 0x1d | 0x25 | 0x2d | 0x35 | 0x3d | 0x45 | 0x4d
            if usize::from(insn.jt) >= behind || usize::from(insn.jf) >= behind => {
            Some(FilterError::BadJump(at))
        }
        _ => None,
    }
}

/// Whether a program ends with a return.
fn ends_with_return(code: &[Insn]) -> bool
    ensures { result ≡ ends_with_return code.now }
{
    match code {
        [.., last] => last.code == 0x06 || last.code == 0x16,
        [] => false,
    }
}
