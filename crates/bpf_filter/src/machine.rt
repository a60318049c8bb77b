//! The machine that runs a program: its registers and its memory. The names beside the codes are
//! those of `linux/bpf_common.h` and `linux/filter.h`.
ghost use Rattle.std.specs.Prelude.{◌≡◌, ◌<◌, Some, if◌then◌else◌, true};
ghost use Rattle.bpf_filter.specs.Codes.{GoesOn, effect, left_shift, load_a, load_x, right_shift};
ghost use Rattle.bpf_filter.specs.Codes.{to_a, to_word};
ghost use Rattle.bpf_filter.specs.inside.Machines.{GoesFurther, is_calculation, next_of, state_of};
ghost use Rattle.bpf_filter.specs.Programs.{IsRunnable};
ghost use Rattle.bpf_filter.specs.PacketFacts.{PacketFacts, facts_of};
ghost use Rattle.bpf_filter.specs.Verdict.{first_state};

use crate::insn::Insn;
use crate::loads::{Size, absolute, behind_index, header_length};
use crate::packets::Seen;

/// The memory words of the machine (`BPF_MEMWORDS` of `linux/filter.h`).
pub(crate) const WORDS: usize = 16;

/// Where an instruction leads.
#[derive(Clone, Copy)]
pub(crate) enum Jump {
    /// The verdict is known.
    Answer(u32),
    /// The program goes on this many instructions after this one, at least one.
    Go(usize),
}

/// The registers and the memory words.
#[derive(Drop)]
pub(crate) struct Registers {
    /// The accumulator A.
    a: u32,
    /// The index register X.
    x: u32,
    /// The memory words.
    memory: [u32; WORDS],
}

impl Registers {
    /// The machine before the first instruction: every register and every word is 0. It is this
    /// project's own choice that words not written yet are 0.
    pub(crate) fn new() -> Registers
        ensures { state_of result ≡ first_state }
    {
        Registers {
            a: 0,
            x: 0,
            memory: [0; WORDS],
        }
    }

    /// Does one instruction, whose code is known.
    #[inline]
    #[tactic(auto, unfolding(crate::specs::Codes::codes))]
    pub(crate) fn perform(&mut self, insn: &Insn, packet: &Seen<'_>) -> Jump
        requires { IsRunnable insn.now }
        ensures next { next_of result self.new
            ≡ effect insn.now (facts_of packet.now) (state_of self.old) }
        ensures further { GoesFurther result }
    {
        let (k, a, x) = (insn.k, self.a, self.x);
        match insn.code {
            0x20 => self.load(absolute(Size::Word, k, packet)), // LD W ABS
            0x28 => self.load(absolute(Size::Half, k, packet)), // LD H ABS
            0x30 => self.load(absolute(Size::Byte, k, packet)), // LD B ABS
            0x40 => self.load(behind_index(Size::Word, x, k, packet)), // LD W IND
            0x48 => self.load(behind_index(Size::Half, x, k, packet)), // LD H IND
            0x50 => self.load(behind_index(Size::Byte, x, k, packet)), // LD B IND
            0x60 => self.load(Some(self.memory[k as usize])), // LD MEM
            0x80 => self.load(Some(packet.wire)), // LD LEN
            0x01 => self.load_index(Some(k)), // LDX IMM
            0x61 => self.load_index(Some(self.memory[k as usize])), // LDX MEM
            0x81 => self.load_index(Some(packet.wire)), // LDX LEN
            0xb1 => self.load_index(header_length(k, packet)), // LDX B MSH
            0x07 => self.load_index(Some(a)), // MISC TAX
            0x02 => self.store(k, a), // ST
            0x03 => self.store(k, x), // STX
            0x34 => self.load(a.checked_div(k)), // ALU DIV, by k and by X
            0x3c => self.load(a.checked_div(x)),
            0x94 => self.load(a.checked_rem(k)), // ALU MOD
            0x9c => self.load(a.checked_rem(x)),
            0x05 => Jump::Go(1 + k as usize), // JMP JA
            0x15 => branch(a == k, insn), // JMP JEQ, by k and by X
            0x1d => branch(a == x, insn),
            0x25 => branch(a > k, insn), // JMP JGT
            0x2d => branch(a > x, insn),
            0x35 => branch(a >= k, insn), // JMP JGE
            0x3d => branch(a >= x, insn),
            0x45 => branch(a & k != 0, insn), // JMP JSET
            0x4d => branch(a & x != 0, insn),
            0x06 => Jump::Answer(k), // RET K
            0x16 => Jump::Answer(a), // RET A
            _ => self.load(Some(self.calculated(insn))), // LD IMM, TXA, the rest of ALU
        }
    }

    /// The number that A takes by an instruction that computes it from k and the registers only,
    /// and always gives one.
    #[inline]
    #[tactic(auto, unfolding(crate::specs::Codes::codes))]
    fn calculated(&self, insn: &Insn) -> u32
        requires { is_calculation insn.now.code ≡ true }
        ensures { (p : PacketFacts) → effect insn.now p (state_of self.now)
            ≡ to_a result (state_of self.now) }
    {
        let (k, a, x) = (insn.k, self.a, self.x);
        match insn.code {
            0x00 => k, // LD IMM
            0x87 => x, // MISC TXA
            0x84 => a.wrapping_neg(), // ALU NEG
            0x04 => a.wrapping_add(k), // ALU ADD, by k and by X
            0x0c => a.wrapping_add(x),
            0x14 => a.wrapping_sub(k), // ALU SUB
            0x1c => a.wrapping_sub(x),
            0x24 => a.wrapping_mul(k), // ALU MUL
            0x2c => a.wrapping_mul(x),
            0x44 => a | k, // ALU OR
            0x4c => a | x,
            0x54 => a & k, // ALU AND
            0x5c => a & x,
            0x64 => shifted_left(a, k), // ALU LSH
            0x6c => shifted_left(a, x),
            0x74 => shifted_right(a, k), // ALU RSH
            0x7c => shifted_right(a, x),
            0xa4 => a ^ k, // ALU XOR
            0xac => a ^ x,
            _ => unreachable!(),
        }
    }

    /// A takes a number. Without one the verdict is 0.
    #[inline]
    fn load(&mut self, number: Option<u32>) -> Jump
        ensures next { next_of result self.new ≡ load_a number (state_of self.old) }
        ensures further { GoesFurther result }
    {
        match number {
            Some(number) => self.a = number,
            None => return Jump::Answer(0),
        }
        Jump::Go(1)
    }

    /// X takes a number. Without one the verdict is 0.
    #[inline]
    fn load_index(&mut self, number: Option<u32>) -> Jump
        ensures next { next_of result self.new ≡ load_x number (state_of self.old) }
        ensures further { GoesFurther result }
    {
        match number {
            Some(number) => self.x = number,
            None => return Jump::Answer(0),
        }
        Jump::Go(1)
    }

    /// A memory word takes a number.
    #[inline]
    fn store(&mut self, word: u32, number: u32) -> Jump
        requires { word < 16 }
        ensures next { next_of result self.new ≡ to_word word number (state_of self.old) }
        ensures further { GoesFurther result }
    {
        self.memory[word as usize] = number;
        Jump::Go(1)
    }
}

/// Where a test leads.
#[inline]
fn branch(holds: bool, insn: &Insn) -> Jump
    ensures next { (machine : Registers) → next_of result machine
        ≡ GoesOn (if holds then insn.now.jt else insn.now.jf) (state_of machine) }
    ensures further { GoesFurther result }
{
    Jump::Go(1 + usize::from(if holds { insn.jt } else { insn.jf }))
}

/// A number shifted left. A shift by 32 or more gives 0.
#[inline]
fn shifted_left(number: u32, by: u32) -> u32
    ensures { Some result ≡ left_shift number by }
{
    number.checked_shl(by).unwrap_or(0)
}

/// A number shifted right. A shift by 32 or more gives 0.
#[inline]
fn shifted_right(number: u32, by: u32) -> u32
    ensures { Some result ≡ right_shift number by }
{
    number.checked_shr(by).unwrap_or(0)
}
