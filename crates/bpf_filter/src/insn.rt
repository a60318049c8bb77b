//! One instruction as numbers.

/// One instruction of a classic BPF program, field by field as `struct sock_filter` of
/// `linux/filter.h`.
#[derive(Clone, Copy, Debug, PartialEq, Eq)]
pub struct Insn {
    /// What to do: the sum of the numbers of `linux/bpf_common.h` for class, size or operation, and
    /// mode or source.
    pub code: u16,
    /// How many instructions a jump skips if its test holds.
    pub jt: u8,
    /// How many instructions a jump skips if its test fails.
    pub jf: u8,
    /// The number that the code takes: a place in the packet, a constant, a memory word or a jump's
    /// length.
    pub k: u32,
}
