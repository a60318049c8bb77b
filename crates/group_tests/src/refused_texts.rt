//! Texts at the edges of the form of `tcpdump -ddd`, and programs of the most instructions.
use crate::verdicts::{judged, packet};
use bpf_filter::{FilterError, Insn, Program, read_ddd};
use std::test::Fail;

/// Texts at the edges of the form, with the fault of each that is refused, and the verdict of each
/// that isn't.
static TEXTS: [(&str, Result<u32, FilterError>); 37] = [
    // the last instruction isn't a return
    ("1\n0 0 0 5\n", Err(FilterError::NoReturn)),
    ("2\n52 0 0 0\n6 0 0 0\n", Err(FilterError::BadConstant(0))),
    ("2\n5 0 0 1\n6 0 0 0\n", Err(FilterError::BadJump(0))),
    ("2\n2 0 0 16\n6 0 0 0\n", Err(FilterError::BadMemory(0))),
    ("2\n6 0 0 0\n", Err(FilterError::BadCount)),
    ("1\n255 0 0 0\n", Err(FilterError::BadCode(0))),
    (
        "2\n32 0 0 4294963220\n6 0 0 0\n",
        Err(FilterError::BadAncillary(0)),
    ),
    // no line, only blank lines, a count of 0
    ("", Err(FilterError::BadCount)),
    ("\n \t\n", Err(FilterError::BadCount)),
    ("0\n", Err(FilterError::BadCount)),
    // blank lines before the end
    ("\n1\n6 0 0 0\n", Err(FilterError::BadLine(1))),
    ("2\n6 0 0 0\n\n \t\n6 0 0 0\n", Err(FilterError::BadLine(3))),
    ("1\n6 0 0 9\n\n \t\n", Ok(9)),
    // a bad line comes before the count, and the count before a bad instruction
    ("9\n6 0 0\n", Err(FilterError::BadLine(2))),
    ("2\n255 0 0 0\n", Err(FilterError::BadCount)),
    // counts of eleven digits and of ten
    ("00000000001\n6 0 0 0\n", Err(FilterError::BadLine(1))),
    ("4294967295\n6 0 0 0\n", Err(FilterError::BadCount)),
    ("0000000001\n6 0 0 8\n", Ok(8)),
    // fields out of their range, too few and too many
    ("1\n65536 0 0 0\n", Err(FilterError::BadLine(2))),
    ("1\n6 256 0 0\n", Err(FilterError::BadLine(2))),
    ("1\n6 0 256 0\n", Err(FilterError::BadLine(2))),
    ("1\n6 0 0 4294967296\n", Err(FilterError::BadLine(2))),
    ("1\n6 0 0 0 0\n", Err(FilterError::BadLine(2))),
    ("1 1\n6 0 0 0\n", Err(FilterError::BadLine(1))),
    ("1\n6 0 0 -1\n", Err(FilterError::BadLine(2))),
    // carriage returns, tabs and a last line without its line feed
    ("1\r\n\t6  255 255 0000000096 ", Ok(96)),
    ("1\n6 0 0 0\r", Err(FilterError::BadLine(2))),
    // the first instruction with a fault
    ("3\n0 0 0 0\n0 0 0 0\n6 0 0 7\n", Ok(7)),
    (
        "3\n100 0 0 32\n255 0 0 0\n6 0 0 0\n",
        Err(FilterError::BadConstant(0)),
    ),
    (
        "3\n100 0 0 31\n255 0 0 0\n6 0 0 0\n",
        Err(FilterError::BadCode(1)),
    ),
    (
        "3\n97 0 0 16\n255 0 0 0\n6 0 0 0\n",
        Err(FilterError::BadMemory(0)),
    ),
    (
        "2\n48 0 0 2147483648\n6 0 0 1\n",
        Err(FilterError::BadAncillary(0)),
    ),
    ("2\n48 0 0 2147483647\n6 0 0 1\n", Ok(0)),
    // jumps of the last instruction, and past it
    ("1\n5 0 0 0\n", Err(FilterError::BadJump(0))),
    ("2\n21 0 1 0\n6 0 0 0\n", Err(FilterError::BadJump(0))),
    ("2\n21 1 0 0\n6 0 0 0\n", Err(FilterError::BadJump(0))),
    ("2\n21 0 0 0\n6 0 0 5\n", Ok(5)),
];

#[test]
fn names_the_first_fault(rt: HostRuntime) {
    let packet = packet(&[]);
    for (text, answer) in &TEXTS {
        let found = judged(rt.alloc(), text, &packet);
        assert_eq!(rt; (*text, found), (*text, *answer));
    }
}

#[test]
fn bounds_texts(rt: HostRuntime) -> Result<(), Fail> {
    let mut text = vec![in rt.alloc(); b'\n'; 1_048_576]?;
    assert_eq!(rt;
        read_ddd(rt.alloc(), &text).err(),
        Some(FilterError::BadCount)
    );
    text.push(b'\n')?;
    assert_eq!(rt;
        read_ddd(rt.alloc(), &text).err(),
        Some(FilterError::TooLarge)
    );
    Ok(())
}

#[test]
fn accepts_4096_instructions_and_no_more(rt: HostRuntime) -> Result<(), Fail> {
    let last = Insn {
        code: 0x06,
        jt: 0,
        jf: 0,
        k: 3,
    };
    for (count, fault) in [(4096, None), (4097, Some(FilterError::BadCount))] {
        let code = vec![in rt.alloc(); last; count]?;
        let found = Program::check(rt.alloc(), code).err();
        assert_eq!(rt; (count, found), (count, fault));
    }
    Ok(())
}
