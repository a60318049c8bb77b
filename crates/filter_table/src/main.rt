//! Reads frames and filters, and prints the verdicts of each filter on all frames.
//!
//! A line `frame WIRE HEX` is a frame with its length on the wire and its captured bytes. A line
//! `facts PROTOCOL PKTTYPE QUEUE RXHASH CPU` has what ancillary loads give, for every frame and the
//! filters after the line; before it all are 0. A line `filter NAME` begins the text of a filter,
//! as `tcpdump -ddd` writes it, and a line `end` ends it.
#![tactic(auto)]

ghost use Rattle.std.specs.Prelude.{◌<◌};

use bpf_filter::{FilterError, Program, Seen, read_ddd};
use std::alloc::{AllocError, Global};
use std::io;
use text_lines::{next_word, number};

/// A frame as a capture has it.
#[derive(Drop)]
struct Sample {
    /// The length on the wire.
    wire: u32,
    /// The captured bytes.
    bytes: Vec<u8>,
}

/// What ancillary loads give, in the order of their line.
#[derive(Clone, Copy)]
struct Facts {
    protocol: u16,
    pkttype: u8,
    queue: u32,
    rxhash: u32,
    cpu: u32,
}

/// The facts before the first line of them.
const NO_FACTS: Facts = Facts {
    protocol: 0,
    pkttype: 0,
    queue: 0,
    rxhash: 0,
    cpu: 0,
};

fn main(rt: HostRuntime) -> io::Result<()> {
    let alloc = rt.alloc();
    let mut samples = Vec::new(alloc);
    let mut name = String::new(alloc);
    let mut text = Vec::new(alloc);
    let mut facts = NO_FACTS;
    for line in rt.lines(alloc) {
        let line = line?;
        if let Some(rest) = line.as_str().strip_prefix("frame ") {
            samples.push(frame_of(alloc, rest.as_bytes())?)?;
        } else if let Some(rest) = line.as_str().strip_prefix("facts ") {
            facts = facts_of(rest.as_bytes());
        } else if let Some(rest) = line.as_str().strip_prefix("filter ") {
            name = String::from_str(alloc, rest)?;
            text.clear();
        } else if line.as_str() == "end" {
            let answer = answers(alloc, text.as_slice(), facts, samples.as_slice())?;
            println!(rt; "{name}:{answer}")?;
        } else {
            text.extend_from_slice(line.as_bytes())?;
            text.push(b'\n')?;
        }
    }
    Ok(())
}

/// The frame of a line.
fn frame_of(alloc: Global, line: &[u8]) -> Result<Sample, AllocError> {
    let mut bytes = Vec::new(alloc);
    let mut wire = 0;
    if let Some((word, rest)) = next_word(line) {
        wire = number(word).unwrap_or(0);
        if let Some((digits, _)) = next_word(rest) {
            for pair in digits.chunks_exact(2) {
                bytes.push(nibble(pair[0]) * 16 + nibble(pair[1]))?;
            }
        }
    }
    Ok(Sample { wire, bytes })
}

/// The number in the first word of a line, 0 where there is none, and the line after it.
fn first_number(line: &[u8]) -> (u32, &[u8]) {
    match next_word(line) {
        Some((word, rest)) => (number(word).unwrap_or(0), rest),
        None => (0, line),
    }
}

/// The facts of a line.
fn facts_of(line: &[u8]) -> Facts {
    let (protocol, rest) = first_number(line);
    let (pkttype, rest) = first_number(rest);
    let (queue, rest) = first_number(rest);
    let (rxhash, rest) = first_number(rest);
    let (cpu, _) = first_number(rest);
    Facts {
        protocol: u16::try_from(protocol).unwrap_or(0),
        pkttype: u8::try_from(pkttype).unwrap_or(0),
        queue,
        rxhash,
        cpu,
    }
}

/// The value of a hexadecimal digit.
fn nibble(digit: u8) -> u8
    ensures { result < 16 }
{
    match digit {
        b'0'..=b'9' => digit - b'0',
        b'a'..=b'f' => digit - b'a' + 10,
        _ => 0,
    }
}

/// The verdicts of a filter's text, or why it is refused.
fn answers(
    alloc: Global,
    text: &[u8],
    facts: Facts,
    samples: &[Sample],
) -> Result<String, AllocError> {
    match program_of(alloc, text) {
        Ok(program) => verdicts(alloc, &program, facts, samples),
        Err(fault) => format!(in alloc; " {fault}"),
    }
}

fn program_of(alloc: Global, text: &[u8]) -> Result<Program, FilterError> {
    Program::check(alloc, read_ddd(alloc, text)?)
}

fn verdicts(
    alloc: Global,
    program: &Program,
    facts: Facts,
    samples: &[Sample],
) -> Result<String, AllocError> {
    let mut line = String::new(alloc);
    for sample in samples {
        let packet = Seen {
            bytes: sample.bytes.as_slice(),
            wire: sample.wire,
            protocol: facts.protocol,
            pkttype: facts.pkttype,
            queue: facts.queue,
            rxhash: facts.rxhash,
            cpu: facts.cpu,
        };
        let verdict = program.verdict(&packet);
        line.push_str(format!(in alloc; " {verdict}")?.as_str())?;
    }
    Ok(line)
}
