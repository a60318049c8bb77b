//! What is wrong with a text, as a sentence.
ghost use Rattle.std.specs.Prelude.{◌≡◌, false, is_ok, IfErr};

use crate::fields::{STRUCTS, rows_of};
use crate::forms::{SETUP_WORDS, WORDS, WordForm};
use crate::spelling::{push_meant, push_near};
use crate::words::parted;
use crate::{Document, Scenario, ScenarioLine};
use frame_view::Memory;
use std::alloc::Global;

/// What is wrong with a text.
#[derive(Clone, Copy)]
pub enum Slip<'a> {
    /// A byte that isn't printable ASCII.
    Byte(u8),
    /// The name of a scenario begins with a blank.
    Name,
    /// The name of a scenario stands in this line already.
    Twice(&'a str, usize),
    /// No line of a scenario begins with this word.
    Word(&'a str),
    /// A line of a word, or of a word and a name, stands in this line already.
    Again(&'a str, &'a str, usize),
    /// A word that isn't of the kind that is due.
    Value(&'a str, WordForm),
    /// A word is missing that is of this kind.
    Lacking(WordForm),
    /// A word that is one too many.
    Further(&'a str),
    /// A word that isn't one of these.
    Other(&'a str, &'static str),
    /// A struct has no fields here.
    Struct(&'a str),
    /// A struct doesn't have this field.
    Field(&'a str, &'a str),
    /// A field has no value.
    Valueless(&'a str),
    /// A field has too few bytes for a number.
    TooGreat(&'a str, usize, &'a str),
    /// There is no scenario of this name.
    Base(&'a str),
    /// A scenario is like another one in three steps.
    Steps(&'a str, &'a str),
    /// A CPU or a member stands where another one is due.
    Order(&'static str, &'a str, usize),
    /// A setup has no such word.
    Setup(&'a str),
    /// The scenario has no such file that may stand here.
    File(&'a str, Scenario<'a>),
    /// No line `bytes` of the scenario has this name.
    Front(&'a str, Scenario<'a>),
    /// There is no frame of this index.
    Frame(&'a str, usize),
}

/// What is wrong with a text, and in which line.
#[derive(Clone, Copy)]
pub struct Mistake<'a> {
    /// The number of the line, from 1.
    pub line: usize,
    /// What is wrong with it.
    pub slip: Slip<'a>,
}

impl<'a> ScenarioLine<'a> {
    /// A mistake in this line.
    pub(crate) fn mistake(&self, slip: Slip<'a>) -> Result<(), Mistake<'a>>
        ensures line { IfErr result (λ mistake. mistake.line ≡ self.now.number) }
        ensures err { is_ok result ≡ false }
    {
        let line = self.number;
        Err(Mistake { line, slip })
    }

    /// What is wrong, if something is, as a mistake in this line.
    pub(crate) fn checked(&self, found: Result<(), Slip<'a>>) -> Result<(), Mistake<'a>>
        ensures line { IfErr result (λ mistake. mistake.line ≡ self.now.number) }
        ensures ok { is_ok result ≡ is_ok found.entry }
    {
        match found {
            Ok(()) => Ok(()),
            Err(slip) => self.mistake(slip),
        }
    }
}

/// Appends what is wrong with a word.
fn push_word(text: &mut String, slip: &Slip<'_>) -> Result<(), Memory> {
    match slip {
        Slip::Byte(byte) => write!(text, "the byte {byte} is no printable ASCII")?,
        Slip::Name => write!(
            text,
            "a scenario begins with its name, without a blank before it"
        )?,
        Slip::Value(word, kind) => write!(text, "\"{word}\" is no {}", kind.what())?,
        Slip::Lacking(kind) => write!(text, "the line lacks a {}", kind.what())?,
        Slip::Further(words) => write!(text, "\"{words}\" is too much")?,
        Slip::Other(word, words) => write!(text, "\"{word}\" is none of: {words}")?,
        Slip::Valueless(field) => write!(text, "the field {field} has no value")?,
        _ => {}
    }
    Ok(())
}

/// Appends what is wrong with a number, or with the place of a line.
fn push_place(text: &mut String, slip: &Slip<'_>) -> Result<(), Memory> {
    match slip {
        Slip::Twice(name, line) => write!(
            text,
            "the name \"{name}\" stands at line {line} already"
        )?,
        Slip::Again(word, "", line) => write!(text, "\"{word}\" stands at line {line} already")?,
        Slip::Again(word, name, line) => {
            write!(text, "\"{word} {name}\" stands at line {line} already")?;
        }
        Slip::TooGreat(field, 1, number) => {
            write!(text, "{field} has 1 byte, too few for {number}")?;
        }
        Slip::TooGreat(field, size, number) => {
            write!(text, "{field} has {size} bytes, too few for {number}")?;
        }
        Slip::Steps(name, base) => write!(
            text,
            "\"{name}\" is like \"{base}\" in three steps, and two are allowed"
        )?,
        Slip::Order(word, found, due) => {
            write!(
                text,
                "\"{word} {found}\" stands where \"{word} {due}\" is due"
            )?;
        }
        Slip::Frame(word, count) => {
            write!(text, "\"{word}\" is kept of {count} frames, from 0 on")?;
        }
        _ => {}
    }
    Ok(())
}

/// Appends a question that names the first field of a struct that is near, where one is.
fn push_near_field(
    alloc: Global,
    text: &mut String,
    layout: &str,
    name: &str,
) -> Result<(), Memory> {
    let (rows, address, _) = rows_of(layout);
    for (other, _, _, _) in rows {
        if push_meant(alloc, text, name, other)? {
            return Ok(());
        }
    }
    for (other, _, _, _) in address {
        if push_meant(alloc, text, name, other)? {
            return Ok(());
        }
    }
    Ok(())
}

/// Appends a question that names the first name after a word in these lines that is near; gives
/// whether one is.
fn push_near_name(
    alloc: Global,
    text: &mut String,
    lines: &[ScenarioLine<'_>],
    (word, name): (&str, &str),
) -> Result<bool, Memory> {
    for line in lines {
        let (first, _) = parted(line.text);
        if line.word == word && push_meant(alloc, text, name, first)? {
            return Ok(true);
        }
    }
    Ok(false)
}

/// Appends a question that names the first file of a scenario that is near, or else the first kind
/// of calls, where one is.
fn push_near_file(
    alloc: Global,
    text: &mut String,
    scenario: &Scenario<'_>,
    name: &str,
) -> Result<(), Memory> {
    for word in ["pcap", "raw"] {
        if push_near_name(alloc, text, scenario.lines(word), (word, name))? {
            return Ok(());
        }
    }
    push_near(alloc, text, name, "conf f.ddd sched t.txt fetch save write")
}

impl<'a> Document<'a> {
    /// Appends a question that names the first scenario that is near, where one is.
    fn push_near_scenario(
        &self,
        alloc: Global,
        text: &mut String,
        name: &str,
    ) -> Result<(), Memory> {
        for paragraph in self.paragraphs.as_slice() {
            if push_meant(alloc, text, name, paragraph.name.text)? {
                return Ok(());
            }
        }
        Ok(())
    }

    /// Appends what isn't known, with a question where something near is.
    fn push_unknown(
        &self,
        alloc: Global,
        text: &mut String,
        slip: &Slip<'a>,
    ) -> Result<(), Memory> {
        match slip {
            Slip::Word(word) => {
                write!(text, "\"{word}\" is no word of a scenario")?;
                push_near(alloc, text, word, WORDS)
            }
            Slip::Setup(word) => {
                write!(text, "\"{word}\" is no word of a setup")?;
                push_near(alloc, text, word, SETUP_WORDS)
            }
            Slip::Struct(name) => {
                write!(text, "\"{name}\" is no struct")?;
                push_near(alloc, text, name, STRUCTS)
            }
            Slip::Field(layout, name) => {
                write!(text, "\"{name}\" is no field of {layout}")?;
                push_near_field(alloc, text, layout, name)
            }
            Slip::Base(name) => {
                write!(text, "there is no scenario \"{name}\"")?;
                self.push_near_scenario(alloc, text, name)
            }
            Slip::File(name, scenario) => {
                write!(text, "\"{name}\" is no file that may stand here")?;
                push_near_file(alloc, text, scenario, name)
            }
            Slip::Front(name, scenario) => {
                write!(text, "no line \"bytes\" has the name \"{name}\"")?;
                push_near_name(alloc, text, scenario.lines("bytes"), ("bytes", name))?;
                Ok(())
            }
            _ => Ok(()),
        }
    }

    /// Appends the sentence that says what is wrong.
    pub fn push_sentence(
        &self,
        alloc: Global,
        text: &mut String,
        slip: &Slip<'a>,
    ) -> Result<(), Memory> {
        push_word(text, slip)?;
        push_place(text, slip)?;
        self.push_unknown(alloc, text, slip)
    }
}
