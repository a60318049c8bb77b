//! Whether the files after a command are as a scenario says.
use crate::cases::Case;
use crate::comparison::Wanted;
use frame_view::Memory;
use scenario_texts::{
    ScenarioLine, bytes_of, call_number, count_of, field_of, is_among, member_of, number,
    number_at, parted, word_at,
};
use tap_outside::MemStore;

/// The files after a command, and what is said of them.
#[derive(Clone, Copy)]
pub(crate) struct After<'a> {
    /// The run.
    pub(crate) case: Case<'a>,
    /// What it has to come to.
    pub(crate) wanted: Wanted<'a>,
    /// The files.
    pub(crate) files: &'a MemStore,
}

/// Whether these bytes are at a place.
fn has_at(bytes: &[u8], at: usize, part: &[u8]) -> bool {
    match bytes.split_at_checked(at) {
        Some((_, rest)) => rest.starts_with(part),
        None => false,
    }
}

/// What a dump is made of: where a part has its status and its length, and how many of its bytes
/// the length leaves out.
type DumpParts = (usize, usize, usize);

/// The slots of TPACKET_V2, each up to the end of its packet.
const SLOTS: DumpParts = (0, 8, 66);

/// The blocks of TPACKET_V3.
const BLOCKS: DumpParts = (8, 20, 0);

/// The bytes of a number of 32 bits in a dump.
fn field(value: usize) -> [u8; 4] {
    u32::try_from(value).unwrap_or(0).to_le_bytes()
}

/// The bytes after a part of the status and length that a word says; `None` where it isn't there.
fn after_part<'a>(bytes: &'a [u8], parts: DumpParts, word: &str) -> Option<&'a [u8]> {
    let (status, length) = word.split_once(':')?;
    let size = number(length);
    let (part, rest) = bytes.split_at_checked(size)?;
    let said = field(size.saturating_sub(parts.2));
    let is_so = has_at(part, parts.0, &field(number(status))) && has_at(part, parts.1, &said);
    if is_so { Some(rest) } else { None }
}

/// Appends a field that doesn't have the number that its line says.
fn push_other(
    text: &mut String,
    line: usize,
    (name, wanted): (&str, &str),
    found: Option<u64>,
) -> Result<(), Memory> {
    match found {
        Some(number) if number == call_number(wanted) => {}
        Some(number) => write!(text, "    {line:>6} ! {name} {wanted}: it is {number}\n")?,
        None => write!(text, "    {line:>6} ! {name} {wanted}: it isn't there\n")?,
    }
    Ok(())
}

/// Whether a dump consists of the parts of these words.
fn is_dump_of(dump: &[u8], parts: DumpParts, words: &str) -> bool {
    let mut rest = dump;
    for index in 0..count_of(words) {
        match after_part(rest, parts, word_at(words, index)) {
            Some(tail) => rest = tail,
            None => return false,
        }
    }
    rest.is_empty()
}

impl<'a> After<'a> {
    /// Whether a file isn't to be there, or need not be.
    fn is_absent(&self, name: &str) -> bool {
        self.case.scenario.lists("absent", name) || is_among(self.wanted.absent, name)
    }

    /// The most bytes of a file.
    fn part(&self, name: &str) -> usize {
        number(self.case.scenario.value_named("part", name))
    }

    /// Whether a file has these bytes, or as many of them as the scenario says; one that isn't to
    /// be there isn't compared.
    fn holds(&self, name: &str, bytes: &[u8]) -> bool {
        let front = bytes.get(..self.part(name)).unwrap_or(bytes);
        self.is_absent(name) || self.files.file(name.as_bytes()) == Some(front)
    }

    /// Whether a member's dump is there exactly where it is asked for, and is made of its blocks,
    /// or has as many bytes as the scenario says.
    fn holds_dump(&self, name: &str, blocks: &str) -> bool {
        let Some(dump) = self.files.file(name.as_bytes()) else {
            return !self.wanted.dump || self.is_absent(name);
        };
        let is_slots = self.case.scenario.value("run").starts_with("replay2");
        let parts = if is_slots { SLOTS } else { BLOCKS };
        let is_so = match self.part(name) {
            usize::MAX => is_dump_of(dump, parts, blocks),
            length => dump.len() == length,
        };
        self.is_absent(name) || self.wanted.dump && is_so
    }

    /// Whether the files of a member are as its line says.
    fn holds_member(&self, index: &str, value: &str) -> Result<bool, Memory> {
        let (_, kept, blocks) = member_of(value);
        let dumped = format!(in self.case.alloc; "out.{index}.blk")?;
        let is_dumped = self.holds_dump(dumped.as_str(), blocks);
        let saved = format!(in self.case.alloc; "out.{index}.pcap")?;
        Ok(is_dumped && self.holds_frames(saved.as_str(), kept, [1, 2_000])?)
    }

    /// Whether a file has the frames of these words, each of this time.
    fn holds_frames(&self, name: &str, words: &str, time: [u32; 2]) -> Result<bool, Memory> {
        let bytes = self.case.output(words, time)?;
        Ok(self.holds(name, bytes.as_slice()))
    }

    /// Whether a file has the bytes that a line says at a place. A file of blocks is compared if
    /// they are dumped.
    fn has_bytes(&self, name: &str, value: &str) -> Result<bool, Memory> {
        let (at, digits) = parted(value);
        let bytes = bytes_of(self.case.alloc, digits)?;
        let found = self.files.file(name.as_bytes()).unwrap_or(&[]);
        let is_compared = self.wanted.dump || !name.ends_with(".blk");
        let is_so = has_at(found, number(at), bytes.as_slice());
        Ok(!is_compared || is_among(self.wanted.absent, name) || is_so)
    }

    /// Whether no file of these names is there.
    fn has_none(&self, names: &str) -> bool {
        for name in names.split_whitespace() {
            if self.files.file(name.as_bytes()).is_some() {
                return false;
            }
        }
        true
    }

    /// Whether it is so what a line says of files.
    fn is_so(&self, word: &str, value: &str) -> Result<bool, Memory> {
        let (name, rest) = parted(value);
        match word {
            "member" => self.holds_member(name, rest),
            "sent" => self.holds_frames(name, rest, [0, 0]),
            "file" => self.has_bytes(name, rest),
            _ => Ok(self.has_none(value)),
        }
    }

    /// Appends the lines of a word that aren't so, each with its number.
    fn push_wrong_lines(&self, text: &mut String, word: &str) -> Result<(), Memory> {
        for line in self.case.scenario.values(self.case.alloc, word)?.as_slice() {
            if !self.is_so(word, line.text)? {
                write!(text, "    {:>6} ! {word} {}\n", line.number, line.text)?;
            }
        }
        Ok(())
    }

    /// The bytes of a file whose fields are compared; none if they aren't.
    fn compared(&self, name: &str) -> Option<&'a [u8]> {
        let is_dump = name.ends_with(".blk") && !self.wanted.dump;
        if is_dump || is_among(self.wanted.absent, name) {
            return None;
        }
        Some(self.files.file(name.as_bytes()).unwrap_or(&[]))
    }

    /// Appends the fields of a line that have other numbers in the bytes of its file, or aren't
    /// there.
    fn push_wrong_fields(&self, text: &mut String, line: &ScenarioLine<'a>) -> Result<(), Memory> {
        let (name, rest) = parted(line.text);
        let (at, rest) = parted(rest);
        let (layout, pairs) = parted(rest);
        let Some(bytes) = self.compared(name) else {
            return Ok(());
        };
        let mut words = pairs.split_whitespace();
        while let Some(name) = words.next() {
            let wanted = words.next().unwrap_or("");
            if let Some(field) = field_of(layout, name) {
                let found = number_at(bytes, number(at), &field);
                push_other(text, line.number, (name, wanted), found)?;
            }
        }
        Ok(())
    }

    /// Appends what is said of the files and isn't so.
    pub(crate) fn push_wrong(&self, text: &mut String) -> Result<(), Memory> {
        for word in ["member", "sent", "file", "absent"] {
            self.push_wrong_lines(text, word)?;
        }
        for line in self
            .case
            .scenario
            .values(self.case.alloc, "fields")?
            .as_slice()
        {
            self.push_wrong_fields(text, line)?;
        }
        if !self.has_none(self.wanted.absent) {
            write!(text, "           ! absent {}\n", self.wanted.absent)?;
        }
        Ok(())
    }
}
