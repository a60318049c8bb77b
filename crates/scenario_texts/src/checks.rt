//! What is wrong with the scenarios of a text.
use crate::documents::Paragraph;
use crate::forms::{SETUP_WORDS, WORDS, check_value};
use crate::layers::first_line;
use crate::mistakes::{Mistake, Slip};
use crate::words::{count_of, is_among, kept_of, member_of, number, parted};
use crate::{Document, Scenario, ScenarioLine};

/// Each byte of some words is printable ASCII.
fn check_bytes(words: &str) -> Result<(), Slip<'_>> {
    for byte in words.bytes() {
        if !matches!(byte, b' '..=b'~') {
            return Err(Slip::Byte(byte));
        }
    }
    Ok(())
}

/// A line begins with a known word, and what follows has the form of that word.
fn check_line<'a>(line: &ScenarioLine<'a>) -> Result<(), Slip<'a>> {
    check_bytes(line.word)?;
    check_bytes(line.text)?;
    if !is_among(WORDS, line.word) {
        return Err(Slip::Word(line.word));
    }
    check_value(line.word, line.text)
}

/// What may stand only once in a scenario: a word of which only the first line counts, or such a
/// word and a name; `None` for the other words.
fn key_of<'a>(line: &ScenarioLine<'a>) -> Option<&'a str> {
    match line.word {
        "like" | "run" | "plain" | "status" | "taken" | "report" | "frames" => Some(""),
        "bytes"
        | "tail"
        | "pcap"
        | "cut"
        | "endless"
        | "pieces"
        | "part"
        | "sent"
        | "fail"
        | "half"
        | "faults"
        | "poor" => Some(parted(line.text).0),
        _ => None,
    }
}

/// None of these lines says what another one would say that comes after them.
fn check_key<'a>(before: &'a [ScenarioLine<'a>], line: &ScenarioLine<'a>) -> Result<(), Slip<'a>> {
    let Some(key) = key_of(line) else {
        return Ok(());
    };
    for other in before {
        if other.word == line.word && key_of(other) == Some(key) {
            return Err(Slip::Again(line.word, key, other.number));
        }
    }
    Ok(())
}

/// Each of some words that names the first bytes of a frame has them in these lines.
fn check_fronts<'a>(scenario: &Scenario<'a>, words: &'a str) -> Result<(), Slip<'a>> {
    for word in words.split_whitespace() {
        let (name, _) = word.split_once(':').unwrap_or(("", ""));
        if !name.is_empty() && scenario.after_name("bytes", name).is_none() {
            return Err(Slip::Front(name, *scenario));
        }
    }
    Ok(())
}

/// Each frame that these words keep is a frame of its capture.
fn check_kept<'a>(scenario: &Scenario<'a>, words: &'a str) -> Result<(), Slip<'a>> {
    for word in words.split_whitespace() {
        let (capture, _, last, _) = kept_of(word);
        let count = count_of(scenario.frame_words(capture));
        if last >= count {
            return Err(Slip::Frame(word, count));
        }
    }
    Ok(())
}

impl<'a> Paragraph<'a> {
    /// Each of its lines has the form of its word, and stands once where only one counts.
    fn check_lines(&self) -> Result<(), Mistake<'a>> {
        for (index, line) in self.lines.iter().enumerate() {
            line.checked(check_line(line))?;
            let (before, _) = self.lines.split_at(index);
            line.checked(check_key(before, line))?;
        }
        Ok(())
    }
}

impl<'a> Scenario<'a> {
    /// The CPUs or the members are 0, 1 and so on.
    fn check_order(&self, word: &'static str) -> Result<(), Mistake<'a>> {
        let mut due: usize = 0;
        for line in self.lines(word) {
            let (index, _) = parted(line.text);
            if line.word == word && !index.is_empty() {
                if number(index) != due {
                    return line.mistake(Slip::Order(word, index, due));
                }
                due = due.saturating_add(1);
            }
        }
        Ok(())
    }

    /// The lines of the setup begin with known words, or are comments.
    fn check_setup(&self, word: &str) -> Result<(), Mistake<'a>> {
        for line in self.lines(word) {
            let (setup, _) = parted(line.text);
            let is_known = setup.is_empty() || is_among(SETUP_WORDS, setup);
            if line.word == word && !is_known && !setup.starts_with('#') {
                return line.mistake(Slip::Setup(setup));
            }
        }
        Ok(())
    }

    /// Whether a line with a word may name this file.
    fn may_name(&self, word: &str, name: &str) -> bool {
        let is_text = is_among("conf f.ddd sched t.txt", name);
        let is_raw = self.after_name("raw", name).is_some();
        let is_pcap = self.after_name("pcap", name).is_some();
        match word {
            _ if name.is_empty() => true,
            "tail" => is_pcap && !is_raw,
            "cut" | "endless" => is_pcap || is_raw,
            "pieces" => is_pcap || is_raw || is_text,
            "fail" => is_pcap || is_raw || is_text || is_among("fetch save write", name),
            _ => true,
        }
    }

    /// The files that its own lines name are there.
    fn check_files(&self) -> Result<(), Mistake<'a>> {
        for line in self.own {
            let (name, _) = parted(line.text);
            if !self.may_name(line.word, name) {
                return line.mistake(Slip::File(name, *self));
            }
        }
        Ok(())
    }

    /// What a line names of the scenario is there.
    fn check_names(&self, line: &ScenarioLine<'a>) -> Result<(), Slip<'a>> {
        let (_, rest) = parted(line.text);
        match line.word {
            "pcap" => check_fronts(self, rest),
            "frames" => check_fronts(self, line.text),
            "sent" => check_kept(self, rest),
            "member" => check_kept(self, member_of(rest).1),
            _ => Ok(()),
        }
    }

    /// What the lines of a word name of the scenario is there.
    fn check_named(&self, word: &str) -> Result<(), Mistake<'a>> {
        for line in self.lines(word) {
            if line.word == word {
                line.checked(self.check_names(line))?;
            }
        }
        Ok(())
    }

    /// What its lines say together is right.
    fn check(&self) -> Result<(), Mistake<'a>> {
        self.check_order("cpu")?;
        self.check_order("member")?;
        let (status, _) = parted(self.value("status"));
        if !is_among("1 2", status) {
            self.check_setup("conf")?;
            self.check_setup("with")?;
        }
        self.check_files()?;
        for word in ["pcap", "frames", "sent", "member"] {
            self.check_named(word)?;
        }
        Ok(())
    }
}

impl<'a> Document<'a> {
    /// No scenario has the name of one before, and each name begins its line.
    fn check_name(&self, name: &ScenarioLine<'a>) -> Result<(), Mistake<'a>> {
        line_begins(name)?;
        match self.named(name.text) {
            Some(first) if first.name.number != name.number => {
                name.mistake(Slip::Twice(name.text, first.name.number))
            }
            _ => Ok(()),
        }
    }

    /// The scenario that another one is like is there, and is like none that is like a further one.
    fn check_like(&self, paragraph: &Paragraph<'a>) -> Result<(), Mistake<'a>> {
        let Some(like) = first_line(paragraph.lines, "like") else {
            return Ok(());
        };
        let Some(base) = self.named(like.text) else {
            return like.mistake(Slip::Base(like.text));
        };
        let Some(further) = first_line(base.lines, "like") else {
            return Ok(());
        };
        match self.named(further.text) {
            Some(last) if first_line(last.lines, "like").is_some() => {
                like.mistake(Slip::Steps(paragraph.name.text, like.text))
            }
            _ => Ok(()),
        }
    }

    /// The first thing that is wrong with the text: with the names of scenarios, with their lines,
    /// or with what these say together.
    pub fn check(&self) -> Result<(), Mistake<'a>> {
        let paragraphs = self.paragraphs.as_slice();
        for paragraph in paragraphs {
            self.check_name(&paragraph.name)?;
        }
        for paragraph in paragraphs {
            paragraph.check_lines()?;
            self.check_like(paragraph)?;
        }
        for paragraph in paragraphs {
            if !paragraph.is_base() {
                self.scenario(paragraph).check()?;
            }
        }
        Ok(())
    }
}

/// A name begins its line, and is printable.
fn line_begins<'a>(name: &ScenarioLine<'a>) -> Result<(), Mistake<'a>> {
    if name.text.starts_with(' ') {
        return name.mistake(Slip::Name);
    }
    name.checked(check_bytes(name.text))
}
