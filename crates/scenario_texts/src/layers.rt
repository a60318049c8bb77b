//! A scenario: its own lines, and those of the ones that it is like.
use crate::ScenarioLine;
use crate::words::{is_among, number, parted};
use frame_view::Memory;
use std::alloc::Global;

/// A scenario of a text.
#[derive(Clone, Copy)]
pub struct Scenario<'a> {
    /// Its name.
    pub name: ScenarioLine<'a>,
    /// Its own lines.
    pub(crate) own: &'a [ScenarioLine<'a>],
    /// Those of the scenario that it is like, if it is like one.
    pub(crate) base: &'a [ScenarioLine<'a>],
    /// Those of the scenario that this one is like, if it is like one.
    pub(crate) last: &'a [ScenarioLine<'a>],
}

/// The first of some lines that has a word.
pub(crate) fn first_line<'a>(
    lines: &'a [ScenarioLine<'a>],
    word: &str,
) -> Option<ScenarioLine<'a>> {
    for line in lines {
        if line.word == word {
            return Some(*line);
        }
    }
    None
}

impl<'a> Scenario<'a> {
    /// The lines among which those of a word stand: its own, if one of them has the word, otherwise
    /// those of the scenario that it is like.
    pub(crate) fn lines(&self, word: &str) -> &'a [ScenarioLine<'a>] {
        if first_line(self.own, word).is_some() {
            self.own
        } else if first_line(self.base, word).is_some() {
            self.base
        } else {
            self.last
        }
    }

    /// What the scenario's first line with a word says; empty if there is none.
    pub fn value(&self, word: &str) -> &'a str {
        match first_line(self.lines(word), word) {
            Some(line) => line.text,
            None => "",
        }
    }

    /// The number of the scenario's first line with a word, or of its name if there is none.
    pub fn number(&self, word: &str) -> usize {
        let line = first_line(self.lines(word), word);
        line.unwrap_or(self.name).number
    }

    /// Whether the scenario says something of a word.
    pub fn says(&self, word: &str) -> bool {
        !self.value(word).is_empty()
    }

    /// The lines with a word that say something.
    pub fn values(&self, alloc: Global, word: &str) -> Result<Vec<ScenarioLine<'a>>, Memory> {
        let mut values = Vec::new(alloc);
        for line in self.lines(word) {
            if line.word == word && !line.text.is_empty() {
                values.push(*line)?;
            }
        }
        Ok(values)
    }

    /// Whether a line with a word has another word.
    pub fn lists(&self, word: &str, other: &str) -> bool {
        for line in self.lines(word) {
            if line.word == word && is_among(line.text, other) {
                return true;
            }
        }
        false
    }

    /// What the scenario says after a word and a name, if it has such a line.
    pub(crate) fn after_name(&self, word: &str, name: &str) -> Option<&'a str> {
        for line in self.lines(word) {
            let (first, value) = parted(line.text);
            if line.word == word && first == name {
                return Some(value);
            }
        }
        None
    }

    /// What the scenario says after a word and a name; empty if it says nothing.
    pub fn value_named(&self, word: &str, name: &str) -> &'a str {
        self.after_name(word, name).unwrap_or("")
    }

    /// Whether the scenario says something of a name after a word.
    pub fn names(&self, word: &str, name: &str) -> bool {
        !self.value_named(word, name).is_empty()
    }

    /// The name and the words of the capture of a number, in the order of the scenario; empty if
    /// there are fewer.
    pub fn nth_capture(&self, capture: usize) -> (&'a str, &'a str) {
        let mut index: usize = 0;
        for line in self.lines("pcap") {
            if line.word == "pcap" && !line.text.is_empty() {
                if index == capture {
                    return parted(line.text);
                }
                index = index.saturating_add(1);
            }
        }
        ("", "")
    }

    /// The words of the frames that a saved frame may be: those of the capture of a number, or if
    /// none is given those that the scenario names, or otherwise those of the first capture.
    pub fn frame_words(&self, capture: &str) -> &'a str {
        let frames = self.value("frames");
        if capture.is_empty() && !frames.is_empty() {
            return frames;
        }
        let first = if capture.is_empty() {
            0
        } else {
            number(capture)
        };
        self.nth_capture(first).1
    }
}
