//! The scenarios of a text.
use crate::layers::first_line;
use crate::{Scenario, ScenarioLine};
use frame_view::Memory;
use std::alloc::Global;

/// A scenario as its text has it.
#[derive(Clone, Copy)]
pub struct Paragraph<'a> {
    /// Its name.
    pub name: ScenarioLine<'a>,
    /// What its own lines say.
    pub lines: &'a [ScenarioLine<'a>],
}

/// The scenarios of a text.
#[derive(Drop)]
pub struct Document<'a> {
    /// Each of them, in order.
    pub paragraphs: Vec<Paragraph<'a>>,
}

/// How many lines come before the first one that is a name.
fn count_to_name(lines: &[ScenarioLine<'_>]) -> usize {
    for (count, line) in lines.iter().enumerate() {
        if line.word.is_empty() {
            return count;
        }
    }
    lines.len()
}

impl<'a> Paragraph<'a> {
    /// The scenario whose name is the line of an index.
    fn at(lines: &'a [ScenarioLine<'a>], index: usize, name: ScenarioLine<'a>) -> Paragraph<'a> {
        let (_, rest) = lines.split_at(index.saturating_add(1).min(lines.len()));
        let (lines, _) = rest.split_at(count_to_name(rest).min(rest.len()));
        Paragraph { name, lines }
    }

    /// Whether it is only a base for others.
    pub(crate) fn is_base(&self) -> bool {
        first_line(self.lines, "base").is_some()
    }
}

impl<'a> Document<'a> {
    /// The scenarios of the lines of a text.
    pub fn new(alloc: Global, lines: &'a [ScenarioLine<'a>]) -> Result<Document<'a>, Memory> {
        let mut paragraphs = Vec::new(alloc);
        for (index, line) in lines.iter().enumerate() {
            if line.word.is_empty() {
                paragraphs.push(Paragraph::at(lines, index, *line))?;
            }
        }
        Ok(Document { paragraphs })
    }

    /// The scenario of a name.
    pub(crate) fn named(&self, name: &str) -> Option<Paragraph<'a>> {
        for paragraph in self.paragraphs.as_slice() {
            if paragraph.name.text == name {
                return Some(*paragraph);
            }
        }
        None
    }

    /// The scenario that another one is like; that other one if it is like none.
    fn base_of(&self, paragraph: &Paragraph<'a>) -> Paragraph<'a> {
        let base = match first_line(paragraph.lines, "like") {
            Some(line) => self.named(line.text),
            None => None,
        };
        base.unwrap_or(*paragraph)
    }

    /// A scenario with the lines of those that it is like.
    pub(crate) fn scenario(&self, paragraph: &Paragraph<'a>) -> Scenario<'a> {
        let base = self.base_of(paragraph);
        Scenario {
            name: paragraph.name,
            own: paragraph.lines,
            base: base.lines,
            last: self.base_of(&base).lines,
        }
    }

    /// The scenarios that are carried out, and not only bases for others.
    pub fn scenarios(&self, alloc: Global) -> Result<Vec<Scenario<'a>>, Memory> {
        let mut scenarios = Vec::new(alloc);
        for paragraph in self.paragraphs.as_slice() {
            if !paragraph.is_base() {
                scenarios.push(self.scenario(paragraph))?;
            }
        }
        Ok(scenarios)
    }
}
