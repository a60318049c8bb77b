//! The report that a scenario says, in the form in which it is compared.
use crate::cases::Case;
use frame_view::Memory;
use scenario_texts::{count_of, kept_of, member_of, number, parted};

/// How many frames the words of a member say.
fn frames_of(words: &str) -> usize {
    let mut count: usize = 0;
    for word in words.split_whitespace() {
        let (_, first, last, _) = kept_of(word);
        let more = last.saturating_sub(first).saturating_add(1);
        count = count.saturating_add(more);
    }
    count
}

/// Appends the line of a member to a report: its notes, and how many packets and blocks it read.
fn push_member(text: &mut String, value: &str) -> Result<(), Memory> {
    let (notes, kept, blocks) = member_of(value);
    let (packets, blocks) = (frames_of(kept), count_of(blocks));
    write!(text, "{notes} {packets} {blocks}\n")?;
    Ok(())
}

impl<'a> Case<'a> {
    /// Appends the line of a CPU to a report: its tries, and how many bytes its capture gives: all
    /// unless the scenario says how many.
    fn push_cpu(&self, text: &mut String, value: &str, cpu: usize) -> Result<(), Memory> {
        let (tries, given) = value.split_once(" given ").unwrap_or((value, ""));
        let tries = if tries == "-" { "" } else { tries };
        if given.is_empty() {
            let (name, _) = self.scenario.nth_capture(cpu);
            write!(text, "{tries} {}\n", self.capture(name)?.len())?;
        } else {
            write!(text, "{tries} {given}\n")?;
        }
        Ok(())
    }

    /// Appends the lines of the CPUs, or those of the members.
    fn push_lines(&self, text: &mut String, word: &str) -> Result<(), Memory> {
        let values = self.scenario.values(self.alloc, word)?;
        for (due, value) in values.as_slice().iter().enumerate() {
            let (index, value) = parted(value.text);
            if number(index) != due {
                write!(text, "not {word} {due}: ")?;
            }
            if word == "cpu" {
                self.push_cpu(text, value, due)?;
            } else {
                push_member(text, value)?;
            }
        }
        Ok(())
    }

    /// The text of the report that is said, as `report_text` gives it; empty where none is said.
    pub(crate) fn report(&self) -> Result<String, Memory> {
        let mut text = String::new(self.alloc);
        self.push_lines(&mut text, "cpu")?;
        self.push_lines(&mut text, "member")?;
        Ok(text)
    }
}
