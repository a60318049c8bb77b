//! How a scenario's run differs from what the scenario says.
use crate::cases::{Case, is_dumped_too};
use crate::gates::ScriptGate;
use crate::runs::{Answer, ScenarioRan, is_on_threads};
use crate::saved::After;
use frame_view::Memory;
use scenario_texts::{ScenarioLine, number, push_diff, repeated_line};
use std::sync::Wait;
use std::thread::Threads;

/// What is expected of a report.
#[derive(Clone, Copy)]
pub(crate) enum Reported {
    /// What the scenario says.
    Said,
    /// That there is one.
    Any,
    /// That there is none.
    Absent,
}

/// The expected result of a run.
#[derive(Clone, Copy)]
pub(crate) struct Wanted<'a> {
    /// How the status begins.
    pub(crate) status: &'a str,
    /// The lines of which these bytes are printed; where memory runs out one more line follows.
    pub(crate) lines: &'a str,
    /// How many of their bytes are printed at most.
    pub(crate) taken: usize,
    /// What is expected of the report.
    pub(crate) reported: Reported,
    /// Names of files that don't exist, besides those that the scenario says.
    pub(crate) absent: &'a str,
    /// Whether blocks were dumped.
    pub(crate) dump: bool,
    /// Whether a capture can't be read to its end, so that the counts of the lines and the files
    /// are others than the scenario says.
    pub(crate) is_cut: bool,
}

impl<'a> Wanted<'a> {
    /// The lines as far as they are printed.
    fn front(&self) -> &'a str {
        self.lines.get(..self.taken).unwrap_or(self.lines)
    }
}

/// How often a line of a report or a printed one stands there.
fn times_of(line: &ScenarioLine<'_>) -> usize {
    match line.word {
        ">" => repeated_line(line.text).1,
        _ => 1,
    }
}

/// Whether lines have these words, of which a star is any one.
fn are_words(lines: &str, words: &str) -> bool {
    let mut found = lines.split_whitespace();
    for word in words.split_whitespace() {
        match found.next() {
            Some(other) if word == "*" || word == other => {}
            _ => return false,
        }
    }
    found.next().is_none()
}

/// The number after a word of a line; 0 if the line doesn't have the word.
fn number_after(line: &str, word: &str) -> u64 {
    let (_, rest) = line.split_once(word).unwrap_or(("", ""));
    let number = rest.split(' ').next().unwrap_or("");
    number.parse::<u64>().unwrap_or(0)
}

/// Whether lines are those of a run in which a capture can't be read to its end: the frames that
/// arrived were filtered, kept or dropped.
fn are_cut(lines: &str) -> bool {
    let last = lines.lines().last().unwrap_or("");
    let passed = number_after(last, " kept ").saturating_add(number_after(last, " drops "));
    let arrived = number_after(last, " filtered ").saturating_add(passed);
    lines.contains(" end fault\n") && number_after(last, " arrivals ") == arrived
}

/// What was printed, or the lines that are wanted where it counts as these: with any word for a
/// star, and other counts where a capture can't be read to its end.
fn counted_as<'a>(printed: &'a str, wanted: &Wanted<'a>) -> &'a str {
    let is_any = wanted.lines.contains('*') && are_words(printed, wanted.lines);
    let is_such = is_any || wanted.is_cut && are_cut(printed);
    if is_such && printed.lines().count() == wanted.lines.lines().count() {
        wanted.lines
    } else {
        printed
    }
}

impl<'a> Case<'a> {
    /// What the scenario says that the run comes to, whose lines these are.
    pub(crate) fn wanted(&self, lines: &'a str) -> Result<Wanted<'a>, Memory> {
        let status = self.scenario.value("status");
        Ok(Wanted {
            status: if status.is_empty() { "0 Fine" } else { status },
            lines,
            taken: number(self.scenario.value("taken")),
            reported: match self.scenario.value("report") {
                "any" => Reported::Any,
                _ if status.starts_with('7') => Reported::Absent,
                _ => Reported::Said,
            },
            absent: "",
            dump: self.is_dumped()?,
            is_cut: false,
        })
    }

    /// What the run has to come to, as one text.
    fn wanted_text(&self, wanted: &Wanted<'_>) -> Result<String, Memory> {
        let mut text = format!(in self.alloc; "{}\n{}", wanted.status, wanted.front())?;
        if wanted.status.starts_with('7') {
            text.push_str("out of memory\n")?;
        }
        match wanted.reported {
            Reported::Said => text.push_str(self.report()?.as_str())?,
            Reported::Any => text.push_str("any\n")?,
            Reported::Absent => {}
        }
        Ok(text)
    }

    /// Appends the number of each line with a word, as often as the line is repeated.
    fn push_numbers(&self, numbers: &mut Vec<usize>, word: &str) -> Result<(), Memory> {
        for line in self.scenario.values(self.alloc, word)?.as_slice() {
            for _ in 0..times_of(line) {
                numbers.push(line.number)?;
            }
        }
        Ok(())
    }

    /// The numbers of the lines that say each line of what the run has to come to. In a sweep the
    /// scenario doesn't say them itself, so there are none.
    fn line_numbers(&self, wanted: &Wanted<'_>) -> Result<Vec<usize>, Memory> {
        let mut numbers = Vec::new(self.alloc);
        if !self.fault.is_whole() {
            return Ok(numbers);
        }
        numbers.push(self.scenario.number("status"))?;
        self.push_numbers(&mut numbers, ">")?;
        numbers.truncate(wanted.front().split('\n').count());
        match wanted.reported {
            Reported::Said => {
                self.push_numbers(&mut numbers, "cpu")?;
                self.push_numbers(&mut numbers, "member")?;
            }
            Reported::Any => numbers.push(self.scenario.number("report"))?,
            Reported::Absent => {}
        }
        Ok(numbers)
    }

    /// What the run came to, in the same form: of the status as many bytes as are said; on threads
    /// without the letters of ticks that found nothing to do, which may come anywhere between other
    /// notes.
    fn found_text(
        &self,
        wanted: &Wanted<'_>,
        answer: &Answer,
        printed: &str,
    ) -> Result<String, Memory> {
        let status = answer.status.as_str();
        let status = status.get(..wanted.status.len()).unwrap_or(status);
        let lines = counted_as(printed, wanted);
        let mut text = format!(in self.alloc; "{status}\n{lines}")?;
        let report = match wanted.reported {
            Reported::Any if !answer.report.is_empty() => "any\n",
            _ => answer.report.as_str(),
        };
        let is_left_out = is_on_threads(&self.scenario);
        for piece in report.split(if is_left_out { 't' } else { '\0' }) {
            text.push_str(piece)?;
        }
        Ok(text)
    }

    /// Appends what differs of an answer, and of what was printed.
    pub(crate) fn push_wrong_answer(
        &self,
        text: &mut String,
        wanted: &Wanted<'_>,
        (answer, printed): (&Answer, &str),
    ) -> Result<(), Memory> {
        let wanted_text = self.wanted_text(wanted)?;
        let found = self.found_text(wanted, answer, printed)?;
        if wanted_text.as_str() != found.as_str() {
            let numbers = self.line_numbers(wanted)?;
            push_diff(
                text,
                numbers.as_slice(),
                wanted_text.as_str(),
                found.as_str(),
            )?;
        }
        Ok(())
    }

    /// Appends what differs of a run.
    pub(crate) fn push_wrong(
        &self,
        text: &mut String,
        wanted: &Wanted<'_>,
        ran: &ScenarioRan,
    ) -> Result<(), Memory> {
        self.push_wrong_answer(text, wanted, (&ran.answer, ran.printed.as_str()))?;
        if wanted.is_cut {
            return Ok(());
        }
        let after = After {
            case: *self,
            wanted: *wanted,
            files: &ran.files,
        };
        after.push_wrong(text)
    }

    /// Carries the scenario out with a gate, and appends how the run differs from it.
    fn push_run<R>(&self, rt: &R, text: &mut String) -> Result<(), Memory>
    where
        R: Threads + Wait + Sync,
    {
        let gate = ScriptGate::new(self)?;
        let lines = self.text(">")?;
        let ran = self.run(rt, &gate)?;
        self.push_wrong(text, &self.wanted(lines.as_str())?, &ran)?;
        if gate.given_up() > 0 {
            text.push_str("the gate gave up: a turn never came\n")?;
        }
        Ok(())
    }
}

/// Carries out a scenario with its blocks dumped, and where nothing differs as it is: how the run
/// differs from it; empty if it doesn't.
pub(crate) fn differences<R: Threads + Wait + Sync>(
    rt: &R,
    whole: &Case<'_>,
) -> Result<String, Memory> {
    let mut text = String::new(whole.alloc);
    let mut case = *whole;
    case.dump = is_dumped_too(&case.scenario) && !case.is_dumped()?;
    case.push_run(rt, &mut text)?;
    if case.dump && text.is_empty() {
        whole.push_run(rt, &mut text)?;
    }
    Ok(text)
}
