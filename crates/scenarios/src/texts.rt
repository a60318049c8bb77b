//! All scenarios of a text, one after another.
use crate::cases::{Case, Fault};
use crate::comparison::differences;
use crate::sweeps::sweep_all;
use frame_view::Memory;
use scenario_texts::{Document, Mistake, numbered_lines};
use std::alloc::Global;
use std::sync::Wait;
use std::thread::Threads;

/// How scenarios are carried out.
#[derive(Clone, Copy)]
pub struct Ways {
    /// Whether as they are.
    pub said: bool,
    /// Whether by all sweeps.
    pub swept: bool,
}

/// The result of a text's scenarios.
#[derive(Drop)]
pub struct Counted {
    /// Whether nothing is wrong with the text itself, so that its scenarios were carried out.
    pub is_read: bool,
    /// How many scenarios there are.
    pub scenarios: u64,
    /// How often they were carried out by sweeps.
    pub sweeps: u64,
    /// How many runs differ.
    pub differ: u64,
    /// What is wrong with the text, or what differs of each run, after the file and a line.
    pub found: String,
}

/// Appends what fails in a sweep beside what the scenario says.
fn push_fault(text: &mut String, fault: &Fault<'_>) -> Result<(), Memory> {
    match fault.number {
        _ if fault.is_whole() => {}
        0 => write!(text, ", by reads of {} bytes", fault.piece)?,
        number => write!(text, ", {} {} {number}", fault.word, fault.what)?,
    }
    Ok(())
}

impl Counted {
    /// Counts what differs of a run.
    pub(crate) fn push(&mut self, case: &Case<'_>, wrong: &str) -> Result<(), Memory> {
        if !wrong.is_empty() {
            let (path, name) = (case.path, case.scenario.name);
            self.differ = self.differ.saturating_add(1);
            write!(self.found, "{path}:{}: {}", name.number, name.text)?;
            push_fault(&mut self.found, &case.fault)?;
            write!(self.found, ": it differs\n{wrong}")?;
        }
        Ok(())
    }

    /// Counts a sweep, and what differs of it.
    pub(crate) fn push_sweep(&mut self, case: &Case<'_>, wrong: &str) -> Result<(), Memory> {
        self.sweeps = self.sweeps.saturating_add(1);
        self.push(case, wrong)
    }

    /// Says what is wrong with the text.
    fn push_mistake(
        &mut self,
        alloc: Global,
        path: &str,
        (document, mistake): (&Document<'_>, &Mistake<'_>),
    ) -> Result<(), Memory> {
        self.is_read = false;
        write!(self.found, "{path}:{}: ", mistake.line)?;
        document.push_sentence(alloc, &mut self.found, &mistake.slip)?;
        Ok(self.found.push_str("\n")?)
    }

    /// Carries out a scenario, and counts what differs.
    fn carry_out<R: Threads + Wait + Sync>(
        &mut self,
        rt: &R,
        case: &Case<'_>,
        ways: Ways,
    ) -> Result<(), Memory> {
        self.scenarios = self.scenarios.saturating_add(1);
        if ways.said {
            self.push(case, differences(rt, case)?.as_str())?;
        }
        if ways.swept {
            sweep_all(rt, self, *case)?;
        }
        Ok(())
    }

    /// Carries out the scenarios of a document, and counts what differs.
    fn carry_out_all<R: Threads + Wait + Sync>(
        &mut self,
        rt: &R,
        (alloc, path): (Global, &str),
        document: &Document<'_>,
        ways: Ways,
    ) -> Result<(), Memory> {
        for scenario in document.scenarios(alloc)?.as_slice() {
            self.carry_out(rt, &Case::new(alloc, path, scenario), ways)?;
        }
        Ok(())
    }
}

/// Carries out the scenarios of a text, the file of this name.
pub fn carry_out_text<R: Threads + Wait + Sync>(
    rt: &R,
    (alloc, path): (Global, &str),
    text: &str,
    ways: Ways,
) -> Result<Counted, Memory> {
    let mut counted = Counted {
        is_read: true,
        scenarios: 0,
        sweeps: 0,
        differ: 0,
        found: String::new(alloc),
    };
    let lines = numbered_lines(alloc, text)?;
    let document = Document::new(alloc, lines.as_slice())?;
    match document.check() {
        Ok(()) => counted.carry_out_all(rt, (alloc, path), &document, ways)?,
        Err(mistake) => counted.push_mistake(alloc, path, (&document, &mistake))?,
    }
    Ok(counted)
}
