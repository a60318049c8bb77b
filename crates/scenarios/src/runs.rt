//! A command, carried out over a store that means every name: its answer as texts.
ghost use Rattle.std.specs.Prelude.{List, ℕ, IsTrue};

use crate::cases::Case;
use crate::gates::ScriptGate;
use crate::reports::report_text;
use crate::scripted::{Calls, ScriptSink, ScriptStore};
use cpu_feeders::Gate;
use frame_view::{Memory, MomentList};
use scenario_texts::{Scenario, parted};
use std::alloc::Global;
use std::str;
use std::sync::Wait;
use std::thread::Threads;
use tap_engine::{Outcome, run, run_plain};
use tap_outside::{MemSink, MemStore, Sink, Store, Word};

/// What a command returns.
#[derive(Drop)]
pub struct Answer {
    /// The number of the status, and its `Debug` text.
    pub status: String,
    /// The text of the report, empty if there is none.
    pub report: String,
}

/// The words of a command.
fn words_of(alloc: Global, texts: &[&str]) -> Result<Vec<Word>, Memory> {
    let mut words = Vec::new(alloc);
    for text in texts {
        words.push(Word::from_bytes(alloc, text.as_bytes())?)?;
    }
    Ok(words)
}

/// What a command returned, as texts.
pub fn answer_of(alloc: Global, outcome: &Outcome) -> Result<Answer, Memory> {
    let status = &outcome.status;
    let report = match &outcome.report {
        Some(report) => report_text(alloc, report)?,
        None => String::new(alloc),
    };
    Ok(Answer {
        status: format!(in alloc; "{} {:?}", status.number(), status)?,
        report,
    })
}

/// Carries out a command by `run_plain`: its outcome.
#[tactic(auto, using(crate::proofs::Meant::every_read, crate::proofs::Meant::every_save))]
fn outcome_on<S: Store, O: Sink>(
    alloc: Global,
    texts: &[&str],
    store: &mut S,
    out: &mut O,
) -> Result<Outcome, Memory>
    requires reads { (name : List ℕ) → IsTrue ((S.seen store.old).to_read name) }
    requires saves { (name : List ℕ) → IsTrue ((S.seen store.old).to_save name) }
{
    let words = words_of(alloc, texts)?;
    Ok(run_plain(alloc, words.as_slice(), store, out))
}

/// Carries out a command by `run`, which does a `capture` and a `forward` on threads: its outcome.
#[tactic(auto, using(crate::proofs::Meant::every_read, crate::proofs::Meant::every_save))]
pub fn outcome_on_threads<S: Store, O: Sink, G: Gate + Sync, R: Threads + Wait + Sync>(
    rt: &R,
    alloc: Global,
    texts: &[&str],
    store: &mut S,
    out: &mut O,
    gate: &G,
) -> Result<Outcome, Memory>
    requires reads { (name : List ℕ) → IsTrue ((S.seen store.old).to_read name) }
    requires saves { (name : List ℕ) → IsTrue ((S.seen store.old).to_save name) }
{
    let words = words_of(alloc, texts)?;
    Ok(run(rt, alloc, words.as_slice(), store, out, gate))
}

/// What a command answers and prints, the files after it, and the calls of a store that records
/// them.
#[derive(Drop)]
pub(crate) struct ScenarioRan {
    /// The status and the report.
    pub(crate) answer: Answer,
    /// What was printed.
    pub(crate) printed: String,
    /// The files.
    pub(crate) files: MemStore,
    /// The fetches and saves.
    pub(crate) calls: Calls,
}

/// Whether a scenario's command is done on threads.
pub(crate) fn is_on_threads(scenario: &Scenario<'_>) -> bool {
    let (first, _) = parted(scenario.value("run"));
    (first == "capture" || first == "forward") && !scenario.says("plain")
}

/// The text of what was printed.
fn text_of(alloc: Global, printed: &[u8]) -> Result<String, Memory> {
    let text = str::from_utf8(printed).unwrap_or("no text");
    Ok(String::from_str(alloc, text)?)
}

impl<'a> Case<'a> {
    /// The words of the command, of which two quotes are an empty one.
    fn command(&self) -> Result<Vec<&'a str>, Memory> {
        let mut words = Vec::new(self.alloc);
        for word in self.scenario.value("run").split_whitespace() {
            words.push(if word == "''" { "" } else { word })?;
        }
        Ok(words)
    }

    /// Carries out the command: its answer.
    fn carry_out<S: Store, O: Sink, R: Threads + Wait + Sync>(
        &self,
        rt: &R,
        files: &mut S,
        out: &mut O,
        gate: &ScriptGate,
    ) -> Result<Answer, Memory>
        requires reads { (name : List ℕ) → IsTrue ((S.seen files.old).to_read name) }
        requires saves { (name : List ℕ) → IsTrue ((S.seen files.old).to_save name) }
    {
        let words = self.command()?;
        let outcome = if is_on_threads(&self.scenario) {
            outcome_on_threads(rt, self.alloc, words.as_slice(), files, out, gate)?
        } else {
            outcome_on(self.alloc, words.as_slice(), files, out)?
        };
        answer_of(self.alloc, &outcome)
    }

    /// Carries out the command over a store and a sink that fail as the scenario says.
    pub(crate) fn run<R: Threads + Wait + Sync>(
        &self,
        rt: &R,
        gate: &ScriptGate,
    ) -> Result<ScenarioRan, Memory> {
        let mut store = ScriptStore::new(*self, self.memory_store()?);
        let mut out = ScriptSink::new(*self);
        Ok(ScenarioRan {
            answer: self.carry_out(rt, &mut store, &mut out, gate)?,
            printed: text_of(self.alloc, out.bytes.as_slice())?,
            files: store.files,
            calls: store.calls,
        })
    }

    /// Carries out the command over a store that has no fault: its answer, and what it prints.
    pub(crate) fn run_surely<R>(&self, rt: &R) -> Result<(Answer, String), Memory>
    where
        R: Threads + Wait + Sync,
    {
        let mut files = self.sure_store()?;
        let mut out = MemSink::new(self.alloc, MomentList::new(self.alloc));
        let answer = self.carry_out(rt, &mut files, &mut out, &ScriptGate::new(self)?)?;
        Ok((answer, text_of(self.alloc, out.written())?))
    }
}
