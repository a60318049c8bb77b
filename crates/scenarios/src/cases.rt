//! A run of a scenario, and what fails in it.
use scenario_texts::{Scenario, call_number, number, parted};
use std::alloc::Global;

/// The most bytes that one read of a file gives.
pub(crate) const WHOLE: usize = 65_536;

/// What fails beside what a scenario says, as a line of it: `fail save 2`.
#[derive(Clone, Copy)]
pub(crate) struct Fault<'a> {
    /// Its first word.
    pub(crate) word: &'static str,
    /// The kind of calls, or the name of the file that is read.
    pub(crate) what: &'a str,
    /// The number of the call, from 1; 0 for none.
    pub(crate) number: u64,
    /// The most bytes that one read gives of this file; where `what` is empty, of each file of
    /// which the scenario doesn't say it.
    pub(crate) piece: usize,
}

impl<'a> Fault<'a> {
    /// No call of a kind, or no read of a file.
    pub(crate) fn of(word: &'static str, what: &'a str) -> Fault<'a> {
        Fault {
            word,
            what,
            number: 0,
            piece: WHOLE,
        }
    }

    /// Whether nothing fails beside what the scenario says.
    pub(crate) fn is_whole(&self) -> bool {
        self.word == "whole"
    }
}

/// A run of a scenario.
#[derive(Clone, Copy)]
pub(crate) struct Case<'a> {
    /// What gives memory for all that it takes.
    pub(crate) alloc: Global,
    /// The name of the file of its scenario.
    pub(crate) path: &'a str,
    /// The scenario.
    pub(crate) scenario: Scenario<'a>,
    /// Whether the setup has one more line by which blocks are dumped.
    pub(crate) dump: bool,
    /// What fails beside what the scenario says.
    pub(crate) fault: Fault<'a>,
}

/// Whether the number of a call is one of these words.
pub(crate) fn has_number(words: &str, number: u64) -> bool {
    for word in words.split_whitespace() {
        if call_number(word) == number {
            return true;
        }
    }
    false
}

impl<'a> Case<'a> {
    /// A scenario as it is.
    pub(crate) fn new(alloc: Global, path: &'a str, scenario: &Scenario<'a>) -> Case<'a> {
        Case {
            alloc,
            path,
            scenario: *scenario,
            dump: false,
            fault: Fault::of("whole", ""),
        }
    }

    /// Whether a call fails, or is out of memory: the line of these two words has its number.
    pub(crate) fn has(&self, word: &str, what: &str, number: u64) -> bool {
        let fault = self.fault;
        let is_fault = fault.word == word && fault.what == what && fault.number == number;
        is_fault || has_number(self.scenario.value_named(word, what), number)
    }

    /// How many bytes of its file a save leaves that fails in half, if this is such a one.
    pub(crate) fn half(&self, save: u64) -> Option<usize> {
        let (half, left) = parted(self.scenario.value_named("half", "save"));
        if call_number(half) == save {
            Some(number(left))
        } else {
            None
        }
    }

    /// How many bytes one read of a file gives.
    pub(crate) fn piece(&self, name: &str) -> usize {
        match self.scenario.value_named("pieces", name) {
            _ if self.fault.what == name => self.fault.piece,
            "" if self.fault.what.is_empty() => self.fault.piece,
            "" => WHOLE,
            piece => number(piece).max(1),
        }
    }
}

/// Whether a scenario has other faults than fetches, saves and reads that fail, or a file without
/// an end.
fn has_other_faults(scenario: &Scenario<'_>) -> bool {
    let half = scenario.says("half") || scenario.says("faults");
    let poor = scenario.says("poor") || scenario.says("endless");
    half || poor || scenario.names("fail", "write")
}

/// Whether something fails in a scenario, or a thread is held.
pub(crate) fn is_faulty(scenario: &Scenario<'_>) -> bool {
    has_other_faults(scenario) || scenario.says("fail") || scenario.says("hold")
}

/// Whether a scenario is carried out a second time with its blocks dumped: an additional line of
/// the setup and an additional save don't change what fails.
pub(crate) fn is_dumped_too(scenario: &Scenario<'_>) -> bool {
    let saves = scenario.names("fail", "save") || scenario.names("fail", "conf");
    scenario.says("member") && !has_other_faults(scenario) && !saves
}
