//! Sweeps: a scenario in which nothing fails is carried out repeatedly, while in turn each fetch,
//! each read, each save and each write fails or is out of memory. The expected results follow from
//! what the scenario says.
use crate::cases::{Case, Fault, is_faulty};
use crate::comparison::{Reported, Wanted};
use crate::gates::ScriptGate;
use crate::scripted::{Calls, TAKEN};
use crate::texts::Counted;
use frame_view::Memory;
use std::sync::Wait;
use std::thread::Threads;

/// The lines from an index on.
fn lines_from(lines: &str, index: u64) -> &str {
    let mut rest = lines;
    for _ in 0..index {
        let (_, tail) = rest.split_once('\n').unwrap_or(("", ""));
        rest = tail;
    }
    rest
}

/// The line of an index; empty where there is none.
fn line_at(lines: &str, index: u64) -> &str {
    lines_from(lines, index).lines().next().unwrap_or("")
}

/// Whether the file of a name is a capture, not a text.
fn is_capture(name: &str) -> bool {
    name.ends_with(".pcap") || name.ends_with(".pcapng")
}

/// A scenario in which nothing fails, what it comes to, and the calls that it makes.
#[derive(Drop)]
struct Sweep<'a, R> {
    /// What runs threads.
    rt: &'a R,
    /// The scenario.
    case: Case<'a>,
    /// What it comes to.
    wanted: Wanted<'a>,
    /// Its fetches and saves.
    calls: &'a Calls,
}

/// Carries out a scenario with its fault, over a store that doesn't tell what it holds and counts a
/// fault at each call that succeeds, and counts what differs. The calls that were made.
fn check<R: Threads + Wait + Sync>(
    rt: &R,
    counted: &mut Counted,
    case: &Case<'_>,
    wanted: &Wanted<'_>,
) -> Result<Calls, Memory> {
    let mut wrong = String::new(case.alloc);
    let ran = case.run(rt, &ScriptGate::new(case)?)?;
    case.push_wrong(&mut wrong, wanted, &ran)?;
    counted.push_sweep(case, wrong.as_str())?;
    Ok(ran.calls)
}

/// Carries out a scenario over a store that has no fault, and counts what differs. Such a store
/// gives nothing under a name that it doesn't hold.
fn check_surely<R: Threads + Wait + Sync>(
    rt: &R,
    counted: &mut Counted,
    case: &Case<'_>,
    wanted: &Wanted<'_>,
) -> Result<(), Memory> {
    let mut wrong = String::new(case.alloc);
    if !wanted.status.starts_with('5') {
        let (answer, printed) = case.run_surely(rt)?;
        case.push_wrong_answer(&mut wrong, wanted, (&answer, printed.as_str()))?;
    }
    counted.push_sweep(case, wrong.as_str())
}

impl<'a, R: Threads + Wait + Sync> Sweep<'a, R> {
    /// What is wanted of a run by other reads than the scenario says: a capture that is damaged may
    /// have given fewer bytes, so where there is a report it isn't compared.
    fn in_pieces(&self) -> Wanted<'a> {
        let mut wanted = self.wanted;
        if wanted.status.starts_with('4') && self.case.scenario.says("cpu") {
            wanted.reported = Reported::Any;
        }
        wanted
    }

    /// What is wanted where the file of a name can't be read. Of a text it is one line, no report
    /// and no file; of a capture a report exactly if the scenario has one, and lines that tell the
    /// fault.
    fn unread(&self, name: &str) -> Wanted<'a> {
        let scenario = self.case.scenario;
        let mut wanted = self.wanted;
        wanted.status = "5 ReadFault";
        wanted.reported = Reported::Absent;
        wanted.absent = self.calls.saved.as_str();
        wanted.is_cut = is_capture(name);
        if !wanted.is_cut {
            wanted.lines = "read fault\n";
        } else if scenario.says("cpu") || scenario.says("report") {
            wanted.reported = Reported::Any;
        }
        wanted
    }

    /// What is wanted where a call fails, or is out of memory. All files are there but one that
    /// isn't saved, and those that would be saved after memory ran out. What was written before
    /// stays.
    fn wanted_at(&self, fault: &Fault<'a>) -> Wanted<'a> {
        let saved = self.calls.saved.as_str();
        let before = fault.number.saturating_sub(1);
        let mut wanted = self.wanted;
        wanted.status = "6 WriteFault";
        if fault.word == "poor" {
            wanted.status = "7 Memory";
            wanted.reported = Reported::Absent;
        }
        match fault.what {
            "fetch" => return self.unread(line_at(self.calls.fetched.as_str(), before)),
            "save" => wanted.absent = line_at(saved, before),
            "write" => wanted.taken = (before as usize).saturating_mul(TAKEN),
            "call" => {
                let saves = before.saturating_sub(self.calls.reads.len() as u64);
                wanted.taken = 0;
                wanted.absent = lines_from(saved, saves);
            }
            name => return self.unread(name),
        }
        wanted
    }

    /// Each of the first `count` calls in turn fails, or is out of memory.
    fn each(&self, counted: &mut Counted, fault: Fault<'a>, count: u64) -> Result<(), Memory> {
        let mut case = self.case;
        case.fault = fault;
        for before in 0..count {
            case.fault.number = before.saturating_add(1);
            check(self.rt, counted, &case, &self.wanted_at(&case.fault))?;
        }
        Ok(())
    }

    /// Each call of a kind in turn fails, or is out of memory. Lines that aren't fully specified
    /// have no places.
    fn calls(&self, counted: &mut Counted) -> Result<(), Memory> {
        let fetches = self.calls.reads.len() as u64;
        let saves = self.calls.saves() as u64;
        let calls = fetches.saturating_add(saves);
        let lines = self.wanted.lines;
        let length = if lines.contains('*') { 0 } else { lines.len() };
        let writes = length.div_ceil(TAKEN) as u64;
        self.each(counted, Fault::of("fail", "fetch"), fetches)?;
        self.each(counted, Fault::of("fail", "save"), saves)?;
        self.each(counted, Fault::of("fail", "write"), writes)?;
        self.each(counted, Fault::of("poor", "write"), writes)?;
        self.each(counted, Fault::of("poor", "call"), calls)
    }

    /// Each read of a file in turn fails, those of all its sources. A read gives about a third of a
    /// capture, and about a sixth of a text.
    fn reads_of(&self, counted: &mut Counted, name: &'a str) -> Result<(), Memory> {
        let mut case = self.case;
        case.fault = Fault::of("fail", name);
        let length = case.file_bytes(name)?.len();
        let (pieces, least) = if is_capture(name) { (3, 20) } else { (6, 5) };
        case.fault.piece = length.div_ceil(pieces).max(least);
        let calls = check(self.rt, counted, &case, &self.in_pieces())?;
        self.each(counted, case.fault, calls.reads_of(name))
    }

    /// Each read in turn fails.
    fn reads(&self, counted: &mut Counted) -> Result<(), Memory> {
        for (fetch, name) in self.calls.fetched.as_str().lines().enumerate() {
            if self.calls.first_fetch(name) == fetch {
                self.reads_of(counted, name)?;
            }
        }
        Ok(())
    }

    /// A read gives one byte.
    fn bytes(&self, counted: &mut Counted) -> Result<(), Memory> {
        let mut case = self.case;
        case.fault = Fault::of("pieces", "");
        case.fault.piece = 1;
        check(self.rt, counted, &case, &self.in_pieces())?;
        Ok(())
    }
}

/// Carries out a scenario by all sweeps, if nothing fails in it and no thread is held, and counts
/// what differs.
pub(crate) fn sweep_all<R: Threads + Wait + Sync>(
    rt: &R,
    counted: &mut Counted,
    case: Case<'_>,
) -> Result<(), Memory> {
    let lines = case.text(">")?;
    let wanted = case.wanted(lines.as_str())?;
    if is_faulty(&case.scenario) || wanted.status.starts_with('7') {
        return Ok(());
    }
    check_surely(rt, counted, &case, &wanted)?;
    let calls = check(rt, counted, &case, &wanted)?;
    let sweep = Sweep {
        rt,
        case,
        wanted,
        calls: &calls,
    };
    sweep.bytes(counted)?;
    sweep.calls(counted)?;
    sweep.reads(counted)
}
