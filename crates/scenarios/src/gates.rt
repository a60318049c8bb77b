//! A gate that holds threads as a scenario says.
use crate::cases::Case;
use cpu_feeders::{Gate, Point};
use frame_view::Memory;
use scenario_texts::{number, parted};
use std::sync::atomic::{AtomicU64, Ordering};
use std::thread;

/// How often a thread polls before it gives up.
const TURNS: u64 = 1_000_000;

/// How many lines of points a run has.
const LINES: usize = 25;

/// A line of points, and how far on it a point is. Lines 0 to 7 have the frames of each CPU, from
/// 1; 8 to 15 the blocks that each member releases; 16 to 23 those that are decoded; 24 the
/// moments.
type GatePlace = (usize, u64);

/// A gate of a scenario's lines `hold POINT until POINT`.
#[derive(Drop)]
pub(crate) struct ScriptGate {
    /// The points that are held, and which each of them waits for.
    holds: Vec<(GatePlace, GatePlace)>,
    /// How far each line of points has come.
    reached: Vec<AtomicU64>,
    /// How often a thread gave up.
    given_up: AtomicU64,
}

/// The place of words such as `frame 0.2`, `block 1.3`, `decode 1.3` or `moment 5`.
fn place_of(words: &str) -> GatePlace {
    let (kind, rest) = parted(words);
    let (line, at) = rest.split_once('.').unwrap_or(("0", rest));
    let line = number(line).min(7);
    let at = at.parse::<u64>().unwrap_or(u64::MAX);
    match kind {
        "frame" => (line, at.saturating_add(1)),
        "block" => (line + 8, at),
        "decode" => (line + 16, at),
        _ => (24, at),
    }
}

/// The place of a point.
fn place_at(point: Point) -> GatePlace {
    match point {
        Point::Deliver { cpu, index } => ((cpu as usize).min(7), u64::from(index) + 1),
        Point::Released { member, blocks } => ((member as usize).min(7) + 8, blocks),
        Point::Decoding { member, number, .. } => ((member as usize).min(7) + 16, number),
        Point::Ticking { ms } => (24, ms),
    }
}

/// What a scenario holds.
fn holds_of(case: &Case<'_>) -> Result<Vec<(GatePlace, GatePlace)>, Memory> {
    let mut holds = Vec::new(case.alloc);
    for value in case.scenario.values(case.alloc, "hold")?.as_slice() {
        let (held, until) = value.text.split_once(" until ").unwrap_or((value.text, ""));
        holds.push((place_of(held), place_of(until)))?;
    }
    Ok(holds)
}

impl ScriptGate {
    /// The gate of a run; it holds nobody where its scenario has no such line.
    pub(crate) fn new(case: &Case<'_>) -> Result<ScriptGate, Memory> {
        let mut gate = ScriptGate {
            holds: holds_of(case)?,
            reached: Vec::new(case.alloc),
            given_up: AtomicU64::new(0),
        };
        for _ in 0..LINES {
            gate.reached.push(AtomicU64::new(0))?;
        }
        Ok(gate)
    }

    /// How often a thread gave up.
    pub(crate) fn given_up(&self) -> u64 {
        self.given_up.load(Ordering::SeqCst)
    }

    /// Waits until a line of points has come to a place, or gives up.
    fn wait(&self, (line, at): GatePlace) {
        let Some(reached) = self.reached.as_slice().get(line) else {
            return;
        };
        for _ in 0..TURNS {
            if reached.load(Ordering::SeqCst) >= at {
                return;
            }
            thread::yield_now();
        }
        self.given_up.fetch_add(1, Ordering::SeqCst);
    }
}

impl Gate for ScriptGate {
    fn at(&self, point: Point) {
        let place = place_at(point);
        if let Some(reached) = self.reached.as_slice().get(place.0) {
            reached.fetch_max(place.1, Ordering::SeqCst);
        }
        for (held, until) in self.holds.as_slice() {
            if *held == place {
                self.wait(*until);
            }
        }
    }
}
