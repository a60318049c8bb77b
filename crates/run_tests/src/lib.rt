//! Tests of runs that no scenario can describe: each point of the gate, a source that waits, each
//! ticket, and twenty thousand made frames; and of the queue of works below a run.
#![tactic(auto)]

#[cfg(test)]
mod gate_log;
#[cfg(test)]
mod made;
#[cfg(test)]
mod points;
#[cfg(test)]
mod queues;
#[cfg(test)]
mod runs;
#[cfg(test)]
mod tickets;
#[cfg(test)]
mod waiting_store;
#[cfg(test)]
mod works;
