//! Tests of readers' texts: the first fault of each that is refused, and what the others say.
#![tactic(auto)]

#[cfg(test)]
mod accepted_readers;
#[cfg(test)]
mod refused_readers;
