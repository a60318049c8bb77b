//! Tests of the two ends of a ring, with blocks of one letter: step by step, on one thread and over
//! a table, and from one thread to another, whose reader may sleep.
#![tactic(auto)]

#[cfg(test)]
mod letters;
#[cfg(test)]
mod plain_steps;
#[cfg(test)]
mod relays;
#[cfg(test)]
mod table_rounds;
#[cfg(test)]
mod table_steps;
