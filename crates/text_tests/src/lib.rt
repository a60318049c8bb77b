//! Tests of the texts of a run: setups, moments, schedules and filters, and the lines and words
//! that they consist of. Tests of the lines that the program prints, worked out by hand from the
//! events of rings.
#![tactic(auto)]

#[cfg(test)]
mod accepted_setups;
#[cfg(test)]
mod added_lines;
#[cfg(test)]
mod answers;
#[cfg(test)]
mod commands;
#[cfg(test)]
mod lines_and_words;
#[cfg(test)]
mod printed_runs;
#[cfg(test)]
mod printed_words;
#[cfg(test)]
mod reports;
#[cfg(test)]
mod side_texts;
#[cfg(test)]
mod whole_setups;
