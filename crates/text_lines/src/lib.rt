//! The lines of a text, the words of a line, and numbers, read in place and without memory.
#![tactic(auto)]

mod lines;
mod numbers;
mod words;

pub use lines::{LARGEST_TEXT, lines_are_those_of_str, next_line};
pub use numbers::number;
pub use words::{is_passed_over, is_plain, next_word};
