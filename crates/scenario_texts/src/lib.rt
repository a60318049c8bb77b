//! The texts of scenarios: their lines with numbers, the words of these, and what is wrong in them.
#![tactic(auto)]

mod checks;
mod diffs;
mod documents;
mod fields;
mod forms;
mod layers;
mod lines;
mod mistakes;
mod spelling;
mod words;

pub use diffs::push_diff;
pub use documents::{Document, Paragraph};
pub use fields::{Field, field_of, number_at};
pub use layers::Scenario;
pub use lines::{ScenarioLine, numbered_lines};
pub use mistakes::{Mistake, Slip};
pub use spelling::is_near;
pub use words::{
    MOST, bytes_of, call_number, count_of, is_among, kept_of, member_of, number, parted,
    repeated_line, word_at,
};
