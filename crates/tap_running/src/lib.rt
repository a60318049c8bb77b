//! What the programs share: captures and texts of a store as their contracts speak of them, and the
//! printed lines.
#![tactic(auto)]

mod arguments;
mod files;
mod printing;

pub use arguments::words;
pub use files::{close_file, fetch_file};
pub use printing::{print_lines, print_memory};
