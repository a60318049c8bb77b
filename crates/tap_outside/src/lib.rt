//! The outside as the program sees it: sources that are read, sinks that are written and stores of
//! named files, each with a count of its faults; in memory, on disk, and standard output; what is
//! saved a piece at a time; and the words of a command, which may be names.
#![tactic(auto)]

mod causes;
mod command_words;
mod disk_files;
mod memory_files;
mod memory_sink;
mod memory_source;
mod memory_store;
mod pieces;
mod sink;
mod source;
mod source_log;
mod standard_output;
mod store;
mod sure_store;
mod system_calls;
mod written_file;

pub use causes::{Failed, OutError};
pub use command_words::Word;
pub use disk_files::{DiskSource, DiskStore};
pub use history::History;
pub use memory_sink::MemSink;
pub use memory_source::MemSource;
pub use memory_store::MemStore;
pub use pieces::{Pieces, gathered};
pub use sink::{Sink, write_whole};
pub use source::Source;
pub use source_log::SourceLog;
pub use standard_output::StdSink;
pub use store::Store;
pub use sure_store::{SureSource, SureStore};
