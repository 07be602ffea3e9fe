//! Where files come from and where text goes: a folder that is read and a sink that is written, each with a count of
//! its faults. Both have a form in memory, which tells what it holds, and a form of the system, which tells nothing.
//! The words of the command line, of which nothing is told.
#![tactic(auto)]

mod disk;
mod folder;
mod known;
mod mem_folder;
mod mem_sink;
mod output;
mod sink;
mod sure_folder;
mod words;

pub use disk::DiskFolder;
pub use folder::{File, Folder, Got};
pub use mem_folder::MemFolder;
pub use mem_sink::MemSink;
pub use output::OutSink;
pub use sink::{Put, Sink};
pub use sure_folder::SureFolder;
pub use words::words_of;
