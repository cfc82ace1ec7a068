//! The outside of the programs: a folder of files, a sink of bytes, and how a program answers.
//!
//! A program's top call is generic over `Folder` and `Sink`, so that its contract can speak of what a folder tells and of
//! what a sink holds. Its main hands in the real ones, tests and embedders those in memory. Code that is generic over a
//! trait cannot raise its count of faults, so a contract that ties a fault to a count that rose refuses a body that only
//! gives up.
#![tactic(auto)]

mod answer;
mod blamed;
mod contents;
mod edge;
mod fault;
mod folder;
mod memory_folder;
mod memory_sink;
mod sink;
mod status;
mod steady;

pub use answer::{FILE_LIMIT, Reply, Stop, deliver, make_fault_line, read_file};
pub use edge::{DiskFolder, StdoutSink};
pub use fault::{CallKind, FolderFault, SinkFailed, WriteFault};
pub use folder::Folder;
pub use memory_folder::MemoryFolder;
pub use memory_sink::MemorySink;
pub use sink::{Sink, write_all_to};
pub use status::Status;
pub use steady::{SteadyFolder, SteadySink};
