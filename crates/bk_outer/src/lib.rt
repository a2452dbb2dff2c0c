//! The edge to files and output: what a run reads from and writes to, whether it is memory or the system.
#![tactic(auto)]

mod file_shelf;
mod gate;
mod logs;
mod mem_shelf;
mod mem_sink;
mod shelf;
mod sink;
mod std_sink;

pub use file_shelf::FileShelf;
pub use gate::{Free, Gate};
pub use mem_shelf::MemShelf;
pub use mem_sink::MemSink;
pub use shelf::{FILE_LIMIT, ReadAnswer, Shelf};
pub use sink::{Sink, Unwritten, WriteAnswer, write_all};
pub use std_sink::StdSink;
