//! Traces: a configuration, and the operations that processors give their caches.
//!
//! A trace is a text. `#` begins a comment up to the line's end, and lines without a word pass.
//! The first line is `config CACHES SETS WAYS`, and each further line is an operation of a cache:
//!
//! - `CACHE L ADDRESS` loads a word, `CACHE UL ADDRESS` past the cache;
//! - `CACHE S ADDRESS VALUE` stores a word, `CACHE US ADDRESS VALUE` past the cache;
//! - `CACHE EV ADDRESS` gives a block up.
//!
//! CACHE is below CACHES, and ADDRESS a multiple of 8 below 2^40. There are at most 10,000 operations,
//! and no further word stands on any line. Words are separated by spaces and tabs.
//!
//! A number is 1 to 20 decimal digits, or `0x` and 1 to 16 hexadecimal digits of either case, and below
//! 2^64. Lines end with LF or CR LF, and every other byte is printable ASCII or a tab, in comments too.
//!
//! [`read_trace`] answers the trace of a text or its first fault, [`write_trace`] the canonical text of
//! a trace, and [`generate`] a trace that is drawn from a number.
#![tactic(auto)]

mod draws;
mod fault;
mod line;
mod read;
mod trace;
mod words;
mod write;

pub use draws::generate;
pub use fault::{Kind, TraceFault};
pub use read::read_trace;
pub use trace::{OPERATION_LIMIT, Trace};
pub use write::{push_operation, write_trace};

#[cfg(test)]
mod tests;
