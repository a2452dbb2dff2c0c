//! Commands: what a command line asks for, and how it ended.
#![tactic(auto)]

mod answers;
mod fault_texts;
mod inputs;
mod numbers;
mod outcome;
mod replay;
mod run;
mod threads;
mod words;
mod writing;

pub use fault_texts::fault_line;
pub use outcome::{
    ABSENT, LIMIT, MALFORMED, MEMORY, OK, Outcome, READ_FAULT, REFUSED, TOO_LONG, USAGE,
    WRITE_FAULT,
};
pub use run::run_plain;
pub use threads::run_threads;
pub use words::is_threads;

#[cfg(test)]
mod damaged;
#[cfg(test)]
mod events;
#[cfg(test)]
mod failing;
#[cfg(test)]
mod programs;
#[cfg(test)]
mod runs;
#[cfg(test)]
mod tests;
#[cfg(test)]
mod texts;
#[cfg(test)]
mod verdicts;
