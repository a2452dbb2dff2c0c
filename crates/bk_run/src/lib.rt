//! Whole runs of a system: the greedy schedule, when a run does all of a trace, its report and its log.
#![tactic(auto)]

mod completion;
mod counts;
mod greedy;
mod log_text;
mod logs;
mod report_text;
mod reports;
mod schedule;
mod serial_runs;
mod system;

pub use counts::Counts;
pub use greedy::ready_operation;
pub use logs::log;
pub use reports::report;
pub use schedule::{make_enabled, make_engine};
pub use serial_runs::{
    LoggedRun, ReportedRun, RunEnd, SerialFault, budget, serial, serial_log, serial_report,
};
pub use system::System;
