//! The lines of a transcript and of a report, and their bytes.
#![tactic(auto)]

mod entry;
mod escapes;
mod key_visit;
mod observer;
mod report;
mod trace;

pub use entry::EntryName;
pub use observer::Observer;
pub use report::{ReportLine, write_report};
pub use trace::{TraceLine, write_trace};
