//! The order of faults and the bytes of a report.
#![tactic(auto)]

mod codes;
mod form;
mod line;
mod order;
mod report;
mod verdict;

pub use form::ReportForm;
pub use order::sort_faults;
pub use report::{one_report, report_text};
pub use verdict::Verdict;

#[cfg(test)]
mod tests;
