// Text in, bytes out: the listing of a table's panel, or the line of a refusal.
#![tactic(auto)]

mod refusals;
mod reports;
mod verdicts;

pub use refusals::{write_fault, write_nothing_carries};
pub use reports::report;
pub use verdicts::{Report, Verdict};
