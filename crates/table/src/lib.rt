// The text of a table, read into a plan whose nodes go by earliest deadline or by fixed priority.
#![tactic(auto)]

mod begun;
mod chains;
mod draft;
mod drafting;
mod given;
mod nodes;
mod reader;
mod steps;
mod texts;

pub use reader::{Reader, TablePlan};
