// The mixture of two node rules: a letter for each node says which of them answers for the node's rows.
#![tactic(auto)]

mod letters;
mod mixture;

pub use letters::{Letter, Letters};
pub use mixture::Mixed;
