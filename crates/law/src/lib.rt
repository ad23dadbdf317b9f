// What the calls of a plan answer, and the law over every run of them.
#![tactic(auto)]

mod answers;
mod refusals;
mod theorem;

pub use answers::{Answer, Refusal, Reply, Timing};
pub use theorem::one_right_answer;
