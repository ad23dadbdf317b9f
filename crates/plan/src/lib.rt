// The plan: chains of steps over any node rule, solved to the least response times that carry them.
#![tactic(auto)]

mod add;
mod append;
mod ask;
mod calls;
mod find;
mod keep;
mod leave;
mod listing;
mod open;
mod perform;
mod plan;
mod recost;
mod remove;
mod round;
mod solve;
mod table;

pub use calls::PlanCall;
pub use perform::replay;
pub use plan::Plan;
