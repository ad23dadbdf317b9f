// What both node rules share: calls that were checked, the busy period of a node, and the largest response over its starts.
#![tactic(auto)]

mod call;
mod checks;
mod completion;
mod jobs;
mod node_load;
mod node_work;
mod scheduling;
mod task;
mod worst;

pub use checks::is_valid;
pub use scheduling::SchedulingPolicy;
pub use task::Task;
pub use worst::{start_response, worst_response};
