// Chain and step records, whose fields are in range for as long as they exist, and the plain fields that they are made of.
#![tactic(auto)]

mod blank;
mod chain;
mod fields;
mod range;
mod record;
mod step;

pub use blank::Blank;
pub use fields::{ChainFields, EndToEndDeadline, LocalDeadline, RecordFault, Row, StepFields};
pub use record::{Chain, Step};
