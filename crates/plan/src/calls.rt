// A plan's calls as data, so that a list of them can be made one after another.
use records::{Chain, StepFields};
use std::borrow::CowSlice;

#[derive(Drop)]
pub enum PlanCall<'a> {
    Add {
        chain: Chain,
        // the call's own, or lent to it
        steps: CowSlice<'a, StepFields>,
    },
    DropChain {
        id: u32,
    },
    Recost {
        id: u32,
        step: u32,
        cost: u32,
    },
    Solve,
    Ask {
        id: u32,
        step: u32,
    },
}
