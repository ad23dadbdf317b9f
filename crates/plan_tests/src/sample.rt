// Chains and steps for the tests.
use fixed::FixedPriority;
use law::Refusal;
use plan::Plan;
use records::{Chain, ChainFields, EndToEndDeadline, LocalDeadline, StepFields};

pub fn step(node: u32, cost: u32, priority: u32) -> StepFields {
    StepFields {
        node,
        cost,
        local: LocalDeadline { ticks: 10 },
        delay: 0,
        blocking: 0,
        priority,
    }
}

pub fn chain(id: u32, period: u32, deadline: u32) -> ChainFields {
    ChainFields {
        id,
        period,
        deadline: EndToEndDeadline { ticks: deadline },
        arrival_jitter: 0,
    }
}

// Adds a chain of these fields.
pub fn add(
    plan: &mut Plan<FixedPriority>,
    fields: ChainFields,
    steps: &[StepFields],
) -> Result<(), Refusal> {
    let chain = Chain::try_from(fields)?;
    plan.add(chain, steps)
}

// The number of a refusal, if it is one.
pub fn number<T: Drop>(res: Result<T, Refusal>) -> Option<u32> {
    res.err().map(|why| why.number())
}
