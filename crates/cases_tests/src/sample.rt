// The chains and steps of the cases, and plans of their rule.
use edf::EarliestDeadline;
use fixed::FixedPriority;
use law::{Refusal, Timing};
use mixed::{Letter, Letters, Mixed};
use plan::Plan;
use records::{Chain, ChainFields, EndToEndDeadline, LocalDeadline, RecordFault, StepFields};
use std::process::Abort;

pub type MixedPlan = Plan<Mixed<EarliestDeadline, FixedPriority>>;

// A plan with node 2 by fixed priorities, and every other node by earliest deadlines.
pub fn open() -> Result<MixedPlan, RecordFault> {
    let letters = Letters::new().with(2, Letter::P)?;
    Ok(Plan::open(Mixed::new(EarliestDeadline, FixedPriority, letters)))
}

// This, `chain` and `check_step` are as in edf_tests: a library crate for three helpers would be longer.
pub fn step(node: u32, cost: u32, local: u32, delay: u32, priority: u32) -> StepFields {
    StepFields {
        node,
        cost,
        local: LocalDeadline { ticks: local },
        delay,
        blocking: 0,
        priority,
    }
}

pub fn chain(
    id: u32,
    period: u32,
    deadline: u32,
    arrival_jitter: u32,
) -> Result<Chain, RecordFault> {
    Chain::try_from(ChainFields {
        id,
        period,
        deadline: EndToEndDeadline { ticks: deadline },
        arrival_jitter,
    })
}

pub fn add_two(plan: &mut MixedPlan) -> Result<(), Refusal> {
    plan.add(
        chain(7, 20, 20, 0)?,
        &[step(1, 3, 8, 0, 1), step(2, 2, 6, 1, 2)],
    )?;
    plan.add(chain(9, 10, 6, 0)?, &[step(1, 4, 6, 0, 1)])
}

pub fn add_third(plan: &mut MixedPlan) -> Result<(), Refusal> {
    plan.add(chain(12, 5, 5, 0)?, &[step(2, 1, 5, 0, 3)])
}

// A step has this jitter and this response.
pub fn check_step(
    rt: &impl Abort,
    plan: &MixedPlan,
    id: u32,
    step: u32,
    jitter: u32,
    response: u32,
) {
    assert_eq!(rt; plan.ask(id, step), Ok(Timing { jitter, response }));
}

pub fn check_two(rt: &impl Abort, plan: &MixedPlan) {
    check_step(rt, plan, 7, 1, 0, 7);
    check_step(rt, plan, 7, 2, 8, 10);
    check_step(rt, plan, 9, 1, 0, 5);
}

pub fn check_three(rt: &impl Abort, plan: &MixedPlan) {
    check_step(rt, plan, 7, 1, 0, 7);
    check_step(rt, plan, 7, 2, 8, 11);
    check_step(rt, plan, 9, 1, 0, 5);
    check_step(rt, plan, 12, 1, 0, 1);
}
