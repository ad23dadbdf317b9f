use crate::sample::{add, chain, number, step};
use fixed::FixedPriority;
use law::{Refusal, Reply, Timing};
use plan::{Plan, PlanCall, replay};
use records::Chain;
use std::alloc::{AllocError, Global};
use std::borrow::CowSlice;
use std::test::Fail;

#[test]
fn an_empty_plan_solves_in_one_round(rt: HostRuntime) {
    let mut plan = Plan::open(FixedPriority);
    assert_eq!(rt; plan.solve(), Ok(1));
    assert_eq!(rt; plan.ask(1, 1), Err(Refusal::IdUnknown));
}

#[test]
fn questions_want_a_solve_that_stands(rt: HostRuntime) -> Result<(), Fail> {
    let mut plan = Plan::open(FixedPriority);
    add(&mut plan, chain(3, 20, 20), &[step(1, 4, 2), step(2, 5, 2)])?;
    assert_eq!(rt; plan.ask(3, 1), Err(Refusal::NotSolved));
    assert_eq!(rt; plan.ask(4, 1), Err(Refusal::IdUnknown));
    assert_eq!(rt; plan.ask(3, 0), Err(Refusal::NoSuchStep));
    assert_eq!(rt; plan.ask(3, 3), Err(Refusal::NoSuchStep));
    assert_eq!(rt; plan.solve(), Ok(3));
    assert_eq!(rt;
        plan.ask(3, 2),
        Ok(Timing {
            jitter: 4,
            response: 9,
        })
    );
    add(&mut plan, chain(4, 20, 20), &[step(1, 4, 1)])?;
    assert_eq!(rt; plan.ask(3, 2), Err(Refusal::NotSolved));
    Ok(())
}

#[test]
fn a_solve_starts_from_what_was_kept(rt: HostRuntime) -> Result<(), Fail> {
    let mut plan = Plan::open(FixedPriority);
    add(
        &mut plan,
        chain(1, 50, 50),
        &[step(1, 4, 5), step(2, 5, 5), step(1, 6, 5)],
    )?;
    assert_eq!(rt; plan.solve(), Ok(4));
    assert_eq!(rt; plan.solve(), Ok(1));
    // a row on a node of its own: one round finds it, one more changes nothing
    add(&mut plan, chain(2, 50, 50), &[step(8, 3, 1)])?;
    assert_eq!(rt; plan.solve(), Ok(2));
    assert_eq!(rt;
        plan.ask(2, 1),
        Ok(Timing {
            jitter: 0,
            response: 3,
        })
    );
    Ok(())
}

#[test]
fn a_solve_that_finds_nothing_forgets_and_keeps_the_chains(rt: HostRuntime) -> Result<(), Fail> {
    let mut plan = Plan::open(FixedPriority);
    add(&mut plan, chain(1, 50, 50), &[step(1, 4, 5), step(2, 5, 5)])?;
    assert_eq!(rt; plan.solve(), Ok(3));
    add(&mut plan, chain(2, 50, 2), &[step(3, 3, 1)])?;
    assert_eq!(rt; plan.solve(), Err(Refusal::NothingCarries { rounds: 1 }));
    assert_eq!(rt; plan.ask(1, 1), Err(Refusal::NotSolved));
    assert_eq!(rt; plan.solve(), Err(Refusal::NothingCarries { rounds: 1 }));
    assert_eq!(rt;
        number(add(&mut plan, chain(1, 50, 50), &[step(1, 4, 5)])),
        Some(5)
    );
    Ok(())
}

#[test]
fn a_list_of_calls_is_answered_in_order(rt: HostRuntime) -> Result<(), Fail> {
    let first = Chain::try_from(chain(3, 20, 20))?;
    let steps = [step(1, 4, 2)];
    let calls = [
        PlanCall::Ask { id: 3, step: 1 },
        PlanCall::Add {
            chain: first,
            steps: CowSlice::Borrowed(&steps),
        },
        PlanCall::Solve,
        PlanCall::Ask { id: 3, step: 1 },
    ];
    let mut answers = [Ok(Reply::Done); 5];
    assert_eq!(rt; replay(FixedPriority, &calls, &mut answers), 4);
    assert_eq!(rt; answers[0], Err(Refusal::IdUnknown));
    assert_eq!(rt; answers[1], Ok(Reply::Done));
    assert_eq!(rt; answers[2], Ok(Reply::Solved { rounds: 2 }));
    assert_eq!(rt;
        answers[3],
        Ok(Reply::Told(Timing {
            jitter: 0,
            response: 4,
        }))
    );
    assert_eq!(rt; answers[4], Ok(Reply::Done));
    Ok(())
}

// Calls that own the steps of the chain to be added.
fn owned_calls(alloc: Global, first: Chain) -> Result<Vec<PlanCall<'static>>, AllocError> {
    let steps = [step(1, 4, 2)].to_vec(alloc)?;
    let mut calls = Vec::new(alloc);
    calls.push(PlanCall::Ask { id: 3, step: 1 })?;
    calls.push(PlanCall::Add {
        chain: first,
        steps: CowSlice::Owned(steps),
    })?;
    calls.push(PlanCall::Solve)?;
    calls.push(PlanCall::Ask { id: 3, step: 1 })?;
    Ok(calls)
}

#[test]
fn a_list_of_calls_may_own_its_steps(rt: HostRuntime) -> Result<(), Fail> {
    let calls = owned_calls(rt.alloc(), Chain::try_from(chain(3, 20, 20))?)?;
    let mut answers = [Ok(Reply::Done); 5];
    assert_eq!(rt; replay(FixedPriority, calls.as_slice(), &mut answers), 4);
    assert_eq!(rt; answers[0], Err(Refusal::IdUnknown));
    assert_eq!(rt; answers[1], Ok(Reply::Done));
    assert_eq!(rt; answers[2], Ok(Reply::Solved { rounds: 2 }));
    assert_eq!(rt;
        answers[3],
        Ok(Reply::Told(Timing {
            jitter: 0,
            response: 4,
        }))
    );
    assert_eq!(rt; answers[4], Ok(Reply::Done));
    Ok(())
}
