use crate::sample::{add, chain, step};
use fixed::FixedPriority;
use law::{Refusal, Timing};
use plan::Plan;
use std::test::Fail;

// Three chains on nodes of their own.
fn three() -> Result<Plan<FixedPriority>, Refusal> {
    let mut plan = Plan::open(FixedPriority);
    add(&mut plan, chain(1, 50, 50), &[step(1, 4, 5), step(2, 5, 5)])?;
    add(&mut plan, chain(2, 50, 50), &[step(3, 6, 5)])?;
    add(&mut plan, chain(3, 50, 50), &[step(4, 7, 5), step(5, 8, 5)])?;
    Ok(plan)
}

#[test]
fn a_dropped_chain_is_gone_and_the_later_ones_close_up(rt: HostRuntime) -> Result<(), Fail> {
    let mut plan = three()?;
    assert_eq!(rt; plan.drop_chain(9), Err(Refusal::IdUnknown));
    assert_eq!(rt; plan.drop_chain(1), Ok(()));
    assert_eq!(rt; plan.solve(), Ok(3));
    assert_eq!(rt; plan.ask(1, 1), Err(Refusal::IdUnknown));
    assert_eq!(rt;
        plan.ask(2, 1),
        Ok(Timing {
            jitter: 0,
            response: 6,
        })
    );
    assert_eq!(rt;
        plan.ask(3, 2),
        Ok(Timing {
            jitter: 7,
            response: 15,
        })
    );
    // the freed place is used again
    add(&mut plan, chain(1, 50, 50), &[step(6, 9, 1)])?;
    assert_eq!(rt; plan.solve(), Ok(2));
    assert_eq!(rt;
        plan.ask(1, 1),
        Ok(Timing {
            jitter: 0,
            response: 9,
        })
    );
    Ok(())
}

#[test]
fn a_recost_changes_one_step_and_forgets(rt: HostRuntime) -> Result<(), Fail> {
    let mut plan = three()?;
    assert_eq!(rt; plan.solve(), Ok(3));
    assert_eq!(rt; plan.recost(9, 1, 1), Err(Refusal::IdUnknown));
    assert_eq!(rt; plan.recost(1, 3, 1), Err(Refusal::NoSuchStep));
    assert_eq!(rt; plan.recost(1, 2, 0), Err(Refusal::CostOutOfRange));
    assert_eq!(rt; plan.recost(1, 2, 1_000_001), Err(Refusal::CostOutOfRange));
    // refused calls leave what was kept
    assert_eq!(rt; plan.solve(), Ok(1));
    assert_eq!(rt; plan.recost(1, 2, 9), Ok(()));
    assert_eq!(rt; plan.ask(1, 2), Err(Refusal::NotSolved));
    assert_eq!(rt; plan.solve(), Ok(3));
    assert_eq!(rt;
        plan.ask(1, 1),
        Ok(Timing {
            jitter: 0,
            response: 4,
        })
    );
    assert_eq!(rt;
        plan.ask(1, 2),
        Ok(Timing {
            jitter: 4,
            response: 13,
        })
    );
    assert_eq!(rt;
        plan.ask(3, 1),
        Ok(Timing {
            jitter: 0,
            response: 7,
        })
    );
    Ok(())
}

#[test]
fn a_listing_needs_a_solve_and_then_room(rt: HostRuntime) -> Result<(), Fail> {
    let mut plan = Plan::open(FixedPriority);
    let mut short = [7; 25];
    assert_eq!(rt; plan.listing(&mut short), Err(Refusal::NotSolved));
    add(&mut plan, chain(65_535, 50, 50), &[step(1, 4, 5)])?;
    assert_eq!(rt; plan.solve(), Ok(2));
    assert_eq!(rt; plan.listing(&mut short), Err(Refusal::BufferShort));
    assert!(rt; short == [7; 25]);
    let mut exact = [7; 26];
    assert_eq!(rt; plan.listing(&mut exact), Ok(26));
    assert!(rt; exact == *b"rounds,2\nstep,65535,1,0,4\n");
    let mut longer = [7; 28];
    assert_eq!(rt; plan.listing(&mut longer), Ok(26));
    assert!(rt; longer == *b"rounds,2\nstep,65535,1,0,4\n\x07\x07");
    Ok(())
}
