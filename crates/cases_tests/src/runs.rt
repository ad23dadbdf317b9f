use crate::sample::{add_third, add_two, chain, check_step, check_three, check_two, open, step};
use cases::worked_cases;
use edf::jobs_due;
use law::Refusal;
use records::Row;
use std::test::Fail;

// What these tests run is proved.
#[test]
fn the_cases_are_proved() {
    worked_cases();
}

#[test]
fn three_chains(rt: HostRuntime) -> Result<(), Fail> {
    let mut plan = open()?;
    add_two(&mut plan)?;
    add_third(&mut plan)?;
    assert_eq!(rt; plan.solve(), Ok(3));
    check_three(&rt, &plan);
    Ok(())
}

#[test]
fn the_third_comes_and_goes(rt: HostRuntime) -> Result<(), Fail> {
    let mut plan = open()?;
    add_two(&mut plan)?;
    assert_eq!(rt; plan.solve(), Ok(3));
    check_two(&rt, &plan);
    add_third(&mut plan)?;
    assert_eq!(rt; plan.solve(), Ok(2));
    check_three(&rt, &plan);
    plan.drop_chain(12)?;
    assert_eq!(rt; plan.solve(), Ok(3));
    check_two(&rt, &plan);
    Ok(())
}

#[test]
fn dearer(rt: HostRuntime) -> Result<(), Fail> {
    let mut plan = open()?;
    add_two(&mut plan)?;
    add_third(&mut plan)?;
    plan.recost(9, 1, 5)?;
    assert_eq!(rt; plan.solve(), Ok(3));
    check_step(&rt, &plan, 7, 1, 0, 8);
    check_step(&rt, &plan, 7, 2, 9, 12);
    check_step(&rt, &plan, 9, 1, 0, 6);
    check_step(&rt, &plan, 12, 1, 0, 1);
    plan.recost(9, 1, 6)?;
    let why = Refusal::NothingCarries { rounds: 1 };
    assert_eq!(rt; plan.solve(), Err(why));
    assert_eq!(rt; why.number(), 10);
    Ok(())
}

#[test]
fn full_use(rt: HostRuntime) -> Result<(), Fail> {
    let mut plan = open()?;
    plan.add(chain(1, 10, 1_000, 0)?, &[step(1, 10, 10, 0, 0)])?;
    assert_eq!(rt; plan.solve(), Ok(2));
    check_step(&rt, &plan, 1, 1, 0, 10);
    Ok(())
}

#[test]
fn late_in_full_use(rt: HostRuntime) -> Result<(), Fail> {
    let mut plan = open()?;
    plan.add(chain(1, 10, 1_000, 1)?, &[step(1, 10, 10, 0, 0)])?;
    assert_eq!(rt; plan.solve(), Err(Refusal::NothingCarries { rounds: 1 }));
    Ok(())
}

#[test]
fn no_chain(rt: HostRuntime) -> Result<(), Fail> {
    assert_eq!(rt; open()?.solve(), Ok(1));
    Ok(())
}

#[test]
fn due_together(rt: HostRuntime) {
    let row = Row {
        period: 20,
        step: step(1, 3, 8, 0, 1),
    };
    assert_eq!(rt; jobs_due(&row, 20, 7), Some(0));
    assert_eq!(rt; jobs_due(&row, 20, 8), Some(2));
}
