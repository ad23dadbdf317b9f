use crate::sample::{add, chain, number, step};
use fixed::FixedPriority;
use plan::Plan;

#[test]
fn sixteen_steps_and_not_seventeen(rt: HostRuntime) {
    let mut plan = Plan::open(FixedPriority);
    assert_eq!(rt;
        number(add(&mut plan, chain(1, 1000, 1000), &[step(1, 1, 1); 16])),
        None
    );
    assert_eq!(rt;
        number(add(&mut plan, chain(2, 1000, 1000), &[step(1, 1, 1); 17])),
        Some(2)
    );
    assert_eq!(rt; number(add(&mut plan, chain(2, 1000, 1000), &[])), Some(2));
}

#[test]
fn sixteen_chains_and_not_seventeen(rt: HostRuntime) {
    let mut plan = Plan::open(FixedPriority);
    for id in 1..=16 {
        assert_eq!(rt;
            number(add(&mut plan, chain(id, 1000, 1000), &[step(1, 1, 1)])),
            None
        );
    }
    assert_eq!(rt;
        number(add(&mut plan, chain(17, 1000, 1000), &[step(1, 1, 1)])),
        Some(3)
    );
}

#[test]
fn sixty_four_steps_and_not_more(rt: HostRuntime) {
    let mut plan = Plan::open(FixedPriority);
    for id in 1..=4 {
        assert_eq!(rt;
            number(add(&mut plan, chain(id, 1000, 1000), &[step(1, 1, 1); 16])),
            None
        );
    }
    assert_eq!(rt;
        number(add(&mut plan, chain(5, 1000, 1000), &[step(1, 1, 1)])),
        Some(4)
    );
}

#[test]
fn an_id_once(rt: HostRuntime) {
    let mut plan = Plan::open(FixedPriority);
    assert_eq!(rt;
        number(add(&mut plan, chain(7, 1000, 1000), &[step(1, 1, 1)])),
        None
    );
    assert_eq!(rt;
        number(add(&mut plan, chain(7, 1000, 1000), &[step(1, 1, 1)])),
        Some(5)
    );
}

#[test]
fn a_bad_field_comes_before_a_bad_count_and_a_full_plan_before_a_held_id(rt: HostRuntime) {
    let mut plan = Plan::open(FixedPriority);
    assert_eq!(rt;
        number(add(&mut plan, chain(1, 1000, 1000), &[step(1, 0, 1); 17])),
        Some(1)
    );
    for id in 1..=4 {
        assert_eq!(rt;
            number(add(&mut plan, chain(id, 1000, 1000), &[step(1, 1, 1); 16])),
            None
        );
    }
    assert_eq!(rt;
        number(add(&mut plan, chain(1, 1000, 1000), &[step(1, 1, 1)])),
        Some(4)
    );
}
