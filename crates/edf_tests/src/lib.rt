// The earliest-deadline rule and mixtures on examples, through the plan where chains are meant.
#![tactic(auto)]

#[cfg(test)]
mod tests {
    use edf::{EarliestDeadline, jobs_due};
    use fixed::FixedPriority;
    use law::{Refusal, Timing};
    use mixed::{Letter, Letters, Mixed};
    use plan::Plan;
    use policies::start_response;
    use records::{
        Chain, ChainFields, EndToEndDeadline, LocalDeadline, RecordFault, Row, StepFields,
    };
    use rules::NodeRule;
    use std::process::Abort;
    use std::test::Fail;

    // This, `chain` and `check_step` are as in cases_tests: a library crate for three helpers would be longer.
    fn step(node: u32, cost: u32, local: u32, delay: u32, priority: u32) -> StepFields {
        StepFields {
            node,
            cost,
            local: LocalDeadline { ticks: local },
            delay,
            blocking: 0,
            priority,
        }
    }

    fn row(period: u32, cost: u32, local: u32) -> Row {
        let step = step(1, cost, local, 0, 1);
        Row { period, step }
    }

    // Two rows on a node: the one with the later deadline has the larger priority.
    fn two_rows(node: u32) -> [Row; 2] {
        let slow = step(node, 3, 8, 0, 2);
        let fast = step(node, 4, 6, 0, 1);
        [
            Row {
                period: 20,
                step: slow,
            },
            Row {
                period: 10,
                step: fast,
            },
        ]
    }

    fn chain(
        id: u32,
        period: u32,
        deadline: u32,
        arrival_jitter: u32,
    ) -> Result<Chain, RecordFault> {
        Chain::try_from(ChainFields {
            id,
            period,
            deadline: EndToEndDeadline { ticks: deadline },
            arrival_jitter,
        })
    }

    // Node 1 by earliest deadlines, node 2 by fixed priorities.
    fn letters() -> Result<Letters, RecordFault> {
        Letters::new().with(2, Letter::P)
    }

    fn check_step<R: NodeRule>(
        rt: &impl Abort,
        plan: &Plan<R>,
        id: u32,
        step: u32,
        jitter: u32,
        response: u32,
    ) {
        assert_eq!(rt; plan.ask(id, step), Ok(Timing { jitter, response }));
    }

    #[test]
    fn a_node_in_full_use_carries_one_step(rt: HostRuntime) -> Result<(), Fail> {
        let mut plan = Plan::open(EarliestDeadline);
        plan.add(chain(1, 10, 1_000, 0)?, &[step(1, 10, 10, 0, 0)])?;
        assert_eq!(rt; plan.solve(), Ok(2));
        check_step(&rt, &plan, 1, 1, 0, 10);
        Ok(())
    }

    #[test]
    fn in_full_use_any_jitter_is_too_much(rt: HostRuntime) -> Result<(), Fail> {
        let mut plan = Plan::open(EarliestDeadline);
        plan.add(chain(1, 10, 1_000, 1)?, &[step(1, 10, 10, 0, 0)])?;
        let why = Refusal::NothingCarries { rounds: 1 };
        assert_eq!(rt; plan.solve(), Err(why));
        assert_eq!(rt; why.number(), 10);
        Ok(())
    }

    #[test]
    fn a_mixed_table(rt: HostRuntime) -> Result<(), Fail> {
        let mut plan = Plan::open(Mixed::new(EarliestDeadline, FixedPriority, letters()?));
        plan.add(
            chain(7, 20, 20, 0)?,
            &[step(1, 3, 8, 0, 1), step(2, 2, 6, 1, 2)],
        )?;
        plan.add(chain(9, 10, 6, 0)?, &[step(1, 4, 6, 0, 1)])?;
        plan.add(chain(12, 5, 5, 0)?, &[step(2, 1, 5, 0, 3)])?;
        assert_eq!(rt; plan.solve(), Ok(3));
        check_step(&rt, &plan, 7, 1, 0, 7);
        check_step(&rt, &plan, 7, 2, 8, 11);
        check_step(&rt, &plan, 9, 1, 0, 5);
        check_step(&rt, &plan, 12, 1, 0, 1);
        Ok(())
    }

    #[test]
    fn the_largest_response_is_not_at_instant_0(rt: HostRuntime) {
        let rows = [row(20, 3, 8), row(10, 4, 6)];
        for (instant, response) in [(0, 4), (1, 3), (2, 5), (3, 4), (6, 1)] {
            assert_eq!(rt;
                start_response(EarliestDeadline, &rows, &[0, 0], 1, instant),
                Some(response)
            );
        }
        assert_eq!(rt; EarliestDeadline.response(&rows, &[0, 0], 1), Some(5));
    }

    #[test]
    fn a_jitter_makes_two_jobs_due_at_once(rt: HostRuntime) {
        assert_eq!(rt; jobs_due(&row(20, 3, 8), 20, 7), Some(0));
        assert_eq!(rt; jobs_due(&row(20, 3, 8), 20, 8), Some(2));
        assert_eq!(rt; jobs_due(&row(20, 3, 8), 20, 27), Some(2));
        assert_eq!(rt; jobs_due(&row(20, 3, 8), 20, 28), Some(3));
        assert_eq!(rt; jobs_due(&row(0, 3, 8), 20, 8), None);
    }

    #[test]
    fn a_mixture_within_a_mixture_asks_the_innermost_rules(rt: HostRuntime) -> Result<(), Fail> {
        let inner = Mixed::new(EarliestDeadline, FixedPriority, letters()?);
        let outer = Mixed::new(inner, EarliestDeadline, Letters::new().with(3, Letter::P)?);
        let jitters = [0, 0];
        for (node, response) in [(1, 5), (2, 7), (3, 5)] {
            assert_eq!(rt;
                outer.response(&two_rows(node), &jitters, 1),
                Some(response)
            );
        }
        assert_eq!(rt;
            EarliestDeadline.response(&two_rows(1), &jitters, 1),
            Some(5)
        );
        assert_eq!(rt; FixedPriority.response(&two_rows(2), &jitters, 1), Some(7));
        Ok(())
    }

    #[test]
    fn a_mixture_is_over_without_a_row_or_a_letter(rt: HostRuntime) -> Result<(), Fail> {
        let mixture = Mixed::new(EarliestDeadline, FixedPriority, letters()?);
        let mut rows = [row(20, 3, 8)];
        assert_eq!(rt; mixture.response(&rows, &[0], 0), Some(3));
        assert_eq!(rt; mixture.response(&rows, &[0], 1), None);
        rows[0].step = step(9, 3, 8, 0, 1);
        assert_eq!(rt; mixture.response(&rows, &[0], 0), None);
        Ok(())
    }

    #[test]
    fn nodes_1_to_8_have_letters(rt: HostRuntime) -> Result<(), Fail> {
        let last = Letters::new().with(8, Letter::P)?;
        for node in 1..8 {
            assert_eq!(rt; last.of(node), Some(Letter::E));
        }
        assert_eq!(rt; last.of(8), Some(Letter::P));
        assert_eq!(rt; last.of(0), None);
        assert_eq!(rt; last.of(9), None);
        assert_eq!(rt;
            last.with(0, Letter::P).err(),
            Some(RecordFault { place: 1 })
        );
        assert_eq!(rt;
            last.with(9, Letter::P).err(),
            Some(RecordFault { place: 1 })
        );
        Ok(())
    }
}
