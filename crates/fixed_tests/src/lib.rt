// The fixed_priority rule on examples.
#![tactic(auto)]

#[cfg(test)]
mod tests {
    use fixed::FixedPriority;
    use policies::start_response;
    use records::{LocalDeadline, Row, StepFields};
    use rules::NodeRule;

    fn row_on(node: u32, period: u32, cost: u32, priority: u32) -> Row {
        let local = LocalDeadline { ticks: 100 };
        Row {
            period,
            step: StepFields {
                node,
                cost,
                local,
                delay: 0,
                blocking: 0,
                priority,
            },
        }
    }

    fn row(period: u32, cost: u32, priority: u32) -> Row {
        row_on(1, period, cost, priority)
    }

    // The response of the last of two rows.
    fn second_of(first: Row, second: Row, jitters: &[u32]) -> Option<u32> {
        FixedPriority.response(&[first, second], jitters, 1)
    }

    #[test]
    fn the_largest_response_is_not_the_first(rt: HostRuntime) {
        assert_eq!(rt;
            second_of(row(70, 26, 2), row(100, 62, 1), &[0, 0]),
            Some(118)
        );
    }

    #[test]
    fn each_start_has_its_response(rt: HostRuntime) {
        let rows = [row(70, 26, 2), row(100, 62, 1)];
        for (start, response) in [
            (0, 114),
            (1, 102),
            (2, 116),
            (3, 104),
            (4, 118),
            (5, 106),
            (6, 94),
        ] {
            assert_eq!(rt;
                start_response(FixedPriority, &rows, &[0, 0], 1, start),
                Some(response)
            );
        }
    }

    #[test]
    fn the_most_urgent_row_waits_for_none(rt: HostRuntime) {
        assert_eq!(rt;
            second_of(row(100, 62, 1), row(70, 26, 2), &[0, 0]),
            Some(26)
        );
    }

    #[test]
    fn rows_of_equal_priority_delay_each_other(rt: HostRuntime) {
        assert_eq!(rt;
            second_of(row(100, 10, 3), row(100, 20, 3), &[0, 0]),
            Some(30)
        );
        assert_eq!(rt;
            second_of(row(100, 20, 3), row(100, 10, 3), &[0, 0]),
            Some(30)
        );
    }

    #[test]
    fn a_row_on_another_node_does_not_count(rt: HostRuntime) {
        assert_eq!(rt;
            second_of(row_on(2, 70, 26, 2), row(100, 62, 1), &[0, 0]),
            Some(62)
        );
    }

    #[test]
    fn blocking_and_jitter_lengthen_the_response(rt: HostRuntime) {
        let mut blocked = row(100, 10, 1);
        blocked.step.blocking = 5;
        assert_eq!(rt; second_of(row(100, 20, 2), blocked, &[0, 0]), Some(35));
        assert_eq!(rt; second_of(row(100, 20, 2), blocked, &[0, 7]), Some(42));
        // a jitter of 70 lets a second job of the first row come within 35 ticks
        assert_eq!(rt; second_of(row(100, 20, 2), blocked, &[70, 0]), Some(55));
    }

    #[test]
    fn more_work_than_time_is_over(rt: HostRuntime) {
        assert_eq!(rt; second_of(row(10, 6, 2), row(10, 5, 1), &[0, 0]), None);
    }

    // The busy period is 8 or 9 ticks long; what goes on for long is the blocking, with all that comes meanwhile.
    #[test]
    fn a_completion_past_its_limit_is_over(rt: HostRuntime) {
        let mut blocked = row(100, 1, 1);
        blocked.step.blocking = 1_000_000;
        assert_eq!(rt; second_of(row(10, 7, 2), blocked, &[0, 0]), Some(3_333_339));
        assert_eq!(rt; second_of(row(10, 8, 2), blocked, &[0, 0]), None);
    }

    #[test]
    fn a_row_number_past_the_end_is_over(rt: HostRuntime) {
        let rows = [row(100, 10, 1)];
        assert_eq!(rt; FixedPriority.response(&rows, &[0], 0), Some(10));
        assert_eq!(rt; FixedPriority.response(&rows, &[0], 1), None);
    }

    #[test]
    fn jitters_of_another_length_are_over(rt: HostRuntime) {
        assert_eq!(rt; second_of(row(100, 10, 2), row(100, 10, 1), &[0]), None);
        assert_eq!(rt;
            second_of(row(100, 10, 2), row(100, 10, 1), &[0, 0, 0]),
            None
        );
    }

    #[test]
    fn a_jitter_past_its_limit_is_over(rt: HostRuntime) {
        let rows = [row(1_000_000, 1, 1)];
        assert_eq!(rt;
            FixedPriority.response(&rows, &[2_000_000], 0),
            Some(2_000_001)
        );
        assert_eq!(rt; FixedPriority.response(&rows, &[2_000_001], 0), None);
    }

    #[test]
    fn a_row_out_of_range_is_over(rt: HostRuntime) {
        assert_eq!(rt; second_of(row(0, 10, 2), row(100, 10, 1), &[0, 0]), None);
        assert_eq!(rt; second_of(row(100, 0, 2), row(100, 10, 1), &[0, 0]), None);
    }
}
