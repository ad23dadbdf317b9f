// The fixed-priority rule: a node runs the pending job of the largest priority.
#![tactic(auto)]

ghost use Rattle.std.specs.Prelude.{◌≡◌, ◌↔◌, ℕ, ◌*◌, ◌<◌};
ghost use Rattle.fixed.specs.Fixed.{by_priority, fixed_priority};
ghost use Rattle.fixed.specs.Laws.{priority_sound, fixed_laws};

use policies::{SchedulingPolicy, Task, worst_response};
use records::Row;
use rules::NodeRule;

#[derive(Clone, Copy)]
pub struct FixedPriority;

impl SchedulingPolicy for FixedPriority {
    ghost shares = { by_priority };

    ghost sound = { priority_sound };

    // Start q is looked at exactly if its instant, q periods, lies in the busy period.
    #[tactic(auto, using(policies::specs::RangesLemmas::ceil_le, policies::specs::RangesLemmas::ceil_counts, records::proofs::InRange::row_in_range))]
    fn starts(&self, task: &Task, busy: u32) -> u32
        ensures value { result ≡ by_priority.starts task.now.row busy }
        ensures inside { (q : ℕ) → (q < result) ↔ (q * task.now.row.period < busy) }
    {
        task.periods_begun(u64::from(busy)) as u32
    }

    fn instant(&self, task: &Task, start: u32) -> u64 {
        u64::from(start) * u64::from(task.row().period)
    }

    fn own(&self, _task: &Task, start: u32) -> u64 {
        u64::from(start) + 1
    }

    // Rows of equal priority go before one another.
    fn before(&self, task: &Task, _start: u32, other: &Task, window: u32) -> u64 {
        if other.row().step.priority >= task.row().step.priority {
            other.jobs_in(window)
        } else {
            0
        }
    }
}

// Each rule says this for its own type: one `impl` for every policy would need a wrapper, which each caller would have to write.
impl NodeRule for FixedPriority {
    ghost answer = { λ _. fixed_priority };

    ghost lawful = { λ rule. fixed_laws };

    #[tactic(auto, unfolding(crate::specs::Fixed::fixed_priority))]
    fn response(&self, rows: &[Row], jitters: &[u32], row: usize) -> Option<u32> {
        worst_response(*self, rows, jitters, row)
    }
}
