// The earliest-deadline rule: a node runs the pending job whose local deadline comes first.
#![tactic(auto)]

ghost use Rattle.std.specs.Prelude.{◌≡◌, ◌^◌, ◌<◌, ◌≤◌};
ghost use Rattle.edf.specs.Edf.{due, by_deadline, earliest_deadline, due_if_periodic, CountsDue, DueTogether};
ghost use Rattle.edf.specs.Laws.{deadline_sound, deadline_laws};

use policies::{SchedulingPolicy, Task, worst_response};
use records::Row;
use rules::NodeRule;

// How many jobs of a row are due by an instant at most.
fn due_by(row: &Row, jitter: u32, instant: u64) -> u64
    requires periodic { 1 ≤ row.now.period }
    requires near { instant < 2 ^ 34 }
    ensures { result ≡ due row.now jitter instant }
{
    let local = u64::from(row.step.local.ticks);
    // As the definition reads: `checked_sub` would hide the sum that it divides.
    if instant < local {
        0
    } else {
        (u64::from(jitter) + instant - local) / u64::from(row.period) + 1
    }
}

// How many jobs of a row are due by an instant at most, or `None` for a row of no period.
#[tactic(auto, using(crate::specs::Laws::counted_due))]
pub fn jobs_due(row: &Row, jitter: u32, instant: u32) -> Option<u64>
    ensures value { result ≡ due_if_periodic row.now jitter instant }
    ensures counts { CountsDue row.now jitter instant result }
{
    if row.period == 0 {
        None
    } else {
        Some(due_by(row, jitter, u64::from(instant)))
    }
}

// A jitter of a whole period makes two jobs due at one instant, and none before it.
pub fn jobs_due_together()
    ensures { DueTogether }
{}

#[derive(Clone, Copy)]
pub struct EarliestDeadline;

impl SchedulingPolicy for EarliestDeadline {
    ghost shares = { by_deadline };

    ghost sound = { deadline_sound };

    // Every instant of the busy period is a start.
    fn starts(&self, _task: &Task, busy: u32) -> u32 {
        busy
    }

    fn instant(&self, _task: &Task, start: u32) -> u64 {
        u64::from(start)
    }

    // The job of the instant, and those of the task that are due before it.
    fn own(&self, task: &Task, start: u32) -> u64 {
        u64::from(start / task.row().period) + 1
    }

    // Jobs that are due at the same instant go before one another.
    fn before(&self, task: &Task, start: u32, other: &Task, window: u32) -> u64 {
        let deadline = u64::from(start) + u64::from(task.row().step.local.ticks);
        let urgent = due_by(&other.row(), other.jitter(), deadline);
        other.jobs_in(window).min(urgent)
    }
}

// Each rule says this for its own type: one `impl` for every policy would need a wrapper, which each caller would have to write.
impl NodeRule for EarliestDeadline {
    ghost answer = { λ _. earliest_deadline };

    ghost lawful = { λ rule. deadline_laws };

    #[tactic(auto, unfolding(crate::specs::Edf::earliest_deadline))]
    fn response(&self, rows: &[Row], jitters: &[u32], row: usize) -> Option<u32> {
        worst_response(*self, rows, jitters, row)
    }
}
