// The time that the tasks of a node ask of it, if some jobs of each count.
ghost use Rattle.std.specs.Prelude.{◌≡◌, ℕ, ◌-◌, ◌^◌, min};
ghost use Rattle.policies.specs.Busy.{work};
ghost use Rattle.policies.specs.Jobs.{Tells};

use crate::call::ValidCall;
use crate::task::Task;

impl<P: Copy> ValidCall<'_, P> {
    // The sum over the tasks on the node of the task that is asked for, where `jobs` says how many of a task's jobs count;
    // the largest u64 stands for anything that a u64 cannot hold.
    pub(crate) fn node_work<F: Fn(Task, usize) -> u64>(&self, jobs: F) -> u64
        requires { F.IsAlwaysCallable jobs }
        ensures { (count : ℕ → ℕ) → Tells (F.post jobs) self.now.rows.now self.now.jitters.now count → result ≡ min (work self.now.rows.now self.now.asked count) (2 ^ 64 - 1) }
    {
        let node = self.asked_task().row.step.node;
        let mut sum: u64 = 0;
        for (index, (row, jitter)) in self.rows.iter().zip(self.jitters).enumerate() {
            if row.step.node == node {
                let task = Task {
                    row: *row,
                    jitter: *jitter,
                };
                let cost = u64::from(row.step.cost);
                sum = sum.saturating_add(jobs(task, index).saturating_mul(cost));
            }
        }
        sum
    }
}
