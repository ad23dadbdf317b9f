// How a node shares its time among the tasks on it.
ghost use Rattle.std.specs.Prelude.{◌≡◌};
ghost use Rattle.policies.specs.Policy.{Policy, Sound};

use crate::task::Task;

// The four numbers of a policy. A busy period is looked at from several starts of the task that is asked for.
pub trait SchedulingPolicy {
    // the same numbers as maps, which the contracts cite
    ghost shares: { Policy };

    // How many starts are looked at in a busy period of so many ticks.
    fn starts(&self, task: &Task, busy: u32) -> u32
        ensures { result ≡ shares.starts task.now.row busy };

    // The instant of a start, counted from where the busy period begins.
    fn instant(&self, task: &Task, start: u32) -> u64
        ensures { result ≡ shares.instant task.now.row start };

    // How many of the task's own jobs are done by the end of a start.
    fn own(&self, task: &Task, start: u32) -> u64
        ensures { result ≡ shares.own task.now.row start };

    // How many jobs of another task go before that end in a window of so many ticks.
    fn before(&self, task: &Task, start: u32, other: &Task, window: u32) -> u64
        ensures { result ≡ shares.before task.now.row start other.now.row other.now.jitter window };

    ghost sound: { Sound shares };
}
