// What a task tells of itself.
ghost use Rattle.std.specs.Prelude.{◌≡◌};
ghost use Rattle.policies.specs.Ranges.{ceil};
ghost use Rattle.policies.specs.Busy.{arrivals};

use crate::task::Task;
use records::Row;

impl Task {
    pub fn row(&self) -> Row
        ensures { result ≡ self.now.row }
    {
        self.row
    }

    // The release jitter.
    pub fn jitter(&self) -> u32
        ensures { result ≡ self.now.jitter }
    {
        self.jitter
    }

    // How many periods begin in a window: its ticks over the period, rounded up.
    #[tactic(auto, using(crate::specs::RangesLemmas::ceil_is, records::proofs::InRange::row_in_range))]
    pub fn periods_begun(&self, ticks: u64) -> u64
        ensures { result ≡ ceil ticks self.now.row.period }
    {
        ticks.div_ceil(u64::from(self.row.period))
    }

    // How many jobs come at most in a window of so many ticks.
    pub fn jobs_in(&self, window: u32) -> u64
        ensures { result ≡ arrivals self.now.row self.now.jitter window }
    {
        self.periods_begun(u64::from(window) + u64::from(self.jitter))
    }
}
