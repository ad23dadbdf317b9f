// The largest response over the starts of a busy period.
ghost use Rattle.std.specs.Prelude.{◌≡◌, Some};
ghost use Rattle.policies.specs.Policy.{response, worst, answer, start_answer};

use crate::call::ValidCall;
use crate::completion::Completion;
use crate::node_load::NodeLoad;
use crate::scheduling::SchedulingPolicy;
use climb::climb;
use records::Row;

// A busy period, or a completion, that passes its limit is over.
const BUSY_LIMIT: u32 = 1_000_000;

const COMPLETION_LIMIT: u32 = 4_000_000;

impl<P: SchedulingPolicy + Copy> ValidCall<'_, P> {
    // The response of one start, counted from its job's arrival, which is the jitter before the start's instant.
    #[tactic(auto, using(climb::proofs::Settling::settled_limit, climb::proofs::Answers::within_is), unfolding(crate::specs::Policy::response))]
    fn response_of(&self, start: u32) -> Option<u32>
        ensures { result ≡ response P.SchedulingPolicy.shares self.now.rows.now self.now.jitters.now self.now.asked start }
    {
        let task = self.asked_task();
        let completion = climb(&Completion { call: self, start }, COMPLETION_LIMIT)?;
        let end = u64::from(task.jitter) + u64::from(completion);
        Some(end.saturating_sub(self.policy.instant(&task, start)) as u32)
    }

    // The largest response over the starts of a busy period of so many ticks.
    #[tactic(auto, unfolding(crate::specs::Policy::worst))]
    fn largest_response(&self, busy: u32) -> Option<u32>
        ensures { result ≡ worst P.SchedulingPolicy.shares self.now.rows.now self.now.jitters.now self.now.asked (Some busy) }
    {
        let mut largest: u32 = 0;
        for start in 0..self.policy.starts(&self.asked_task(), busy) {
            largest = largest.max(self.response_of(start)?);
        }
        Some(largest)
    }

    // The worst-case response time that the call asks for.
    #[tactic(auto, unfolding(crate::specs::Busy::busy, crate::specs::Policy::worst, crate::specs::Policy::answer))]
    fn worst(&self) -> Option<u32>
        ensures { result ≡ answer P.SchedulingPolicy.shares self.now.rows.now self.now.jitters.now self.now.asked }
    {
        let busy = climb(&NodeLoad { call: self }, BUSY_LIMIT)?;
        self.largest_response(busy)
    }
}

// The response time of one start of a row, counted from 0, or `None` where it is over or the call is not valid.
pub fn start_response<P: SchedulingPolicy + Copy>(
    policy: P,
    rows: &[Row],
    jitters: &[u32],
    row: usize,
    start: u32,
) -> Option<u32>
    ensures { result ≡ start_answer P.SchedulingPolicy.shares rows.now jitters.now row start }
{
    ValidCall::new(policy, rows, jitters, row)?.response_of(start)
}

// The worst-case response time of a row, or `None` where it is over or the call is not valid.
#[tactic(auto, unfolding(crate::specs::Policy::answer))]
pub fn worst_response<P: SchedulingPolicy + Copy>(
    policy: P,
    rows: &[Row],
    jitters: &[u32],
    row: usize,
) -> Option<u32>
    ensures { result ≡ answer P.SchedulingPolicy.shares rows.now jitters.now row }
{
    ValidCall::new(policy, rows, jitters, row)?.worst()
}
