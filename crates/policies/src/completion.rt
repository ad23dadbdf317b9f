// The demand up to the end of a start, as a rising rule: it settles where the start's last job is done.
ghost use Rattle.policies.specs.Policy.{demand};
ghost use Rattle.rules.proofs.Validity.{valid_shows};
ghost use Rattle.policies.specs.PolicyLemmas.{demand_rises};

use crate::call::ValidCall;
use crate::scheduling::SchedulingPolicy;
use climb::RisingRule;

#[derive(Drop)]
pub(crate) struct Completion<'c, P> {
    pub(crate) call: &'c ValidCall<'c, P>,
    pub(crate) start: u32,
}

impl<P: SchedulingPolicy + Copy> RisingRule for Completion<'_, P> {
    ghost gives = { λ s. demand P.SchedulingPolicy.shares s.call.now.rows.now s.call.now.jitters.now s.call.now.asked s.start };

    ghost rises = { λ rule. demand_rises P.SchedulingPolicy.shares P.SchedulingPolicy.sound (valid_shows _ _ _ rule.call.now.checked) rule.start };

    fn apply(&self, at: u32) -> u64 {
        let call = self.call;
        let task = call.asked_task();
        let own = call
            .policy
            .own(&task, self.start)
            .saturating_mul(u64::from(task.row.step.cost));
        // The task's own jobs are counted apart.
        let others = call.node_work(|other, index| {
            if index == call.asked {
                0
            } else {
                call.policy.before(&task, self.start, &other, at)
            }
        });
        u64::from(task.row.step.blocking)
            .saturating_add(own)
            .saturating_add(others)
    }
}
