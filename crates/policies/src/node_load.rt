// The load of a node, as a rising rule: it settles in the node's busy period. Every job that comes in a window counts.
ghost use Rattle.policies.specs.Busy.{load};
ghost use Rattle.rules.proofs.Validity.{valid_shows};
ghost use Rattle.policies.specs.PolicyLemmas.{load_rises};

use crate::call::ValidCall;
use climb::RisingRule;

#[derive(Drop)]
pub(crate) struct NodeLoad<'c, P> {
    pub(crate) call: &'c ValidCall<'c, P>,
}

impl<P: Copy> RisingRule for NodeLoad<'_, P> {
    ghost gives = { λ s. load s.call.now.rows.now s.call.now.jitters.now s.call.now.asked };

    ghost rises = { λ rule. load_rises (valid_shows _ _ _ rule.call.now.checked) };

    fn apply(&self, at: u32) -> u64 {
        self.call.node_work(|task, _index| task.jobs_in(at))
    }
}
