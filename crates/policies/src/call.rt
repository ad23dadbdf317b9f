// A call of a node rule that was found valid, with the policy that shares the node.
ghost use Rattle.std.specs.Prelude.{◌≡◌, true, false, MatchOption, slice_index};
ghost use Rattle.rules.specs.Rules.{row, valid};

use crate::checks::is_valid;
use crate::task::Task;
use records::Row;

// Rows with their jitters, and the number of the row that is asked for.
#[derive(Drop)]
pub(crate) struct ValidCall<'c, P> {
    pub(crate) policy: P,
    pub(crate) rows: &'c [Row],
    pub(crate) jitters: &'c [u32],
    pub(crate) asked: usize,
    ghost checked: { valid rows.now jitters.now asked ≡ true },
}

impl<'c, P: Copy> ValidCall<'c, P> {
    // The call, if it is valid.
    pub(crate) fn new(
        policy: P,
        rows: &'c [Row],
        jitters: &'c [u32],
        asked: usize,
    ) -> Option<ValidCall<'c, P>>
        ensures { MatchOption result (valid rows.now jitters.now asked ≡ false) (λ call. (call.rows.now ≡ rows.now) × (call.jitters.now ≡ jitters.now) × (call.asked ≡ asked)) }
    {
        // A closure under `then` would have to ask for the tested fact again.
        if is_valid(rows, jitters, asked) {
            Some(ValidCall {
                policy,
                rows,
                jitters,
                asked,
            })
        } else {
            None
        }
    }

    // The row that is asked for, with its jitter.
    #[tactic(auto, using(rules::proofs::Validity::valid_shows))]
    pub(crate) fn asked_task(&self) -> Task
        ensures row { result.row ≡ row self.now.rows.now self.now.asked }
        ensures jitter { result.jitter ≡ slice_index self.now.jitters.now self.now.asked }
    {
        Task {
            row: self.rows[self.asked],
            jitter: self.jitters[self.asked],
        }
    }
}
