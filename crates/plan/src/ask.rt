// Ask: the jitter and the response of one step.
ghost use Rattle.std.specs.Prelude.{◌≡◌};
ghost use Rattle.law.specs.declared.answers.Reply.TheVariants.{Told};
ghost use Rattle.law.specs.Runs.Call.{ask as ask_call};
ghost use Rattle.law.specs.State.{answer_of, ask_answer, Keeps};
ghost use Rattle.plan.specs.Contents.{contents};

use crate::plan::Plan;
use law::{Refusal, Timing};
use rules::NodeRule;

impl<R: NodeRule> Plan<R> {
    // The jitter and the response of a step, counted from 1, or 6, 7 or 9.
    pub fn ask(&self, id: u32, step: u32) -> Result<Timing, Refusal>
        ensures value { answer_of (λ timing. Told timing) result ≡ ask_answer (contents self.now.table) id step }
        ensures run { Keeps (R.answer self.now.rule) (contents self.now.table) (ask_call id step) (answer_of (λ timing. Told timing) result) (contents self.now.table) }
    {
        let row = self.locate(id, step)?;
        self.table.standing.ok_or(Refusal::NotSolved)?;
        let kept = self.kept();
        let jitter = kept.jitter(row);
        let response = kept.responses[row];
        Ok(Timing { jitter, response })
    }
}
