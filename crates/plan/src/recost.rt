// Recost: another cost for one step.
ghost use Rattle.std.specs.Prelude.{◌≡◌, is_ok, if◌then◌else◌};
ghost use Rattle.law.specs.declared.answers.Reply.TheVariants.{Done};
ghost use Rattle.law.specs.Runs.{recost_answer};
ghost use Rattle.law.specs.Runs.Call.{recost as recost_call};
ghost use Rattle.law.specs.State.{answer_of, recosts, Keeps};
ghost use Rattle.plan.specs.Contents.{chains_of, contents};

use crate::plan::Plan;
use law::Refusal;
use records::{Row, StepFields};
use rules::NodeRule;

// Writes a row that was lent, whole.
fn overwrite(place: &mut Row, row: Row)
    ensures { place.new ≡ row }
{
    *place = row;
}

impl<R: NodeRule> Plan<R> {
    // Gives a step, counted from 1, another cost, and changes no other field of any record; or 6, 7 or 8. The kept responses are forgotten.
    pub fn recost(&mut self, id: u32, step: u32, cost: u32) -> Result<(), Refusal>
        ensures rule { self.new.rule ≡ self.old.rule }
        ensures value { answer_of (λ _. Done) result ≡ recost_answer (chains_of self.old.table) id step cost }
        ensures after { contents self.new.table ≡ (if is_ok result then recosts (contents self.old.table) id step cost else contents self.old.table) }
        ensures run { Keeps (R.answer self.old.rule) (contents self.old.table) (recost_call id step cost) (answer_of (λ _. Done) result) (contents self.new.table) }
    {
        let row = self.locate(id, step)?;
        if cost == 0 || cost > 1_000_000 {
            return Err(Refusal::CostOutOfRange);
        }
        let old = self.table.rows.as_slice()[row];
        let step = StepFields { cost, ..old.step };
        overwrite(
            &mut self.table.rows.as_mut_slice()[row],
            Row { step, ..old },
        );
        self.table.forget();
        Ok(())
    }
}
