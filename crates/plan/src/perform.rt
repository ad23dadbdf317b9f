// A list of calls, made one after another on a plan.
ghost use Rattle.std.specs.Prelude.{◌≡◌, min, [], map, length, take, drop};
ghost use Rattle.law.specs.Runs.{Run, Lawful};
ghost use Rattle.law.specs.State.{new_plan, call_answer, call_after, answers_to, after_calls, run_on, Leads, Keeps};
ghost use Rattle.plan.specs.Calls.{meant};
ghost use Rattle.plan.specs.Contents.{contents};

use crate::calls::PlanCall;
use crate::plan::Plan;
use law::{Answer, Reply};
use rules::NodeRule;

impl<R: NodeRule> Plan<R> {
    // Makes a call that comes as data.
    pub fn perform(&mut self, call: &PlanCall) -> Answer
        ensures rule { self.new.rule ≡ self.old.rule }
        ensures value { result ≡ call_answer (R.answer self.old.rule) (contents self.old.table) (meant call.now) }
        ensures after { contents self.new.table ≡ call_after (R.answer self.old.rule) (contents self.old.table) (meant call.now) }
        ensures run { Keeps (R.answer self.old.rule) (contents self.old.table) (meant call.now) result (contents self.new.table) }
    {
        match call {
            PlanCall::Add { chain, steps } => {
                self.add(*chain, steps.as_slice()).map(|()| Reply::Done)
            }
            PlanCall::DropChain { id } => self.drop_chain(*id).map(|()| Reply::Done),
            PlanCall::Recost { id, step, cost } => {
                self.recost(*id, *step, *cost).map(|()| Reply::Done)
            }
            PlanCall::Solve => self.solve().map(|rounds| Reply::Solved { rounds }),
            PlanCall::Ask { id, step } => self.ask(*id, *step).map(Reply::Told),
        }
    }

    // Makes the calls one after another, as far as there is room for their answers, and says how many were made.
    pub fn perform_all(&mut self, calls: &[PlanCall], answers: &mut [Answer]) -> usize
        ensures rule { self.new.rule ≡ self.old.rule }
        ensures count { result ≡ min (length calls.now) (length answers.old) }
        ensures value { take result answers.new ≡ answers_to (R.answer self.old.rule) (contents self.old.table) (map meant (take result calls.now)) }
        ensures rest { drop result answers.new ≡ drop result answers.old }
        ensures after { contents self.new.table ≡ after_calls (R.answer self.old.rule) (contents self.old.table) (map meant (take result calls.now)) }
        ensures run { (h : Run) → Leads (R.answer self.old.rule) h (contents self.old.table) → Leads (R.answer self.old.rule) (run_on (map meant (take result calls.now)) (take result answers.new) h) (contents self.new.table) }
    {
        let count = calls.len().min(answers.len());
        // by an index: of answers written through `iter_mut` a proof knows the number, and not what they are
        for (k, call) in calls[..count].iter().enumerate() {
            answers[k] = self.perform(call);
        }
        count
    }
}

// Makes the calls one after another on a new plan with this rule, as far as there is room for their answers: the law over runs.
// Whatever the calls, each of the answers is the one that is right after the calls before it.
pub fn replay<R: NodeRule + Drop>(rule: R, calls: &[PlanCall], answers: &mut [Answer]) -> usize
    ensures count { result ≡ min (length calls.now) (length answers.old) }
    ensures value { take result answers.new ≡ answers_to (R.answer rule) new_plan (map meant (take result calls.now)) }
    ensures rest { drop result answers.new ≡ drop result answers.old }
    ensures lawful { Lawful (R.answer rule) (run_on (map meant (take result calls.now)) (take result answers.new) []) }
{
    Plan::open(rule).perform_all(calls, answers)
}
