// Solve: rounds from where the plan's memory stands, until one refuses or changes nothing.
ghost use Rattle.std.specs.Prelude.{◌≡◌, true, IfSome};
ghost use Rattle.law.specs.declared.answers.Reply.TheVariants.{Solved};
ghost use Rattle.law.specs.Runs.Call.{solve as solve_call};
ghost use Rattle.law.specs.State.{answer_of, solving, solve_answer, solved_with, Keeps};
ghost use Rattle.plan.specs.Contents.{contents, responses_fit_in, outcome_of};

use crate::plan::Plan;
use crate::round::Assignment;
use crate::table::Settled;
use arrayvec::ArrayVec;
use law::Refusal;
use rules::NodeRule;

impl<R: NodeRule> Plan<R> {
    // The responses that a solve starts from.
    fn start(&self) -> ArrayVec<u32, 64>
        ensures { result.items ≡ self.now.table.responses.items }
    {
        match ArrayVec::try_from(self.table.responses.as_slice()) {
            Ok(start) => start,
            Err(_) => unreachable(),
        }
    }

    // What a solve comes to.
    fn settle(&self) -> Settled
        ensures value { outcome_of result ≡ solving (R.answer self.now.rule) (contents self.now.table) }
        ensures small { IfSome result.responses (λ xs. responses_fit_in self.now.table xs.items ≡ true) }
    {
        let most = self.most_rounds();
        let mut responses = self.start();
        for rounds in 1..=most {
            let now = Assignment {
                plan: self,
                responses: responses.as_slice(),
            };
            let Some(next) = now.next() else {
                return Settled {
                    rounds,
                    responses: None,
                };
            };
            if responses == next {
                return Settled {
                    rounds,
                    responses: Some(next),
                };
            }
            responses = next;
        }
        // no run of calls leads here: the rounds are over before
        Settled {
            rounds: most,
            responses: None,
        }
    }

    // The rounds to the least responses that carry the chains, which are then kept, or refusal 10 with the rounds made.
    pub fn solve(&mut self) -> Result<u32, Refusal>
        ensures rule { self.new.rule ≡ self.old.rule }
        ensures value { answer_of (λ rounds. Solved rounds) result ≡ solve_answer (solving (R.answer self.old.rule) (contents self.old.table)) }
        ensures after { contents self.new.table ≡ solved_with (contents self.old.table) (solving (R.answer self.old.rule) (contents self.old.table)) }
        ensures run { Keeps (R.answer self.old.rule) (contents self.old.table) solve_call (answer_of (λ rounds. Solved rounds) result) (contents self.new.table) }
    {
        let Settled { rounds, responses } = self.settle();
        match responses {
            Some(kept) => {
                self.table.keep(kept, rounds);
                Ok(rounds)
            }
            None => {
                self.table.forget();
                Err(Refusal::NothingCarries { rounds })
            }
        }
    }
}
