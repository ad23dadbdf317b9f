// The law over runs leaves nothing free.
ghost use Rattle.law.specs.Determined.{Determined};

use rules::NodeRule;

// After every lawful run of calls on a plan with this rule, each call has an answer that is right, and only one.
#[tactic(auto, using(crate::proofs::Steps::determined))]
pub fn one_right_answer<R: NodeRule>(rule: &R)
    ensures { Determined (R.answer rule.now) }
{}
