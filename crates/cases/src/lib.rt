// Worked cases of the written definitions, proved.
#![tactic(auto)]

ghost use Rattle.cases.specs.Cases.{WorkedCases};

// Lists of calls on a new plan, with what the definitions answer to each.
#[tactic(auto, using(crate::proofs::Computed::computed))]
pub fn worked_cases()
    ensures { WorkedCases }
{}
