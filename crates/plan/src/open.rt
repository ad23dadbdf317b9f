// A new plan.
ghost use Rattle.std.specs.Prelude.{◌≡◌, []};
ghost use Rattle.law.specs.State.{new_plan, Leads};
ghost use Rattle.plan.specs.Contents.{contents};

use crate::plan::Plan;
use crate::table::Table;
use arrayvec::ArrayVec;
use records::Blank;
use rules::NodeRule;

impl<R: NodeRule> Plan<R> {
    // A plan with this node rule: it holds no chain and keeps no responses.
    pub fn open(rule: R) -> Plan<R>
        ensures rule { result.rule ≡ rule }
        ensures after { contents result.table ≡ new_plan }
        ensures run { Leads (R.answer rule) [] (contents result.table) }
    {
        let table = Table {
            entries: ArrayVec::new(),
            rows: ArrayVec::new_in(Blank),
            responses: ArrayVec::new(),
            standing: None,
        };
        Plan { rule, table }
    }
}
