// Chains that are complete go into the plan.
ghost use Rattle.std.specs.Prelude.{◌≡◌, [], IfOk};
ghost use Rattle.std.specs.Result.{result_map_both};
ghost use Rattle.reading.specs.Reading.{entry, with_chain, numbered as with_number};
ghost use Rattle.table.specs.Drafts.{panel_in, chain_in, Unsolved};

use crate::begun::ChainBegun;
use crate::reader::TablePlan;
use edf::EarliestDeadline;
use fixed::FixedPriority;
use lines::{LineFault, TableFault};
use mixed::{Letters, Mixed};
use plan::Plan;

// The result of a line, with the line's number beside a fault.
pub(crate) fn numbered<T>(res: Result<T, LineFault>, line: u32) -> Result<T, TableFault>
    ensures { result ≡ with_number line res }
{
    res.map_err(|fault| fault.on(line))
}

// A plan with these letters and no chain.
// `Unsolved` is a clause of each function here, and no ghost field: many runs of calls lead to one plan, and a ghost field's fact has one proof at most.
pub(crate) fn open(letters: Letters) -> TablePlan
    ensures panel { panel_in result ≡ record { letters = letters; chains = [] } }
    ensures unsolved { Unsolved result }
{
    Plan::open(Mixed::new(EarliestDeadline, FixedPriority, letters))
}

impl ChainBegun {
    // The plan with this chain, which is complete; or 2 to 5.
    fn enter(&self, mut plan: TablePlan) -> Result<TablePlan, LineFault>
        requires { Unsolved plan }
        ensures value { result_map_both panel_in (λ fault. fault) result ≡ entry (panel_in plan) (chain_in self.now) }
        ensures unsolved { IfOk result Unsolved }
    {
        plan.add(self.chain, self.steps.as_slice())?;
        Ok(plan)
    }

    // As `enter`, with the chain's own line beside a fault.
    pub(crate) fn complete(&self, plan: TablePlan) -> Result<TablePlan, TableFault>
        requires { Unsolved plan }
        ensures value { result_map_both panel_in (λ fault. fault) result ≡ with_chain (panel_in plan) (chain_in self.now) }
        ensures unsolved { IfOk result Unsolved }
    {
        numbered(self.enter(plan), self.line)
    }
}
