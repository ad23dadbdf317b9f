// A chain's line, and its steps one after another.
ghost use Rattle.std.specs.Prelude.{◌≡◌, IfOk};
ghost use Rattle.std.specs.Result.{result_map_both};
ghost use Rattle.records.specs.Ranges.{bad_chain_field};
ghost use Rattle.reading.specs.Reading.{begun, with_step, fit_answer, step_answer};
ghost use Rattle.table.specs.Drafts.{chain_in};

use crate::begun::ChainBegun;
use crate::given::{Given, WRONG_NODE};
use arrayvec::ArrayVec;
use lines::LineFault;
use records::{Blank, Chain, ChainFields, Step, StepFields};

// The record of a chain's line, or 1.
pub(crate) fn chain_record(fields: ChainFields) -> Result<Chain, LineFault>
    ensures fits { result_map_both (λ _. tt) (λ fault. fault) result ≡ fit_answer (bad_chain_field fields) }
    ensures kept { IfOk result (λ chain. chain.fields ≡ fields) }
{
    Ok(Chain::try_from(fields)?)
}

impl Given {
    // A step's fields are in range, and its node has been given; else 1 or 19.
    pub(crate) fn check_step(&self, step: StepFields) -> Result<(), LineFault>
        ensures { result ≡ step_answer self.now.by_node step }
    {
        Step::try_from(step)?;
        if self.has(step.node) {
            Ok(())
        } else {
            Err(WRONG_NODE)
        }
    }
}

impl ChainBegun {
    // A chain with no step yet.
    pub(crate) fn new(line: u32, chain: Chain) -> ChainBegun
        ensures { chain_in result ≡ begun line chain.fields }
    {
        ChainBegun {
            line,
            chain,
            steps: ArrayVec::new_in(Blank),
        }
    }

    // One step more; 17 steps stay as they are.
    pub(crate) fn with(mut self, step: StepFields) -> ChainBegun
        ensures { chain_in result ≡ with_step (chain_in self) step }
    {
        let _ = self.steps.try_push(step);
        self
    }
}
