// One line more of a table's text.
ghost use Rattle.std.specs.Prelude.{◌≡◌, IfOk};
ghost use Rattle.std.specs.Result.{result_map_both};
ghost use Rattle.reading.specs.Reading.{of_nodes, no_node, taken, line_taken, finished};
ghost use Rattle.table.specs.Drafts.{panel_in, draft_in, Unsolved, UnsolvedSoFar};

use crate::begun::ChainBegun;
use crate::chains::{numbered, open};
use crate::draft::Draft;
use crate::given::Nodes;
use crate::reader::TablePlan;
use crate::steps::chain_record;
use lines::{Fault, Line, LineFault, TableFault, read_line};

// A line of this kind may not stand here.
const MISPLACED: LineFault = LineFault {
    fault: Fault::Misplaced,
    field: 0,
};

impl Draft {
    // Nothing is read yet.
    pub(crate) fn new() -> Draft
        ensures value { draft_in result ≡ of_nodes no_node }
        ensures unsolved { UnsolvedSoFar result }
    {
        Draft::Nodes(Nodes::new())
    }

    // The record of line `number`: 18 where it may not stand, 1 or 19, or what the plan refuses of the chain before it.
    fn with_record(self, number: u32, read: Line) -> Result<Draft, TableFault>
        requires { UnsolvedSoFar self }
        ensures value { result_map_both draft_in (λ fault. fault) result ≡ taken number (draft_in self) read }
        ensures unsolved { IfOk result UnsolvedSoFar }
    {
        match (self, read) {
            (Draft::Nodes(nodes), Line::Node(node)) => {
                Ok(Draft::Nodes(numbered(nodes.with(node), number)?))
            }
            (Draft::Nodes(nodes), Line::Chain(fields)) => {
                let chain = numbered(chain_record(fields), number)?;
                let begun = ChainBegun::new(number, chain);
                Ok(Draft::Chains(nodes.given, open(nodes.letters), begun))
            }
            (Draft::Nodes(_), Line::Step(_)) | (Draft::Chains(_, _, _), Line::Node(_)) => {
                Err(MISPLACED.on(number))
            }
            (Draft::Chains(given, plan, begun), Line::Chain(fields)) => {
                let chain = numbered(chain_record(fields), number)?;
                let plan = begun.complete(plan)?;
                Ok(Draft::Chains(given, plan, ChainBegun::new(number, chain)))
            }
            (Draft::Chains(given, plan, begun), Line::Step(step)) => {
                numbered(given.check_step(step), number)?;
                Ok(Draft::Chains(given, plan, begun.with(step)))
            }
        }
    }

    // The bytes of line `number`: a record, or 13 to 17.
    pub(crate) fn with_line(self, number: u32, line: &[u8]) -> Result<Draft, TableFault>
        requires { UnsolvedSoFar self }
        ensures value { result_map_both draft_in (λ fault. fault) result ≡ line_taken number (draft_in self) line.now }
        ensures unsolved { IfOk result UnsolvedSoFar }
    {
        let read = numbered(read_line(line), number)?;
        self.with_record(number, read)
    }

    // After the last line: the plan with all chains.
    pub(crate) fn finish(self) -> Result<TablePlan, TableFault>
        requires { UnsolvedSoFar self }
        ensures value { result_map_both panel_in (λ fault. fault) result ≡ finished (draft_in self) }
        ensures unsolved { IfOk result Unsolved }
    {
        match self {
            Draft::Nodes(nodes) => Ok(open(nodes.letters)),
            Draft::Chains(_, plan, begun) => begun.complete(plan),
        }
    }
}
