// Where chains and rows stand in a plan's memory.
ghost use Rattle.std.specs.Prelude.{◌≡◌, ◌<◌, true, IfOk, Some, length};
ghost use Rattle.records.specs.Ranges.{chain_fits};
ghost use Rattle.plan.specs.Contents.{chains_of, span_of, row_named, place_in};

use crate::plan::Plan;
use crate::table::{Place, Span};
use law::Refusal;

impl<R> Plan<R> {
    // Where the chain of an id stands.
    pub(crate) fn find(&self, id: u32) -> Option<Span>
        ensures { result ≡ span_of (chains_of self.now.table) id }
    {
        let mut first = 0;
        // a loop, and no `position`: the first row is counted on the way
        for (entry, held) in self.table.entries.iter().enumerate() {
            let steps = held.steps;
            if held.fields.id == id {
                return Some(Span {
                    entry,
                    first,
                    steps,
                });
            }
            first += steps;
        }
        None
    }

    // The row of a chain's step, counted from 1, or 6 or 7.
    pub(crate) fn locate(&self, id: u32, step: u32) -> Result<usize, Refusal>
        ensures value { result ≡ row_named (chains_of self.now.table) id step }
        ensures inside { IfOk result (λ row. row < length self.now.table.rows.items) }
    {
        let span = self.find(id).ok_or(Refusal::IdUnknown)?;
        let step = step as usize;
        if step == 0 || step > span.steps {
            return Err(Refusal::NoSuchStep);
        }
        Ok(span.first + (step - 1))
    }

    // The chain of a row, and the row's place in it.
    pub(crate) fn place(&self, row: usize) -> Place
        requires { row < length self.now.table.rows.items }
        ensures value { Some result ≡ place_in (chains_of self.now.table) row }
        ensures fits { chain_fits result.chain ≡ true }
    {
        let mut step = row;
        // a loop, and no `find`: the rows passed over are counted off
        for held in self.table.entries.as_slice() {
            if step < held.steps {
                let chain = held.fields;
                return Place { chain, step };
            }
            step -= held.steps;
        }
        unreachable()
    }
}
