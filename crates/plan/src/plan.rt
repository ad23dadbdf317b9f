// The plan, with what holds of its memory whatever the node rule.
ghost use Rattle.std.specs.Prelude.{◌≡◌, ◌≤◌, true, length};
ghost use Rattle.records.specs.Ranges.{row_fits};
ghost use Rattle.std.specs.List.{list_all};
ghost use Rattle.plan.specs.Contents.{steps_in, entry_fits, responses_fit_in};

use crate::table::Table;

#[derive(Drop)]
pub struct Plan<R> {
    pub(crate) rule: R,
    pub(crate) table: Table,
    // the capacities of the lists, known by their types, said again for the proofs above
    ghost few_chains: { length table.entries.items ≤ 16 },
    ghost few_rows: { length table.rows.items ≤ 64 },
    ghost rows_counted: { steps_in table.entries.items ≡ length table.rows.items },
    ghost chains_fit: { list_all entry_fits table.entries.items ≡ true },
    ghost rows_fit: { list_all row_fits table.rows.items ≡ true },
    ghost responses_fit: { responses_fit_in table table.responses.items ≡ true },
}
