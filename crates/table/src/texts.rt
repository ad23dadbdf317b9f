// A whole text.
ghost use Rattle.std.specs.Prelude.{◌≡◌, ◌≤◌, length, IfOk};
ghost use Rattle.std.specs.Result.{result_map_both, result_unwrap_or};
ghost use Rattle.lines.specs.Texts.{lines_of};
ghost use Rattle.reading.specs.Reading.{of_nodes, no_node, no_panel, read_lines, table_of, accepted};
ghost use Rattle.sheets.specs.Sheets.{InverseOfWriting};
ghost use Rattle.table.specs.Drafts.{panel_in, draft_in, Unsolved, UnsolvedSoFar};

use crate::chains::open;
use crate::draft::Draft;
use crate::reader::{Reader, TablePlan};
use lines::{TableFault, TextCursor, check_text};
use mixed::Letters;

// The lines of a text one after another, up to the first fault.
fn draft_of(text: &[u8]) -> Result<Draft, TableFault>
    requires { length text.now ≤ 32768 }
    ensures value { result_map_both draft_in (λ fault. fault) result ≡ read_lines 1 (of_nodes no_node) (lines_of text.now) }
    ensures unsolved { IfOk result UnsolvedSoFar }
{
    let mut draft = Draft::new();
    let mut lines = TextCursor::new(text);
    // no `for`: the cursor tells each line's number
    while let Some(line) = lines.next() {
        draft = draft.with_line(lines.number(), line)?;
    }
    Ok(draft)
}

// The plan that a text gives, or the text's first fault.
fn plan_of(text: &[u8]) -> Result<TablePlan, TableFault>
    ensures value { result_map_both panel_in (λ fault. fault) result ≡ table_of text.now }
    ensures unsolved { IfOk result Unsolved }
{
    check_text(text)?;
    draft_of(text)?.finish()
}

impl Reader {
    // A reader whose plan is empty, with every letter E.
    pub fn new() -> Reader
        ensures panel { panel_in result.plan ≡ no_panel }
        ensures unsolved { Unsolved result.plan }
    {
        Reader {
            plan: open(Letters::new()),
        }
    }

    // Reads a text: the reader's plan is then the one that the text gives. At a fault it is empty, with every letter E.
    #[tactic(auto, using(sheets::proofs::Inverse::inverse))]
    pub fn read(&mut self, text: &[u8]) -> Result<(), TableFault>
        ensures value { result ≡ accepted (table_of text.now) }
        ensures panel { panel_in self.new.plan ≡ result_unwrap_or (table_of text.now) no_panel }
        ensures unsolved { Unsolved self.new.plan }
        ensures inverse { InverseOfWriting text.now (table_of text.now) }
    {
        match plan_of(text) {
            Ok(plan) => {
                self.plan = plan;
                Ok(())
            }
            Err(fault) => {
                self.plan = open(Letters::new());
                Err(fault)
            }
        }
    }
}
