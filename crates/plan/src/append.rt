// One chain more in a plan's memory.
ghost use Rattle.std.specs.Prelude.{◌≡◌, ◌+◌, ◌<◌, ◌≤◌, length};
ghost use Rattle.plan.specs.Contents.{with_rows, appended};

use crate::table::{Entry, Table};
use records::{ChainFields, Row, StepFields};

impl Table {
    // A row for each step, behind the rows held, with 0 to start from.
    fn append_rows(&mut self, period: u32, steps: &[StepFields])
        requires rows { length self.old.rows.items + length steps.now ≤ 64 }
        requires responses { length self.old.responses.items + length steps.now ≤ 64 }
        ensures { self.new ≡ with_rows self.old period steps.now }
    {
        for step in steps {
            self.rows.push(Row {
                period,
                step: *step,
            });
            self.responses.push(0);
        }
    }

    // The chain behind the others.
    pub(crate) fn append(&mut self, fields: ChainFields, steps: &[StepFields])
        requires chains { length self.old.entries.items < 16 }
        requires rows { length self.old.rows.items + length steps.now ≤ 64 }
        requires responses { length self.old.responses.items + length steps.now ≤ 64 }
        ensures { self.new ≡ appended self.old fields steps.now }
    {
        self.append_rows(fields.period, steps);
        let steps = steps.len();
        self.entries.push(Entry { fields, steps });
        self.standing = None;
    }
}
