// How a step's record is made of plain fields, and read again; and the test of a row.
ghost use Rattle.std.specs.Prelude.{◌≡◌};
ghost use Rattle.records.specs.Checked.{CheckedStep};
ghost use Rattle.records.specs.Ranges.{row_fits};

use crate::fields::{RecordFault, Row, StepFields};
use crate::range::in_range;
use crate::record::Step;

// The record, or the place of the first field out of range.
impl TryFrom<StepFields> for Step {
    type Error = RecordFault;

    ghost try_from_gives = { CheckedStep };

    fn try_from(fields: StepFields) -> Result<Step, RecordFault> {
        in_range(1, 1..=8, fields.node)?;
        in_range(2, 1..=1_000_000, fields.cost)?;
        in_range(3, 1..=1_000_000, fields.local.ticks)?;
        in_range(4, 0..=1_000_000, fields.delay)?;
        in_range(5, 0..=1_000_000, fields.blocking)?;
        in_range(6, 0..=255, fields.priority)?;
        Ok(Step { fields })
    }
}

impl Step {
    pub fn fields(&self) -> StepFields
        ensures { result ≡ self.now.fields }
    {
        self.fields
    }
}

impl Row {
    // Every number of the row is in its range.
    pub fn fits(&self) -> bool
        ensures { result ≡ row_fits self.now }
    {
        (1..=1_000_000).contains(&self.period) && Step::try_from(self.step).is_ok()
    }
}
