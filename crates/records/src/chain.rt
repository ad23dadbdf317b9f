// How a chain's record is made of plain fields, and read again.
ghost use Rattle.std.specs.Prelude.{◌≡◌};
ghost use Rattle.records.specs.Checked.{CheckedChain};

use crate::fields::{ChainFields, RecordFault};
use crate::range::in_range;
use crate::record::Chain;

// The record, or the place of the first field out of range.
impl TryFrom<ChainFields> for Chain {
    type Error = RecordFault;

    ghost try_from_gives = { CheckedChain };

    fn try_from(fields: ChainFields) -> Result<Chain, RecordFault> {
        in_range(1, 1..=65_535, fields.id)?;
        in_range(2, 1..=1_000_000, fields.period)?;
        in_range(3, 1..=1_000_000, fields.deadline.ticks)?;
        in_range(4, 0..=1_000_000, fields.arrival_jitter)?;
        Ok(Chain { fields })
    }
}

impl Chain {
    pub fn fields(&self) -> ChainFields
        ensures { result ≡ self.now.fields }
    {
        self.fields
    }
}
