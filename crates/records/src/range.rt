// The test of one field.
ghost use Rattle.std.specs.Prelude.{◌≡◌, false};
ghost use Rattle.std.specs.Range.{range_inclusive_start, range_inclusive_end, range_inclusive_exhausted};
ghost use Rattle.records.specs.Ranges.{within, in_range_answer};

use crate::fields::RecordFault;
use std::ops::RangeInclusive;

// The field at a place lies in its range.
pub(crate) fn in_range(
    place: u32,
    range: RangeInclusive<u32>,
    value: u32,
) -> Result<(), RecordFault>
    requires { range_inclusive_exhausted range ≡ false }
    ensures { result ≡ in_range_answer place (within (range_inclusive_start range) (range_inclusive_end range) value) }
{
    if range.contains(&value) {
        Ok(())
    } else {
        Err(RecordFault { place })
    }
}
