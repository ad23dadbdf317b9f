// A row of a valid call with its release jitter: every number is in its range, so that code divides by the period as it stands.
ghost use Rattle.std.specs.Prelude.{◌≡◌, ◌≤◌, true};
ghost use Rattle.records.specs.Ranges.{row_fits};

use records::Row;

#[derive(Clone, Copy)]
pub struct Task {
    pub(crate) row: Row,
    pub(crate) jitter: u32,
    ghost in_range: { row_fits row ≡ true },
    ghost small: { jitter ≤ 2000000 },
}
