// How a call is checked.
ghost use Rattle.std.specs.Prelude.{◌≡◌};
ghost use Rattle.rules.specs.Rules.{valid};

use records::Row;

const LARGEST_JITTER: u32 = 2_000_000;

// The row is one of the rows, each row has a jitter, and all numbers are in their ranges.
pub fn is_valid(rows: &[Row], jitters: &[u32], asked: usize) -> bool
    ensures { result ≡ valid rows.now jitters.now asked }
{
    asked < rows.len()
        && jitters.len() == rows.len()
        && jitters.iter().all(|jitter| *jitter <= LARGEST_JITTER)
        && rows.iter().all(Row::fits)
}
