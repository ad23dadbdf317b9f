// What the unused places of a list of fixed capacity hold.
ghost use Rattle.std.specs.Prelude.{◌≡◌};
ghost use Rattle.records.specs.Blanks.{blank_step, blank_row};

use crate::fields::{LocalDeadline, Row, StepFields};
use std::default::MadeWith;

// Fills a list's unused places, which nothing reads. No record has a `Default`, so that a missing field can't be read as zero.
#[derive(Clone, Copy)]
pub struct Blank;

impl MadeWith<Blank> for StepFields {
    ghost is_made_with = { λ step. step ≡ blank_step };

    fn made_with(_blank: Blank) -> StepFields {
        StepFields {
            node: 0,
            cost: 0,
            local: LocalDeadline { ticks: 0 },
            delay: 0,
            blocking: 0,
            priority: 0,
        }
    }
}

impl MadeWith<Blank> for Row {
    ghost is_made_with = { λ row. row ≡ blank_row };

    fn made_with(blank: Blank) -> Row {
        Row {
            period: 0,
            step: StepFields::made_with(blank),
        }
    }
}
