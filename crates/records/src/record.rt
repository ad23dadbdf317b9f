// The records: a value of these types has every field in its range.
// They are two structs, not one generic over its fields: an accessor is all that they share, and a trait of fields would be longer than what it saves.
ghost use Rattle.std.specs.Prelude.{◌≡◌, true};
ghost use Rattle.records.specs.Ranges.{chain_fits, step_fits};

use crate::fields::{ChainFields, StepFields};

#[derive(Clone, Copy, PartialEq, Eq, Debug)]
pub struct Chain {
    pub(crate) fields: ChainFields,
    ghost in_range: { chain_fits fields ≡ true },
}

#[derive(Clone, Copy, PartialEq, Eq, Debug)]
pub struct Step {
    pub(crate) fields: StepFields,
    ghost in_range: { step_fits fields ≡ true },
}
