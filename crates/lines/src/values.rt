// What a field can be read as.
ghost use Rattle.std.specs.Prelude.{◌≡◌, ℕ, List, Result};
ghost use Rattle.lines.specs.declared.faults.Fault.{Fault as Refused};
ghost use Rattle.lines.specs.Numbers.{number_answer};
ghost use Rattle.lines.specs.Places.{letter_answer};

use crate::faults::Fault;
use crate::numbers::number_in;
use crate::places::letter_in;
use mixed::Letter;

// A value that a field can give, or the field's fault.
pub(crate) trait FieldValue: Sized {
    ghost answer: { List ℕ → Result Self Refused };

    fn read(field: &[u8]) -> Result<Self, Fault>
        ensures { result ≡ answer field.now };
}

impl FieldValue for u32 {
    ghost answer = { number_answer };

    fn read(field: &[u8]) -> Result<u32, Fault> {
        number_in(field)
    }
}

impl FieldValue for Letter {
    ghost answer = { letter_answer };

    fn read(field: &[u8]) -> Result<Letter, Fault> {
        letter_in(field)
    }
}
