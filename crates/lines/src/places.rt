// What stands in the field before a cursor.
ghost use Rattle.std.specs.Prelude.{◌≡◌, ◌+◌, ◌<◌};
ghost use Rattle.lines.specs.Fields.{at_place};
ghost use Rattle.lines.specs.Places.{letter_answer, placed, all_fields, Moved};

use crate::cursor::Cursor;
use crate::faults::{Fault, LineFault};
use crate::parts::cut;
use crate::values::FieldValue;
use mixed::Letter;

// The letter that a field is.
pub fn letter_in(field: &[u8]) -> Result<Letter, Fault>
    ensures { result ≡ letter_answer field.now }
{
    match field {
        [] => Err(Fault::EmptyField),
        [byte] => match char::from(*byte) {
            'E' => Ok(Letter::E),
            'P' => Ok(Letter::P),
            _ => Err(Fault::NotALetter),
        },
        _ => Err(Fault::NotALetter),
    }
}

impl<'a> Cursor<'a> {
    // Before the first field of a line.
    pub(crate) fn new(line: &'a [u8]) -> Self
        ensures line { result.line ≡ line.entry }
        ensures field { result.field ≡ 0 }
    {
        Cursor {
            line,
            field: 0,
            rest: line,
        }
    }

    // The next field.
    pub(crate) fn field(&mut self) -> &'a [u8]
        requires { self.old.field < 7 }
        ensures value { result.now ≡ at_place (all_fields self.old) (self.old.field + 1) }
        ensures after { Moved self.old self.new }
    {
        let (field, rest) = cut(self.rest, b',');
        self.rest = rest;
        self.field += 1;
        field
    }

    // The next field as a value.
    pub(crate) fn value<T: FieldValue>(&mut self) -> Result<T, LineFault>
        requires { self.old.field < 7 }
        ensures value { result ≡ placed (self.old.field + 1) (T.answer (at_place (all_fields self.old) (self.old.field + 1))) }
        ensures after { Moved self.old self.new }
    {
        T::read(self.field()).map_err(|fault| fault.at(self.field))
    }
}
