// Why a table's text is not taken, and where.
ghost use Rattle.std.specs.Prelude.{◌≡◌};
ghost use Rattle.lines.specs.Faults.{number_of, fault_at, in_record, of_plan, on_line};

use law::Refusal;
use records::RecordFault;

#[derive(Clone, Copy, PartialEq, Eq, Debug)]
pub enum Fault {
    // a field of a record is out of range
    Record(RecordFault),
    // the plan refuses a chain
    Plan(Refusal),
    // more than 32,768 bytes
    TextTooLong,
    // the last line is not ended by a line feed
    NoLineFeed,
    // the first field is none of `node`, `chain` and `step`
    UnknownKind,
    FieldCount,
    EmptyField,
    // not 1 to 7 digits, or a leading zero on more than one digit
    NotANumber,
    // neither E nor P
    NotALetter,
    // a line of this kind may not stand here
    Misplaced,
    // a node given twice, or a step's node never given
    Node,
}

// A fault in one line. Its fields are counted from 1, the kind word first; 0 stands for the whole line, as a refusal prints it.
#[derive(Clone, Copy, PartialEq, Eq, Debug)]
pub struct LineFault {
    pub fault: Fault,
    pub field: u32,
}

// A fault in a text. Its lines are counted from 1; 0 stands for the whole text, as a refusal prints it.
#[derive(Clone, Copy, PartialEq, Eq, Debug)]
pub struct TableFault {
    pub fault: Fault,
    pub line: u32,
    pub field: u32,
}

// A record's fault is a case of a line's, kept whole: the kind word stands before the record's fields.
impl From<RecordFault> for LineFault {
    ghost from_gives = { λ fault r. r ≡ in_record fault };

    fn from(fault: RecordFault) -> LineFault {
        Fault::Record(fault).at(fault.place.saturating_add(1))
    }
}

// A plan's refusal is a case of a line's fault, kept whole: it is about the whole line.
impl From<Refusal> for LineFault {
    ghost from_gives = { λ why r. r ≡ of_plan why };

    fn from(why: Refusal) -> LineFault {
        Fault::Plan(why).at(0)
    }
}

impl LineFault {
    // The fault with the number of its line.
    pub fn on(self, line: u32) -> TableFault
        ensures { result ≡ on_line line self }
    {
        TableFault {
            fault: self.fault,
            line,
            field: self.field,
        }
    }
}

impl Fault {
    // The fault with the place of its field.
    pub(crate) fn at(self, field: u32) -> LineFault
        ensures { result ≡ fault_at field self }
    {
        LineFault { fault: self, field }
    }

    // The number under which the manuals list the fault: their table fixes it, and a refusal prints it.
    pub fn number(&self) -> u32
        ensures { result ≡ number_of self.now }
    {
        match self {
            Fault::Record(_) => 1,
            Fault::Plan(refusal) => refusal.number(),
            Fault::TextTooLong => 11,
            Fault::NoLineFeed => 12,
            Fault::UnknownKind => 13,
            Fault::FieldCount => 14,
            Fault::EmptyField => 15,
            Fault::NotANumber => 16,
            Fault::NotALetter => 17,
            Fault::Misplaced => 18,
            Fault::Node => 19,
        }
    }
}
