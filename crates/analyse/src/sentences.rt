// Why a table is refused, in a sentence for whoever wrote it.
use crate::fields::{FieldName, field_name, line_at};
use law::Refusal;
use lines::{Fault, Kind, TableFault, field_count, kind_of};
use report::Verdict;
use std::fmt;

// Why a table is refused. It is displayed as a sentence.
#[derive(Clone, Copy)]
pub(crate) enum Sentence<'a> {
    Faulty(FaultInLine<'a>),
    // no assignment carries the chains
    NothingCarries { rounds: u32 },
}

// Why a table is refused, if it is.
pub(crate) fn sentence_on(text: &[u8], verdict: Verdict) -> Option<Sentence> {
    match verdict {
        Verdict::Listed => None,
        Verdict::Faulty(why) => Some(Sentence::Faulty(FaultInLine {
            why,
            line: line_at(text, why.line),
        })),
        Verdict::NothingCarries { rounds } => Some(Sentence::NothingCarries { rounds }),
    }
}

impl fmt::Display for Sentence<'_> {
    fn fmt<W: fmt::Write>(&self, f: &mut fmt::Formatter<W>) -> fmt::Result {
        match self {
            Sentence::Faulty(fault) => fault.fmt(f),
            Sentence::NothingCarries { rounds } => write!(
                f,
                "no response times carry the chains: in round {rounds} a step ends after its chain's end-to-end deadline, or a node has too much work"
            ),
        }
    }
}

// The fault of a text, and the line in which it is.
#[derive(Clone, Copy)]
pub(crate) struct FaultInLine<'a> {
    why: TableFault,
    line: &'a [u8],
}

// Why a text is refused, with the number of the line.
impl fmt::Display for FaultInLine<'_> {
    fn fmt<W: fmt::Write>(&self, f: &mut fmt::Formatter<W>) -> fmt::Result {
        if self.why.fault == Fault::TextTooLong {
            return f.write_str("the text is longer than 32,768 bytes");
        }
        let number = self.why.line;
        write!(f, "line {number}: ")?;
        self.write_line_fault(f)
    }
}

impl FaultInLine<'_> {
    // What is wrong with the line.
    fn write_line_fault<W: fmt::Write>(&self, f: &mut fmt::Formatter<W>) -> fmt::Result {
        let kind = kind_of(self.line);
        match self.why.fault {
            Fault::Plan(refusal) => f.write_str(chain_fault(refusal)),
            Fault::NoLineFeed => f.write_str(
                "the last line does not end in a line feed; the text may be cut off",
            ),
            Fault::UnknownKind if self.line.is_empty() => f.write_str("the line is empty"),
            Fault::UnknownKind => f.write_str("the first field is none of node, chain and step"),
            Fault::FieldCount => {
                let due = fields_due(kind);
                let count = field_count(self.line);
                write!(f, "{due}, and this one has {count}")
            }
            Fault::Misplaced => f.write_str(place_fault(kind)),
            Fault::Node => f.write_str(node_fault(kind)),
            _ => self.write_field_fault(f),
        }
    }

    // What is wrong with one field.
    fn write_field_fault<W: fmt::Write>(&self, f: &mut fmt::Formatter<W>) -> fmt::Result {
        let field = self.why.field;
        let FieldName { name, range } = field_name(kind_of(self.line), field);
        write!(f, "{name} (field {field}) ")?;
        match self.why.fault {
            Fault::EmptyField => f.write_str("is empty"),
            Fault::NotANumber | Fault::NotALetter if has_carriage_return(self.line, field) => {
                f.write_str("ends in a carriage return; a line ends in a line feed alone")
            }
            Fault::NotANumber => {
                f.write_str("is not a number of 1 to 7 digits, or has a leading zero")
            }
            Fault::NotALetter => f.write_str("is neither E nor P"),
            _ => write!(f, "is out of its range, {range}"),
        }
    }
}

// What is wrong with a chain as a whole.
fn chain_fault(why: Refusal) -> &'static str {
    match why {
        Refusal::StepCount => "the chain has no step, or more than 16",
        Refusal::ChainsFull => "this is the seventeenth chain, and a table has at most 16",
        Refusal::StepsFull => "with this chain there are more than 64 steps",
        Refusal::IdHeld => "the chain's id is that of an earlier chain",
        _ => "the chain is refused",
    }
}

// What is wrong with the place of a line.
fn place_fault(kind: Option<Kind>) -> &'static str {
    match kind {
        Some(Kind::Node) => "a node line may not stand behind a chain line",
        _ => "a step line may not stand before the first chain line",
    }
}

// What is wrong with the node in field 2. A text of its own, and so not one function with the one before.
fn node_fault(kind: Option<Kind>) -> &'static str {
    match kind {
        Some(Kind::Node) => "the node (field 2) has been given before",
        _ => "the node (field 2) is not given by a node line",
    }
}

// How many fields a line of a kind has.
fn fields_due(kind: Option<Kind>) -> &'static str {
    match kind {
        Some(Kind::Node) => "a node line has 3 fields",
        Some(Kind::Chain) => "a chain line has 5 fields",
        _ => "a step line has 7 fields",
    }
}

// The field is the last one, and the line ends in a carriage return, as some editors make it.
fn has_carriage_return(line: &[u8], field: u32) -> bool {
    line.ends_with(b"\r") && field_count(line) == field as usize
}
