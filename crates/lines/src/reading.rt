// How a line is read.
ghost use Rattle.std.specs.Prelude.{◌≡◌, length};
ghost use Rattle.lines.specs.Fields.{fields_of};
ghost use Rattle.lines.specs.Lines.{kind_named, line_kind, line_of};
ghost use Rattle.lines.specs.Writing.{InverseOfWriting};

use crate::cursor::Cursor;
use crate::faults::{Fault, LineFault};
use crate::kinds::{ChainKind, NodeKind, StepKind};
use crate::line::{Kind, Line};
use crate::parts::cut;

// How many fields a line has.
pub fn field_count(line: &[u8]) -> usize
    ensures { result ≡ length (fields_of line.now) }
{
    line.split(|byte| *byte == b',').count()
}

// The kind that a word names.
fn kind_in(word: &[u8]) -> Option<Kind>
    ensures { result ≡ kind_named word.now }
{
    match word {
        b"node" => Some(Kind::Node),
        b"chain" => Some(Kind::Chain),
        b"step" => Some(Kind::Step),
        _ => None,
    }
}

// The kind that a line's first field names.
pub fn kind_of(line: &[u8]) -> Option<Kind>
    ensures { result ≡ line_kind line.now }
{
    kind_in(cut(line, b',').0)
}

// What a line, without its line feed, is: a record of its kind, or the first fault.
pub fn read_line(line: &[u8]) -> Result<Line, LineFault>
    ensures value { result ≡ line_of line.now }
    ensures inverse { InverseOfWriting result line.now }
{
    let mut cursor = Cursor::new(line);
    let kind = kind_in(cursor.field()).ok_or(Fault::UnknownKind.at(1))?;
    match kind {
        Kind::Node => Ok(Line::Node(cursor.record::<NodeKind>()?)),
        Kind::Chain => Ok(Line::Chain(cursor.record::<ChainKind>()?)),
        Kind::Step => Ok(Line::Step(cursor.record::<StepKind>()?)),
    }
}
