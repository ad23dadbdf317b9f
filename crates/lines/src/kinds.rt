// The kinds of lines, and how a line of any kind is read.
ghost use Rattle.std.specs.Prelude.{◌≡◌, ℕ, List, Result};
ghost use Rattle.lines.specs.declared.faults.LineFault.{LineFault as Refused};
ghost use Rattle.lines.specs.Lines.{node_of, chain_of, step_of, counted};
ghost use Rattle.lines.specs.Places.{all_fields};

use crate::cursor::Cursor;
use crate::faults::{Fault, LineFault};
use crate::line::NodeLine;
use crate::reading::field_count;
use records::{ChainFields, EndToEndDeadline, LocalDeadline, StepFields};

// A kind of line: how many fields it has, the kind word counted, and the record that the others make.
pub(crate) trait LineKind {
    type Record;

    const FIELDS: usize;

    ghost FIELDS: { ℕ };

    ghost reads: { List (List ℕ) → Result Self.Record Refused };

    // Reads the fields after the kind word.
    fn read(cursor: &mut Cursor) -> Result<Self::Record, LineFault>
        requires { cursor.old.field ≡ 1 }
        ensures { result ≡ reads (all_fields cursor.old) };
}

pub(crate) struct NodeKind;

pub(crate) struct ChainKind;

pub(crate) struct StepKind;

impl LineKind for NodeKind {
    type Record = NodeLine;

    const FIELDS: usize = 3;

    ghost FIELDS = { 3 };

    ghost reads = { node_of };

    fn read(cursor: &mut Cursor) -> Result<NodeLine, LineFault> {
        Ok(NodeLine {
            node: cursor.value()?,
            letter: cursor.value()?,
        })
    }
}

impl LineKind for ChainKind {
    type Record = ChainFields;

    const FIELDS: usize = 5;

    ghost FIELDS = { 5 };

    ghost reads = { chain_of };

    fn read(cursor: &mut Cursor) -> Result<ChainFields, LineFault> {
        Ok(ChainFields {
            id: cursor.value()?,
            period: cursor.value()?,
            deadline: EndToEndDeadline {
                ticks: cursor.value()?,
            },
            arrival_jitter: cursor.value()?,
        })
    }
}

impl LineKind for StepKind {
    type Record = StepFields;

    const FIELDS: usize = 7;

    ghost FIELDS = { 7 };

    ghost reads = { step_of };

    fn read(cursor: &mut Cursor) -> Result<StepFields, LineFault> {
        Ok(StepFields {
            node: cursor.value()?,
            cost: cursor.value()?,
            local: LocalDeadline {
                ticks: cursor.value()?,
            },
            delay: cursor.value()?,
            blocking: cursor.value()?,
            priority: cursor.value()?,
        })
    }
}

impl Cursor<'_> {
    // The record of a line of kind K, after its kind word.
    pub(crate) fn record<K: LineKind>(&mut self) -> Result<K::Record, LineFault>
        requires { self.old.field ≡ 1 }
        ensures { result ≡ counted K.FIELDS (all_fields self.old) (K.reads (all_fields self.old)) }
    {
        if field_count(self.line) != K::FIELDS {
            return Err(Fault::FieldCount.at(0));
        }
        K::read(self)
    }
}
