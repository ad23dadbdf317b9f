// A table's text, and what is printed of it: the listing, or the line of its refusal.
use crate::fields::{ChainFields, OutOfRange, StepFields, is_node};
use crate::node::Letter;
use crate::panel::{Panel, Refusal};
use std::alloc::{AllocError, AllocFailed, Global};
use std::collections::BTreeMap;
use std::{fmt, mem};

const LONGEST_TEXT: usize = 32_768;

const MOST_DIGITS: usize = 7;

// What is wrong with a text.
#[derive(Clone, Copy, PartialEq, Debug)]
pub enum Cause {
    OutOfRange,
    // a chain that the panel refuses
    Chain(Refusal),
    TooLong,
    Unended,
    Kind,
    FieldCount,
    Empty,
    Number,
    Letter,
    Order,
    NodeLine,
}

impl Cause {
    pub fn number(&self) -> u64 {
        match self {
            Cause::OutOfRange => 1,
            Cause::Chain(why) => why.number(),
            Cause::TooLong => 11,
            Cause::Unended => 12,
            Cause::Kind => 13,
            Cause::FieldCount => 14,
            Cause::Empty => 15,
            Cause::Number => 16,
            Cause::Letter => 17,
            Cause::Order => 18,
            Cause::NodeLine => 19,
        }
    }
}

// Where a fault is, counted from 1.
#[derive(Clone, Copy, PartialEq, Debug)]
pub enum Spot {
    Text,
    Line { line: u64 },
    Field { line: u64, field: u64 },
}

impl fmt::Display for Spot {
    fn fmt<W: fmt::Write>(&self, f: &mut fmt::Formatter<W>) -> fmt::Result {
        match self {
            Spot::Text => write!(f, "0,0"),
            Spot::Line { line } => write!(f, "{line},0"),
            Spot::Field { line, field } => write!(f, "{line},{field}"),
        }
    }
}

#[derive(Clone, Copy, PartialEq, Debug)]
pub struct Fault {
    pub cause: Cause,
    pub spot: Spot,
}

// The line of a refused text, without its line feed.
impl fmt::Display for Fault {
    fn fmt<W: fmt::Write>(&self, f: &mut fmt::Formatter<W>) -> fmt::Result {
        write!(f, "refused,{},{}", self.cause.number(), self.spot)
    }
}

// Why reading stops.
#[derive(Drop)]
pub enum Halt {
    Memory,
    Fault(Fault),
}

impl From<AllocError> for Halt {
    fn from(_e: AllocError) -> Halt {
        Halt::Memory
    }
}

impl<T: Drop> From<AllocFailed<T>> for Halt {
    fn from(_e: AllocFailed<T>) -> Halt {
        Halt::Memory
    }
}

impl From<Fault> for Halt {
    fn from(fault: Fault) -> Halt {
        Halt::Fault(fault)
    }
}

#[derive(Clone, Copy)]
enum Kind {
    Node,
    Chain,
    Step,
}

impl Kind {
    // How many fields its lines have, the kind counted.
    fn field_count(self) -> usize {
        match self {
            Kind::Node => 3,
            Kind::Chain => 5,
            Kind::Step => 7,
        }
    }
}

impl TryFrom<&[u8]> for Kind {
    type Error = Cause;

    fn try_from(word: &[u8]) -> Result<Kind, Cause> {
        match word {
            b"node" => Ok(Kind::Node),
            b"chain" => Ok(Kind::Chain),
            b"step" => Ok(Kind::Step),
            _ => Err(Cause::Kind),
        }
    }
}

impl TryFrom<&[u8]> for Letter {
    type Error = Cause;

    fn try_from(word: &[u8]) -> Result<Letter, Cause> {
        match word {
            b"" => Err(Cause::Empty),
            b"E" => Ok(Letter::E),
            b"P" => Ok(Letter::P),
            _ => Err(Cause::Letter),
        }
    }
}

// A number of 1 to 7 digits, with no leading zero but for 0 itself.
fn number_of(word: &[u8]) -> Result<u64, Cause> {
    match word {
        [] => return Err(Cause::Empty),
        [b'0', _, ..] => return Err(Cause::Number),
        _ => {}
    }
    // a pattern and no `is_ascii_digit`, to stay unlike the first analyser
    if word.len() > MOST_DIGITS || !word.iter().all(|byte| matches!(*byte, b'0'..=b'9')) {
        return Err(Cause::Number);
    }
    let digits = str::from_utf8(word).map_err(|_| Cause::Number)?;
    digits.parse().map_err(|_| Cause::Number)
}

// The pieces of some bytes between the marks: one more than there are marks.
// Cut by hand, byte by byte and with no `split`, to stay unlike the first analyser.
fn cut(alloc: Global, bytes: &[u8], mark: u8) -> Result<Vec<Vec<u8>>, AllocError> {
    let mut pieces = Vec::new(alloc);
    let mut piece: Vec<u8> = Vec::new(alloc);
    for byte in bytes {
        if *byte == mark {
            pieces.push(mem::replace(&mut piece, Vec::new(alloc)))?;
        } else {
            piece.push(*byte)?;
        }
    }
    pieces.push(piece)?;
    Ok(pieces)
}

// One line, cut into its fields.
#[derive(Drop)]
struct FieldLine {
    number: u64,
    fields: Vec<Vec<u8>>,
}

impl FieldLine {
    fn new(alloc: Global, number: u64, bytes: &[u8]) -> Result<FieldLine, AllocError> {
        let fields = cut(alloc, bytes, b',')?;
        Ok(FieldLine { number, fields })
    }

    // A fault of the whole line.
    fn fault(&self, cause: Cause) -> Fault {
        let line = self.number;
        let spot = Spot::Line { line };
        Fault { cause, spot }
    }

    fn fault_at(&self, field: u64, cause: Cause) -> Fault {
        let line = self.number;
        let spot = Spot::Field { line, field };
        Fault { cause, spot }
    }

    // The field at this place counted from 0, empty where there is none.
    fn field(&self, k: usize) -> &[u8] {
        self.fields.get(k).map_or(b"", |field| field.as_slice())
    }

    // Faults 13 and 14: the kind that the first field names, with as many fields as it has.
    fn kind(&self) -> Result<Kind, Fault> {
        let kind = Kind::try_from(self.field(0)).map_err(|cause| self.fault_at(1, cause))?;
        if self.fields.len() != kind.field_count() {
            return Err(self.fault(Cause::FieldCount));
        }
        Ok(kind)
    }

    // Faults 15 and 16 of so many fields behind the first, from left to right: their numbers.
    fn numbers<const N: usize>(&self) -> Result<[u64; N], Fault> {
        let mut numbers = [0; N];
        let fields = self.fields.iter().skip(1);
        for ((place, number), field) in (2u64..).zip(numbers.iter_mut()).zip(fields) {
            *number = number_of(field.as_slice()).map_err(|cause| self.fault_at(place, cause))?;
        }
        Ok(numbers)
    }

    // Faults 15 and 17: the letter in the third field.
    fn letter(&self) -> Result<Letter, Fault> {
        Letter::try_from(self.field(2)).map_err(|cause| self.fault_at(3, cause))
    }

    // Fault 1, of a record that is out of range at this place: the record's first field is the line's second.
    fn out_of_range(&self, out: OutOfRange) -> Fault {
        self.fault_at(out.place.saturating_add(1), Cause::OutOfRange)
    }
}

// A chain whose steps are still being read.
#[derive(Drop)]
struct OpenChain {
    line: u64,
    fields: ChainFields,
    steps: Vec<StepFields>,
}

#[derive(Drop)]
struct Reader {
    alloc: Global,
    panel: Panel,
    open: Option<OpenChain>,
}

impl Reader {
    fn node_line(&mut self, line: &FieldLine) -> Result<(), Halt> {
        let [node] = line.numbers::<1>()?;
        let letter = line.letter()?;
        if self.open.is_some() {
            return Err(line.fault(Cause::Order).into());
        }
        if !is_node(node) {
            return Err(line.fault_at(2, Cause::OutOfRange).into());
        }
        if self.panel.has_letter(node) {
            return Err(line.fault_at(2, Cause::NodeLine).into());
        }
        self.panel.give(node, letter)?;
        Ok(())
    }

    fn chain_line(&mut self, line: &FieldLine) -> Result<(), Halt> {
        let [id, period, deadline, arrival_jitter] = line.numbers::<4>()?;
        let fields = ChainFields {
            id,
            period,
            deadline,
            arrival_jitter,
        };
        fields.check().map_err(|out| line.out_of_range(out))?;
        self.complete()?;
        self.open = Some(OpenChain {
            line: line.number,
            fields,
            steps: Vec::new(self.alloc),
        });
        Ok(())
    }

    fn step_line(&mut self, line: &FieldLine) -> Result<(), Halt> {
        let [node, cost, local, delay, blocking, priority] = line.numbers::<6>()?;
        let fields = StepFields {
            node,
            cost,
            local,
            delay,
            blocking,
            priority,
        };
        let Some(open) = &mut self.open else {
            return Err(line.fault(Cause::Order).into());
        };
        fields.check().map_err(|out| line.out_of_range(out))?;
        if !self.panel.has_letter(node) {
            return Err(line.fault_at(2, Cause::NodeLine).into());
        }
        open.steps.push(fields)?;
        Ok(())
    }

    // The chain that was being read goes into the panel, or has fault 2, 3, 4 or 5.
    fn complete(&mut self) -> Result<(), Halt> {
        let Some(open) = self.open.take() else {
            return Ok(());
        };
        if let Err(why) = self.panel.add(open.fields, open.steps.as_slice())? {
            let cause = Cause::Chain(why);
            let spot = Spot::Line { line: open.line };
            return Err(Halt::Fault(Fault { cause, spot }));
        }
        Ok(())
    }

    fn line(&mut self, number: u64, bytes: &[u8]) -> Result<(), Halt> {
        let line = FieldLine::new(self.alloc, number, bytes)?;
        match line.kind()? {
            Kind::Node => self.node_line(&line),
            Kind::Chain => self.chain_line(&line),
            Kind::Step => self.step_line(&line),
        }
    }
}

// Faults 11 and 12, and else the lines of a text.
fn lines_of(alloc: Global, text: &[u8]) -> Result<Vec<Vec<u8>>, Halt> {
    if text.len() > LONGEST_TEXT {
        let spot = Spot::Text;
        let cause = Cause::TooLong;
        return Err(Halt::Fault(Fault { cause, spot }));
    }
    let mut lines = cut(alloc, text, b'\n')?;
    let line = lines.len() as u64;
    // what stands behind the last line feed
    let rest = lines.pop();
    if rest.is_some_and(|rest| !rest.is_empty()) {
        let spot = Spot::Line { line };
        let cause = Cause::Unended;
        return Err(Halt::Fault(Fault { cause, spot }));
    }
    Ok(lines)
}

// The panel that a text gives, not yet solved.
pub fn read(alloc: Global, text: &[u8]) -> Result<Panel, Halt> {
    let lines = lines_of(alloc, text)?;
    let mut reader = Reader {
        alloc,
        panel: Panel::new(alloc, BTreeMap::new(alloc)),
        open: None,
    };
    for (number, line) in (1u64..).zip(lines.iter()) {
        reader.line(number, line.as_slice())?;
    }
    reader.complete()?;
    Ok(reader.panel)
}

// What is printed of a panel that was read.
fn solved_text(alloc: Global, panel: &mut Panel) -> Result<String, AllocError> {
    let solved = panel.solve()?;
    let listing = solved.and(panel.listing()?);
    listing.or_else(|why| {
        let number = why.number();
        let beside = why.beside().unwrap_or(0);
        format!(in alloc; "refused,{number},{beside}\n")
    })
}

// What is printed of a text.
pub fn printed(alloc: Global, text: &[u8]) -> Result<String, AllocError> {
    match read(alloc, text) {
        Ok(mut panel) => solved_text(alloc, &mut panel),
        Err(Halt::Fault(fault)) => format!(in alloc; "{fault}\n"),
        Err(Halt::Memory) => Err(AllocError),
    }
}
