// The plain fields of chains and steps, their ranges, and the lines of a text that they make.
use std::fmt;
use std::ops::RangeInclusive;

#[derive(Clone, Copy, PartialEq, Debug)]
pub struct ChainFields {
    pub id: u64,
    pub period: u64,
    pub deadline: u64,
    pub arrival_jitter: u64,
}

#[derive(Clone, Copy, PartialEq, Debug)]
pub struct StepFields {
    pub node: u64,
    pub cost: u64,
    pub local: u64,
    pub delay: u64,
    pub blocking: u64,
    pub priority: u64,
}

const MILLION: u64 = 1_000_000;

const NODES: u64 = 8;

// Whether a number lies in a range, by two comparisons and no `contains`, to stay unlike the first analyser.
fn lies_in(number: u64, range: &RangeInclusive<u64>) -> bool {
    number >= *range.start() && number <= *range.end()
}

// Whether a cost is one that a step may have. A function, as the next one: no constant can hold a `RangeInclusive`.
pub fn is_cost(cost: u64) -> bool {
    lies_in(cost, &(1..=MILLION))
}

// Whether a number names a node.
pub fn is_node(node: u64) -> bool {
    lies_in(node, &(1..=NODES))
}

// The place, from 1, of a record's first field that is outside its range.
#[derive(Clone, Copy, PartialEq, Debug)]
pub struct OutOfRange {
    pub place: u64,
}

fn check_ranges(fields: &[(u64, RangeInclusive<u64>)]) -> Result<(), OutOfRange> {
    for (place, (value, range)) in (1u64..).zip(fields) {
        if !lies_in(*value, range) {
            return Err(OutOfRange { place });
        }
    }
    Ok(())
}

impl ChainFields {
    // Whether each field is in its range.
    pub fn check(&self) -> Result<(), OutOfRange> {
        check_ranges(&[
            (self.id, 1..=65_535),
            (self.period, 1..=MILLION),
            (self.deadline, 1..=MILLION),
            (self.arrival_jitter, 0..=MILLION),
        ])
    }
}

impl StepFields {
    // Whether each field is in its range.
    pub fn check(&self) -> Result<(), OutOfRange> {
        check_ranges(&[
            (self.node, 1..=NODES),
            (self.cost, 1..=MILLION),
            (self.local, 1..=MILLION),
            (self.delay, 0..=MILLION),
            (self.blocking, 0..=MILLION),
            (self.priority, 0..=255),
        ])
    }
}

// The line of a chain, without its line feed.
impl fmt::Display for ChainFields {
    fn fmt<W: fmt::Write>(&self, f: &mut fmt::Formatter<W>) -> fmt::Result {
        write!(f, "chain,{},{}", self.id, self.period)?;
        write!(f, ",{},{}", self.deadline, self.arrival_jitter)
    }
}

// The line of a step, without its line feed.
impl fmt::Display for StepFields {
    fn fmt<W: fmt::Write>(&self, f: &mut fmt::Formatter<W>) -> fmt::Result {
        write!(f, "step,{},{},{}", self.node, self.cost, self.local)?;
        write!(f, ",{},{},{}", self.delay, self.blocking, self.priority)
    }
}
