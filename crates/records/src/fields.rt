// Plain numbers, in range or not. Times are whole ticks.
// None has a `Default`: a missing field is never read as zero.
// The two deadlines are two types, so that neither can stand where the other is due.

// A deadline counted from a step's release.
#[derive(Clone, Copy, PartialEq, Eq, Debug)]
pub struct LocalDeadline {
    pub ticks: u32,
}

// A deadline counted from the start of the chain's period.
#[derive(Clone, Copy, PartialEq, Eq, Debug)]
pub struct EndToEndDeadline {
    pub ticks: u32,
}

#[derive(Clone, Copy, PartialEq, Eq, Debug)]
pub struct ChainFields {
    pub id: u32,
    pub period: u32,
    pub deadline: EndToEndDeadline,
    pub arrival_jitter: u32,
}

#[derive(Clone, Copy, PartialEq, Eq, Debug)]
pub struct StepFields {
    pub node: u32,
    pub cost: u32,
    pub local: LocalDeadline,
    pub delay: u32,
    pub blocking: u32,
    pub priority: u32,
}

// A step with the period of its chain.
#[derive(Clone, Copy, PartialEq, Eq, Debug)]
pub struct Row {
    pub period: u32,
    pub step: StepFields,
}

// A field of a record is out of range; `place` counts the record's fields from 1, as the fault of a line counts the line's.
#[derive(Clone, Copy, PartialEq, Eq, Debug)]
pub struct RecordFault {
    pub place: u32,
}
