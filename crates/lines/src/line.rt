// What a line can be.
use mixed::Letter;
use records::{ChainFields, StepFields};

// The kinds of lines, named by the first field.
#[derive(Clone, Copy, PartialEq, Eq, Debug)]
pub enum Kind {
    Node,
    Chain,
    Step,
}

// A node's letter; the node is a plain number, in range or not.
#[derive(Clone, Copy, PartialEq, Eq, Debug)]
pub struct NodeLine {
    pub node: u32,
    pub letter: Letter,
}

#[derive(Clone, Copy, PartialEq, Eq, Debug)]
pub enum Line {
    Node(NodeLine),
    Chain(ChainFields),
    Step(StepFields),
}
