// Which nodes have been given, and with which letters.
use lines::{Fault, LineFault};
use mixed::Letters;

// A node's own line gives it twice, or a step's node is not given.
pub(crate) const WRONG_NODE: LineFault = LineFault {
    fault: Fault::Node,
    field: 2,
};

// Which of the nodes 1 to 8 have been given.
#[derive(Clone, Copy)]
pub(crate) struct Given {
    pub(crate) by_node: [bool; 8],
}

// The nodes given, and the letters: E for a node that is not given. They are apart, since a plan is opened with the letters, and steps ask for the nodes alone.
#[derive(Clone, Copy)]
pub(crate) struct Nodes {
    pub(crate) letters: Letters,
    pub(crate) given: Given,
}
