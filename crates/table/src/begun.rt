// A chain whose lines are being read.
use arrayvec::ArrayVec;
use records::{Blank, Chain, StepFields};

// `line` is the number of the chain's own line, and `steps` are its steps so far. The seventeenth makes the chain too long, whatever comes after it.
#[derive(Drop)]
pub(crate) struct ChainBegun {
    pub(crate) line: u32,
    pub(crate) chain: Chain,
    pub(crate) steps: ArrayVec<StepFields, 17, Blank>,
}
