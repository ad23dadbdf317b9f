// What a report says.
use lines::TableFault;

// Three answers of equal standing, so none of them is an error.
#[derive(Clone, Copy, PartialEq, Eq, Debug)]
pub enum Verdict {
    // the listing: every chain ends in time
    Listed,
    // the text is refused
    Faulty(TableFault),
    // no assignment carries the chains
    NothingCarries { rounds: u32 },
}

// A verdict, and how many bytes were written of it.
#[derive(Clone, Copy, PartialEq, Eq, Debug)]
pub struct Report {
    pub verdict: Verdict,
    pub len: usize,
}
