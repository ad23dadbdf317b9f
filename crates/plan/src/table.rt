// The memory of a plan: up to 16 chains and 64 steps, as plain numbers.
use arrayvec::ArrayVec;
use records::{Blank, ChainFields, EndToEndDeadline, Row};

// A chain that is held, with the number of its steps.
#[derive(Clone, Copy)]
pub(crate) struct Entry {
    pub(crate) fields: ChainFields,
    pub(crate) steps: usize,
}

// What the unused places of a list of entries hold.
impl Default for Entry {
    fn default() -> Entry {
        Entry {
            fields: ChainFields {
                id: 0,
                period: 0,
                deadline: EndToEndDeadline { ticks: 0 },
                arrival_jitter: 0,
            },
            steps: 0,
        }
    }
}

// Rows stand in the order of the chains, a chain's steps in their own order.
#[derive(Drop)]
pub(crate) struct Table {
    pub(crate) entries: ArrayVec<Entry, 16>,
    pub(crate) rows: ArrayVec<Row, 64, Blank>,
    // where the next solve starts, for each row: the kept response, or 0
    pub(crate) responses: ArrayVec<u32, 64>,
    // the rounds of the accepted solve that stands, if one does
    pub(crate) standing: Option<u32>,
}

// Where one chain stands: its place among the chains, and its rows.
#[derive(Clone, Copy)]
pub(crate) struct Span {
    pub(crate) entry: usize,
    pub(crate) first: usize,
    pub(crate) steps: usize,
}

// Where a row stands: its chain, and its place among the chain's steps, from 0.
#[derive(Clone, Copy)]
pub(crate) struct Place {
    pub(crate) chain: ChainFields,
    pub(crate) step: usize,
}

// What a solve comes to: the rounds made, and the responses that they settled in, if they did.
#[derive(Drop)]
pub(crate) struct Settled {
    pub(crate) rounds: u32,
    pub(crate) responses: Option<ArrayVec<u32, 64>>,
}
