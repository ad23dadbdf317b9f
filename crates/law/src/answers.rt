// What the calls of a plan answer.
use records::RecordFault;

// Why a call is refused.
#[derive(Clone, Copy, PartialEq, Eq, Debug)]
pub enum Refusal {
    // a field of a step is out of range
    Field(RecordFault),
    // the list of steps is empty or longer than 16
    StepCount,
    // 16 chains are held
    ChainsFull,
    // more than 64 steps would be held
    StepsFull,
    IdHeld,
    IdUnknown,
    // the step number is 0 or past the last
    NoSuchStep,
    // the new cost of a step is out of range
    CostOutOfRange,
    // changed or refused since the last accepted solve, or never solved
    NotSolved,
    // the buffer is shorter than what is to be written
    BufferShort,
    // no assignment carries the chains
    NothingCarries { rounds: u32 },
}

// A step's release jitter and worst-case response time.
#[derive(Clone, Copy, PartialEq, Eq, Debug)]
pub struct Timing {
    pub jitter: u32,
    pub response: u32,
}

// What an accepted call answers.
#[derive(Clone, Copy, PartialEq, Eq, Debug)]
pub enum Reply {
    Done,
    Solved { rounds: u32 },
    Told(Timing),
}

// An answer of any call: the reply, or why the call is refused.
pub type Answer = Result<Reply, Refusal>;
