// How refusals arise from record faults, and their numbers.
ghost use Rattle.std.specs.Prelude.{◌≡◌};
ghost use Rattle.law.specs.declared.answers.Refusal.TheVariants.{Field};
ghost use Rattle.law.specs.Refusals.{number_of};

use crate::answers::Refusal;
use records::RecordFault;

// A record's fault is a case of refusal, kept whole.
impl From<RecordFault> for Refusal {
    ghost from_gives = { λ fault r. r ≡ Field fault };

    fn from(fault: RecordFault) -> Refusal {
        Refusal::Field(fault)
    }
}

impl Refusal {
    // The number under which the manuals list the refusal.
    pub fn number(&self) -> u32
        ensures { result ≡ number_of self.now }
    {
        // by a match, since the numbers are those of the manuals' table
        match self {
            Refusal::Field(_) => 1,
            Refusal::StepCount => 2,
            Refusal::ChainsFull => 3,
            Refusal::StepsFull => 4,
            Refusal::IdHeld => 5,
            Refusal::IdUnknown => 6,
            Refusal::NoSuchStep => 7,
            Refusal::CostOutOfRange => 8,
            Refusal::NotSolved => 9,
            Refusal::NothingCarries { .. } => 10,
            Refusal::BufferShort => 20,
        }
    }
}
