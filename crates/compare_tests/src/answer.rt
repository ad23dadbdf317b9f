// What a call answers, with a refusal as the documents number it: so are the answers of both analysers compared.
use oracle_tests::panel;
use oracle_tests::panel::Reply;

// A refusal's number, and the place or the rounds beside it.
#[derive(Clone, Copy, PartialEq, Debug)]
pub struct Refused {
    pub number: u64,
    pub beside: Option<u64>,
}

pub type Answer = Result<Reply, Refused>;

impl From<panel::Refusal> for Refused {
    fn from(why: panel::Refusal) -> Refused {
        Refused {
            number: why.number(),
            beside: why.beside(),
        }
    }
}

impl From<law::Refusal> for Refused {
    fn from(why: law::Refusal) -> Refused {
        let beside = match why {
            law::Refusal::Field(fault) => Some(fault.place),
            law::Refusal::NothingCarries { rounds } => Some(rounds),
            _ => None,
        };
        Refused {
            number: u64::from(why.number()),
            beside: beside.map(u64::from),
        }
    }
}
