// The analyser itself, called through its public calls.
use crate::answer::{Answer, Refused};
use crate::calls::Call;
use crate::sheet::Work;
use edf::EarliestDeadline;
use fixed::FixedPriority;
use law::Refusal;
use mixed::{Letters, Mixed};
use oracle_tests::node::Letter;
use oracle_tests::panel::Reply;
use plan::Plan;
use records::{Chain, EndToEndDeadline, LocalDeadline, RecordFault};
use report::Verdict;
use std::alloc::{AllocError, Global};
use std::collections::BTreeMap;

pub type ProductPlan = Plan<Mixed<EarliestDeadline, FixedPriority>>;

// Room for the longest listing: 64 lines of at most 31 bytes and the line of the rounds.
pub const ROOM: usize = 4096;

fn small(number: u64) -> u32 {
    u32::try_from(number).unwrap_or(u32::MAX)
}

// A function and no `From`: both types are of other crates.
fn letter_of(letter: Letter) -> mixed::Letter {
    match letter {
        Letter::E => mixed::Letter::E,
        Letter::P => mixed::Letter::P,
    }
}

// A plan with these letters.
pub fn open(letters: &BTreeMap<u64, Letter>) -> Result<ProductPlan, RecordFault> {
    let mut all = Letters::new();
    for (node, letter) in letters {
        all = all.with(small(*node), letter_of(*letter))?;
    }
    Ok(Plan::open(Mixed::new(EarliestDeadline, FixedPriority, all)))
}

fn chain_of(work: &Work) -> Result<Chain, RecordFault> {
    Chain::try_from(records::ChainFields {
        id: small(work.chain.id),
        period: small(work.chain.period),
        deadline: EndToEndDeadline {
            ticks: small(work.chain.deadline),
        },
        arrival_jitter: small(work.chain.arrival_jitter),
    })
}

fn steps_of(alloc: Global, work: &Work) -> Result<Vec<records::StepFields>, AllocError> {
    let steps = work.steps.iter().map(|step| records::StepFields {
        node: small(step.node),
        cost: small(step.cost),
        local: LocalDeadline {
            ticks: small(step.local),
        },
        delay: small(step.delay),
        blocking: small(step.blocking),
        priority: small(step.priority),
    });
    steps.collect(alloc)
}

fn add(
    alloc: Global,
    plan: &mut ProductPlan,
    work: &Work,
) -> Result<Result<(), Refusal>, AllocError> {
    let steps = steps_of(alloc, work)?;
    let chain = chain_of(work).map_err(Refusal::Field);
    Ok(chain.and_then(|chain| plan.add(chain, steps.as_slice())))
}

// Makes a call.
pub fn perform(alloc: Global, plan: &mut ProductPlan, call: &Call) -> Result<Answer, AllocError> {
    let answer = match call {
        Call::Add(work) => add(alloc, plan, work)?.map(|()| Reply::Done),
        Call::DropChain { id } => plan.drop_chain(small(*id)).map(|()| Reply::Done),
        Call::Recost { id, step, cost } => plan
            .recost(small(*id), small(*step), small(*cost))
            .map(|()| Reply::Done),
        Call::Solve => plan.solve().map(|rounds| Reply::Solved {
            rounds: u64::from(rounds),
        }),
        Call::Ask { id, step } => {
            plan.ask(small(*id), small(*step))
                .map(|timing| Reply::Told {
                    jitter: u64::from(timing.jitter),
                    response: u64::from(timing.response),
                })
        }
    };
    Ok(answer.map_err(Refused::from))
}

// The bytes of the listing, or its refusal.
pub fn listing(alloc: Global, plan: &ProductPlan) -> Result<Vec<u8>, AllocError> {
    let mut bytes = vec![in alloc; 7u8; ROOM]?;
    match plan.listing(bytes.as_mut_slice()) {
        Ok(len) => {
            bytes.truncate(len);
            Ok(bytes)
        }
        Err(why) => Ok(format!(in alloc; "refused,{}\n", why.number())?.into_bytes()),
    }
}

// Whether a verdict is that of the bytes.
fn verdict_fits(verdict: &Verdict, bytes: &[u8]) -> bool {
    let nothing_carries = bytes.starts_with(b"refused,10,");
    match verdict {
        Verdict::Listed => bytes.starts_with(b"rounds,"),
        Verdict::NothingCarries { rounds: _ } => nothing_carries,
        Verdict::Faulty(_) => bytes.starts_with(b"refused,") && !nothing_carries,
    }
}

// What is printed of a text, into a buffer of this room. If it is refused, or its verdict is another, then this is
// said, in words that no analyser prints.
pub fn printed(alloc: Global, text: &[u8], room: usize) -> Result<Vec<u8>, AllocError> {
    let mut bytes = vec![in alloc; 7u8; room]?;
    match report::report(text, bytes.as_mut_slice()) {
        Ok(report) => {
            bytes.truncate(report.len);
            if verdict_fits(&report.verdict, bytes.as_slice()) {
                Ok(bytes)
            } else {
                b"another verdict\n".to_vec(alloc)
            }
        }
        Err(_) => b"a buffer too short\n".to_vec(alloc),
    }
}

// Whether a buffer one byte too short is refused as such, with 20, and left as it was.
pub fn refuses_short(alloc: Global, text: &[u8], len: usize) -> Result<bool, AllocError> {
    let mut short = vec![in alloc; 7u8; len.saturating_sub(1)]?;
    let res = report::report(text, short.as_mut_slice());
    let refused = res.is_err_and(|why| why == Refusal::BufferShort && why.number() == 20);
    Ok(refused && short.iter().all(|byte| *byte == 7))
}
