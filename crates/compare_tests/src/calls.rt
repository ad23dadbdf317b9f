// Random calls of a plan.
use crate::answer::{Answer, Refused};
use crate::dice::Dice;
use crate::sheet::{Scale, Work, random_chain};
use oracle_tests::panel::Panel;
use std::alloc::{AllocError, Global};
use std::fmt;

#[derive(Drop)]
pub enum Call {
    Add(Work),
    DropChain { id: u64 },
    Recost { id: u64, step: u64, cost: u64 },
    Solve,
    Ask { id: u64, step: u64 },
}

// A call in words, for a difference.
impl fmt::Display for Call {
    fn fmt<W: fmt::Write>(&self, f: &mut fmt::Formatter<W>) -> fmt::Result {
        match self {
            Call::Add(work) => write!(f, "{work}"),
            Call::DropChain { id } => writeln!(f, "drop,{id}"),
            Call::Recost { id, step, cost } => writeln!(f, "recost,{id},{step},{cost}"),
            Call::Solve => writeln!(f, "solve"),
            Call::Ask { id, step } => writeln!(f, "ask,{id},{step}"),
        }
    }
}

// Mostly the id of a chain that was added, now and then any other.
fn some_id(dice: &mut Dice, held: &[u64]) -> u64 {
    let k = dice.place(held.len());
    match held.get(k) {
        Some(id) if dice.percent(92) => *id,
        _ => dice.below(90),
    }
}

// One field of the chain or of its last step goes out of its range.
fn spoil(dice: &mut Dice, work: &mut Work) {
    let above = 1_000_001;
    let field = dice.below(10);
    match field {
        0 => work.chain.id = dice.of(&[0, 65_536]),
        1 => work.chain.period = dice.of(&[0, above]),
        2 => work.chain.deadline = dice.of(&[0, above]),
        3 => work.chain.arrival_jitter = above,
        _ => {
            if let Some(step) = work.steps.last_mut() {
                match field {
                    4 => step.node = dice.of(&[0, 9]),
                    5 => step.cost = dice.of(&[0, above]),
                    6 => step.local = dice.of(&[0, above]),
                    7 => step.delay = above,
                    8 => step.blocking = above,
                    _ => step.priority = 256,
                }
            }
        }
    }
}

// No step, or more than 16 of them.
fn miscount(alloc: Global, dice: &mut Dice, work: &mut Work) -> Result<(), AllocError> {
    let first = work.steps.first().copied();
    work.steps = match first {
        Some(step) if dice.percent(50) => vec![in alloc; step; 17]?,
        _ => Vec::new(alloc),
    };
    Ok(())
}

fn add_call(alloc: Global, dice: &mut Dice, scale: &Scale) -> Result<Call, AllocError> {
    let id = dice.between(1, 90);
    let mut work = random_chain(alloc, dice, scale, id)?;
    let odd = dice.below(100);
    if odd < 6 {
        miscount(alloc, dice, &mut work)?;
    }
    if (3..12).contains(&odd) {
        spoil(dice, &mut work);
    }
    Ok(Call::Add(work))
}

// Mostly the number of a step that a chain may have.
fn some_step(dice: &mut Dice, scale: &Scale) -> u64 {
    if dice.percent(8) {
        dice.of(&[0, 17])
    } else {
        dice.between(1, scale.steps.min(2))
    }
}

fn recost_call(dice: &mut Dice, scale: &Scale, held: &[u64]) -> Call {
    let id = some_id(dice, held);
    let cost = if dice.percent(15) {
        dice.of(&[0, 1_000_001])
    } else {
        dice.between(1, (scale.period / 8).max(2))
    };
    Call::Recost {
        id,
        step: some_step(dice, scale),
        cost,
    }
}

// What became of the last solve.
#[derive(Clone, Copy, PartialEq)]
pub enum LastSolve {
    // none yet, or chains were changed since
    Gone,
    Stands,
    Refused,
}

// Where a run stands: how often an add comes, in a hundred; the ids of the chains held; and the last solve.
#[derive(Drop)]
pub struct Standing {
    pub adds: u64,
    pub held: Vec<u64>,
    pub solve: LastSolve,
}

// A call other than an add.
fn later_call(dice: &mut Dice, scale: &Scale, at: &Standing) -> Call {
    let held = at.held.as_slice();
    let kinds = if at.solve == LastSolve::Stands { 20 } else { 9 };
    match dice.below(kinds) {
        0 => Call::DropChain {
            id: some_id(dice, held),
        },
        1 | 2 => recost_call(dice, scale, held),
        3..=7 => Call::Solve,
        _ => Call::Ask {
            id: some_id(dice, held),
            step: some_step(dice, scale),
        },
    }
}

// Any call. After a refused solve chains are mostly dropped.
pub fn random_call(
    alloc: Global,
    dice: &mut Dice,
    scale: &Scale,
    at: &Standing,
) -> Result<Call, AllocError> {
    if at.solve == LastSolve::Refused && dice.percent(60) {
        return Ok(Call::DropChain {
            id: some_id(dice, at.held.as_slice()),
        });
    }
    let alone = at.held.is_empty() && dice.percent(80);
    if alone || dice.percent(at.adds) {
        return add_call(alloc, dice, scale);
    }
    Ok(later_call(dice, scale, at))
}

impl Standing {
    // Goes on from a call and its answer.
    pub fn follow(&mut self, call: &Call, answer: &Answer) -> Result<(), AllocError> {
        self.solve = match (call, answer) {
            (Call::Solve, Ok(_)) => LastSolve::Stands,
            (Call::Solve, Err(_)) => LastSolve::Refused,
            (Call::Ask { id: _, step: _ }, _) | (_, Err(_)) => self.solve,
            (_, Ok(_)) => LastSolve::Gone,
        };
        match (call, answer) {
            (Call::Add(work), Ok(_)) => self.held.push(work.chain.id)?,
            (Call::DropChain { id }, Ok(_)) => self.held.retain(|held| *held != *id),
            _ => {}
        }
        Ok(())
    }
}

// What the second analyser answers.
pub fn answer_of(panel: &mut Panel, call: &Call) -> Result<Answer, AllocError> {
    let answer = match call {
        Call::Add(work) => panel.add(work.chain, work.steps.as_slice())?,
        Call::DropChain { id } => panel.drop_chain(*id),
        Call::Recost { id, step, cost } => panel.recost(*id, *step, *cost),
        Call::Solve => panel.solve()?,
        Call::Ask { id, step } => panel.ask(*id, *step),
    };
    Ok(answer.map_err(Refused::from))
}
