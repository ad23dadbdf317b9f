// Random tables: letters, chains and steps, and their text.
use crate::dice::Dice;
use oracle_tests::fields::{ChainFields, StepFields};
use oracle_tests::node::Letter;
use std::alloc::{AllocError, Global};
use std::collections::BTreeMap;
use std::fmt;

// A chain with its steps.
#[derive(Drop)]
pub struct Work {
    pub chain: ChainFields,
    pub steps: Vec<StepFields>,
}

// The letters of nodes 1, 2, … and the chains on them.
#[derive(Drop)]
pub struct Sheet {
    pub letters: BTreeMap<u64, Letter>,
    pub works: Vec<Work>,
}

// How large the numbers of a table are.
#[derive(Clone, Copy)]
pub struct Scale {
    pub nodes: u64,
    pub chains: u64,
    pub steps: u64,
    // the longest period
    pub period: u64,
    // the work of a node, in hundredths of its time, as it is aimed at
    pub load: u64,
    // how often a row has a delay, a blocking or its chain an arrival jitter, in a hundred
    pub extras: u64,
    // the end-to-end deadline is at most so many periods for each step, and at most so many ticks
    pub slack: u64,
    pub reach: u64,
}

// A usual table: small numbers, and now and then many chains or many steps.
pub fn usual_scale(dice: &mut Dice) -> Scale {
    let nodes = if dice.percent(8) {
        8
    } else {
        dice.between(1, 4)
    };
    let chains = if dice.percent(4) {
        dice.between(7, 17)
    } else {
        dice.between(1, 6)
    };
    let steps = if dice.percent(4) {
        dice.between(5, 17)
    } else {
        dice.between(1, 4)
    };
    Scale {
        nodes,
        chains,
        steps,
        period: dice.of(&[4, 8, 12, 20, 30, 40]),
        load: dice.between(10, 75),
        extras: dice.of(&[0, 10, 20, 50]),
        slack: dice.of(&[1, 2, 4, 8]),
        reach: dice.of(&[40, 80, 120, 240]),
    }
}

// How often a node goes by earliest deadline, in a hundred.
pub fn mixture(dice: &mut Dice) -> u64 {
    dice.of(&[0, 50, 50, 50, 100])
}

fn random_letter(dice: &mut Dice, earliest: u64) -> Letter {
    if dice.percent(earliest) {
        Letter::E
    } else {
        Letter::P
    }
}

// The letters of so many nodes, as often E as `earliest` says.
pub fn random_letters(
    alloc: Global,
    dice: &mut Dice,
    nodes: u64,
    earliest: u64,
) -> Result<BTreeMap<u64, Letter>, AllocError> {
    (1..=nodes)
        .map(|node| (node, random_letter(dice, earliest)))
        .collect(alloc)
}

// A number up to `most`, as often as extras come, else 0.
// Dice and scale stay two parameters: the dice go on from table to table, and each scale is itself rolled from them.
fn extra(dice: &mut Dice, scale: &Scale, most: u64) -> u64 {
    if dice.percent(scale.extras) {
        dice.between(1, most.max(1))
    } else {
        0
    }
}

// One step of a chain of this period. `share` is the part of a node's work that is aimed at, in thousandths.
fn random_step(dice: &mut Dice, scale: &Scale, period: u64, share: u64) -> StepFields {
    let aimed = period.saturating_mul(share) / 1000;
    let priorities: u64 = dice.of(&[1, 3, 3, 7, 255]);
    StepFields {
        node: dice.between(1, scale.nodes),
        cost: dice.between(1, aimed.saturating_mul(2).max(1)),
        local: dice.between(1, period.saturating_mul(2).min(1_000_000)),
        delay: extra(dice, scale, period),
        blocking: extra(dice, scale, period / 2),
        priority: dice.below(priorities.saturating_add(1)),
    }
}

// A chain of 1 to so many steps.
pub fn random_chain(
    alloc: Global,
    dice: &mut Dice,
    scale: &Scale,
    id: u64,
) -> Result<Work, AllocError> {
    let period = dice.between((scale.period / 3).max(2), scale.period.max(2));
    let count = dice.between(1, scale.steps);
    let rows = scale.chains.saturating_mul(scale.steps).saturating_add(1) / 2;
    let share = scale.load.saturating_mul(10).saturating_mul(scale.nodes) / rows.max(1);
    let reach = dice.between(1, scale.slack.max(1));
    let late = dice.of(&[1, 1, 1, 3]);
    let steps = (0..count)
        .map(|_| random_step(dice, scale, period, share.min(1000)))
        .collect(alloc)?;
    let chain = ChainFields {
        id,
        period,
        deadline: period
            .saturating_mul(reach)
            .saturating_mul(count)
            .min(scale.reach),
        arrival_jitter: extra(dice, scale, period.saturating_mul(late)).min(1_000_000),
    };
    Ok(Work { chain, steps })
}

// A table of this scale; the ids are different.
pub fn random_sheet(
    alloc: Global,
    dice: &mut Dice,
    scale: &Scale,
    earliest: u64,
) -> Result<Sheet, AllocError> {
    let mut works = Vec::new(alloc);
    let mut id: u64 = dice.of(&[0, 6, 65_000]);
    for _ in 0..scale.chains {
        id = id.saturating_add(dice.between(1, 9));
        works.push(random_chain(alloc, dice, scale, id)?)?;
    }
    Ok(Sheet {
        letters: random_letters(alloc, dice, scale.nodes, earliest)?,
        works,
    })
}

impl Work {
    // The work of this chain on a node, in millionths of its time.
    fn load_on(&self, node: u64) -> u64 {
        let period = self.chain.period.max(1);
        let there = self.steps.iter().filter(|step| step.node == node);
        there
            .map(|step| step.cost.saturating_mul(1_000_000) / period)
            .fold(0, |load: u64, part| load.saturating_add(part))
    }

    fn stretch(&mut self, times: u64) {
        self.chain.period = self.chain.period.saturating_mul(times);
        self.chain.deadline = self.chain.deadline.saturating_mul(times);
    }
}

impl Sheet {
    // The work on a node, in millionths of its time.
    fn load_on(&self, node: u64) -> u64 {
        let loads = self.works.iter().map(|work| work.load_on(node));
        loads.fold(0, |load: u64, part| load.saturating_add(part))
    }

    // The work on the node that has the most, in millionths of its time.
    pub fn heaviest(&self) -> u64 {
        let loads = (1..9u64).map(|node| self.load_on(node));
        loads.max().unwrap_or(0)
    }

    // Makes every period and end-to-end deadline so many times as long.
    pub fn stretch(&mut self, times: u64) {
        for work in self.works.iter_mut() {
            work.stretch(times);
        }
    }

    // The last chain gets the id of the first.
    pub fn repeat_id(&mut self) {
        let first = self.works.first().map_or(1, |work| work.chain.id);
        if let Some(work) = self.works.last_mut() {
            work.chain.id = first;
        }
    }
}

// The line of a node, without its line feed.
#[derive(Clone, Copy)]
pub struct NodeLine {
    pub node: u64,
    pub letter: Letter,
}

impl fmt::Display for NodeLine {
    fn fmt<W: fmt::Write>(&self, f: &mut fmt::Formatter<W>) -> fmt::Result {
        write!(f, "node,{},{}", self.node, self.letter)
    }
}

// A chain's text.
impl fmt::Display for Work {
    fn fmt<W: fmt::Write>(&self, f: &mut fmt::Formatter<W>) -> fmt::Result {
        writeln!(f, "{}", self.chain)?;
        for step in self.steps.iter() {
            writeln!(f, "{step}")?;
        }
        Ok(())
    }
}

// The text of a table's letters.
#[derive(Clone, Copy)]
struct NodeLines<'a>(&'a BTreeMap<u64, Letter>);

impl fmt::Display for NodeLines<'_> {
    fn fmt<W: fmt::Write>(&self, f: &mut fmt::Formatter<W>) -> fmt::Result {
        for (node, letter) in self.0 {
            writeln!(f, "node,{node},{letter}")?;
        }
        Ok(())
    }
}

// A table's text.
impl fmt::Display for Sheet {
    fn fmt<W: fmt::Write>(&self, f: &mut fmt::Formatter<W>) -> fmt::Result {
        write!(f, "{}", NodeLines(&self.letters))?;
        for work in self.works.iter() {
            write!(f, "{work}")?;
        }
        Ok(())
    }
}
