// The plan, as chains that own their steps: its calls, its rounds and its listing.
use crate::fields::{ChainFields, OutOfRange, StepFields, is_cost};
use crate::node::{Letter, Load, response_time};
use std::alloc::{AllocError, Global};
use std::collections::BTreeMap;
use std::fmt::Write;

const MOST_CHAINS: usize = 16;

const MOST_STEPS: usize = 64;

const MOST_STEPS_OF_CHAIN: usize = 16;
// More rounds than any table makes: 64 steps of at most 1,000,000 ticks each, and one round more.
const MOST_ROUNDS: u64 = 64_000_001;

// A step with its release jitter and its response, 0 before any round.
#[derive(Clone, Copy)]
struct HeldStep {
    fields: StepFields,
    jitter: u64,
    response: u64,
}

#[derive(Drop)]
struct HeldChain {
    fields: ChainFields,
    steps: Vec<HeldStep>,
}

// Where a step stands, its chain and its own place counted from 0.
#[derive(Clone, Copy)]
struct Place {
    chain: usize,
    step: usize,
}

// What a call answers that is not refused.
#[derive(Clone, Copy, PartialEq, Debug)]
pub enum Reply {
    Done,
    Solved { rounds: u64 },
    Told { jitter: u64, response: u64 },
}

#[derive(Clone, Copy, PartialEq, Debug)]
pub enum Refusal {
    Field { place: u64 },
    StepCount,
    ChainsFull,
    StepsFull,
    IdHeld,
    IdNotHeld,
    NoSuchStep,
    Cost,
    NotSolved,
    NothingCarries { rounds: u64 },
    // none of the documents' causes: the rounds that any table makes are over
    NeverSettles,
}

impl Refusal {
    pub fn number(&self) -> u64 {
        match self {
            Refusal::Field { place: _ } => 1,
            Refusal::StepCount => 2,
            Refusal::ChainsFull => 3,
            Refusal::StepsFull => 4,
            Refusal::IdHeld => 5,
            Refusal::IdNotHeld => 6,
            Refusal::NoSuchStep => 7,
            Refusal::Cost => 8,
            Refusal::NotSolved => 9,
            Refusal::NothingCarries { rounds: _ } => 10,
            // none of the documents' numbers, so no answer of the first analyser equals this one
            Refusal::NeverSettles => 0,
        }
    }

    // The place or the rounds that come with it.
    pub fn beside(&self) -> Option<u64> {
        match self {
            Refusal::Field { place } => Some(*place),
            Refusal::NothingCarries { rounds } => Some(*rounds),
            _ => None,
        }
    }
}

impl From<OutOfRange> for Refusal {
    fn from(out: OutOfRange) -> Refusal {
        Refusal::Field { place: out.place }
    }
}

pub type Answer = Result<Reply, Refusal>;

#[derive(Drop)]
pub struct Panel {
    alloc: Global,
    letters: BTreeMap<u64, Letter>,
    chains: Vec<HeldChain>,
    // the rounds of the accepted solve that stands
    standing: Option<u64>,
}

impl From<StepFields> for HeldStep {
    fn from(fields: StepFields) -> HeldStep {
        HeldStep {
            fields,
            jitter: 0,
            response: 0,
        }
    }
}

impl HeldStep {
    fn load(&self, period: u64) -> Load {
        Load {
            period,
            cost: self.fields.cost,
            local: self.fields.local,
            blocking: self.fields.blocking,
            priority: self.fields.priority,
            jitter: self.jitter,
        }
    }
}

impl HeldChain {
    fn new(
        alloc: Global,
        fields: ChainFields,
        steps: &[StepFields],
    ) -> Result<HeldChain, AllocError> {
        let steps = steps.iter().copied().map(HeldStep::from).collect(alloc)?;
        Ok(HeldChain { fields, steps })
    }

    // The jitters of a round, out of the responses of the round before.
    fn set_jitters(&mut self) {
        let mut before = self.fields.arrival_jitter;
        for step in self.steps.iter_mut() {
            step.jitter = before.saturating_add(step.fields.delay);
            before = step.response;
        }
    }

    // Whether a step is past the end-to-end deadline at its jitter and its cost alone, which no response is below.
    fn is_late(&self) -> bool {
        let deadline = self.fields.deadline;
        self.steps.iter().any(|step| step.jitter.saturating_add(step.fields.cost) > deadline)
    }

    // Whether these are the responses that it has.
    fn has(&self, responses: &[u64]) -> bool {
        let held = self.steps.iter().map(|step| step.response);
        held.eq(responses.iter().copied())
    }

    fn take_over(&mut self, responses: &[u64]) {
        for (step, response) in self.steps.iter_mut().zip(responses) {
            step.response = *response;
        }
    }

    fn forget(&mut self) {
        for step in self.steps.iter_mut() {
            step.response = 0;
        }
    }

    // Appends the rows that this chain has on a node, but for the one asked for.
    fn loads_on(
        &self,
        node: u64,
        asked: Option<usize>,
        loads: &mut Vec<Load>,
    ) -> Result<(), AllocError> {
        let period = self.fields.period;
        let steps = self.steps.iter().enumerate();
        let others = steps.filter(|(k, step)| step.fields.node == node && asked != Some(*k));
        loads.extend(others.map(|(_, step)| step.load(period)))
    }

    // Appends a line of the listing for each step.
    fn list(&self, text: &mut String) -> Result<(), AllocError> {
        let id = self.fields.id;
        for (number, step) in (1u64..).zip(self.steps.iter()) {
            let jitter = step.jitter;
            let response = step.response;
            writeln!(text, "step,{id},{number},{jitter},{response}")?;
        }
        Ok(())
    }
}

impl Panel {
    // A panel with no chain and these letters.
    pub fn new(alloc: Global, letters: BTreeMap<u64, Letter>) -> Panel {
        Panel {
            alloc,
            letters,
            chains: Vec::new(alloc),
            standing: None,
        }
    }

    // Whether a node was given a letter.
    pub fn has_letter(&self, node: u64) -> bool {
        self.letters.contains_key(&node)
    }

    // Gives a node its letter.
    pub fn give(&mut self, node: u64, letter: Letter) -> Result<(), AllocError> {
        self.letters.insert(node, letter)?;
        Ok(())
    }

    // The letter of a node: E where none was given.
    fn letter_of(&self, node: u64) -> Letter {
        self.letters.get(&node).copied().unwrap_or(Letter::E)
    }

    // Where the chain of this id stands.
    fn place_of(&self, id: u64) -> Option<usize> {
        self.chains.iter().position(|chain| chain.fields.id == id)
    }

    fn steps_held(&self) -> usize {
        let counts = self.chains.iter().map(|chain| chain.steps.len());
        // not `sum`: no type says here that the counts add up to at most 64
        counts.fold(0, |held: usize, count| held.saturating_add(count))
    }

    // The causes of a refused add, in their order.
    fn check_add(&self, fields: &ChainFields, steps: &[StepFields]) -> Result<(), Refusal> {
        fields.check()?;
        for step in steps {
            step.check()?;
        }
        if steps.is_empty() || steps.len() > MOST_STEPS_OF_CHAIN {
            return Err(Refusal::StepCount);
        }
        if self.chains.len() >= MOST_CHAINS {
            return Err(Refusal::ChainsFull);
        }
        if self.steps_held().saturating_add(steps.len()) > MOST_STEPS {
            return Err(Refusal::StepsFull);
        }
        if self.place_of(fields.id).is_some() {
            return Err(Refusal::IdHeld);
        }
        Ok(())
    }

    // Adds a chain behind the others. What was kept is kept, and the new rows start from 0.
    pub fn add(&mut self, fields: ChainFields, steps: &[StepFields]) -> Result<Answer, AllocError> {
        if let Err(why) = self.check_add(&fields, steps) {
            return Ok(Err(why));
        }
        self.chains
            .push(HeldChain::new(self.alloc, fields, steps)?)?;
        self.standing = None;
        Ok(Ok(Reply::Done))
    }

    // No response is kept, and no solve stands.
    fn forget(&mut self) {
        for chain in self.chains.iter_mut() {
            chain.forget();
        }
        self.standing = None;
    }

    pub fn drop_chain(&mut self, id: u64) -> Answer {
        self.place_of(id).ok_or(Refusal::IdNotHeld)?;
        self.chains.retain(|chain| chain.fields.id != id);
        self.forget();
        Ok(Reply::Done)
    }

    // The step of this number, counted from 1, of the chain of this id; or refusal 6 or 7.
    fn find(&self, id: u64, number: u64) -> Result<&HeldStep, Refusal> {
        let mut chains = self.chains.iter();
        let chain = chains
            .find(|chain| chain.fields.id == id)
            .ok_or(Refusal::IdNotHeld)?;
        let k = index(number).ok_or(Refusal::NoSuchStep)?;
        chain.steps.get(k).ok_or(Refusal::NoSuchStep)
    }

    // The same, to be changed: no one function lends both ways, as with `get` and `get_mut`.
    fn find_mut(&mut self, id: u64, number: u64) -> Result<&mut HeldStep, Refusal> {
        let mut chains = self.chains.iter_mut();
        let chain = chains
            .find(|chain| chain.fields.id == id)
            .ok_or(Refusal::IdNotHeld)?;
        let k = index(number).ok_or(Refusal::NoSuchStep)?;
        chain.steps.get_mut(k).ok_or(Refusal::NoSuchStep)
    }

    pub fn recost(&mut self, id: u64, step: u64, cost: u64) -> Answer {
        let held = self.find_mut(id, step)?;
        if !is_cost(cost) {
            return Err(Refusal::Cost);
        }
        held.fields.cost = cost;
        self.forget();
        Ok(Reply::Done)
    }

    // The release jitter and the response of a step, if a solve stands.
    pub fn ask(&self, id: u64, step: u64) -> Answer {
        let held = self.find(id, step)?;
        self.standing.ok_or(Refusal::NotSolved)?;
        Ok(Reply::Told {
            jitter: held.jitter,
            response: held.response,
        })
    }

    // The rows of a node but for the one asked for.
    fn others_on(&self, node: u64, asked: Place) -> Result<Vec<Load>, AllocError> {
        let mut loads = Vec::new(self.alloc);
        // not `flat_map`: `loads_on` takes memory, which the closure of a `flat_map` may not
        for (k, chain) in self.chains.iter().enumerate() {
            let asked = (k == asked.chain).then_some(asked.step);
            chain.loads_on(node, asked, &mut loads)?;
        }
        Ok(loads)
    }

    // The response time of one step at the jitters of this round.
    fn response(
        &self,
        at: Place,
        asked: &HeldStep,
        period: u64,
    ) -> Result<Option<u64>, AllocError> {
        let node = asked.fields.node;
        let others = self.others_on(node, at)?;
        let letter = self.letter_of(node);
        response_time(self.alloc, letter, &asked.load(period), others.as_slice())
    }

    // The responses of one chain. None if one is over or past the chain's end-to-end deadline.
    fn responses_of(
        &self,
        at_chain: usize,
        chain: &HeldChain,
    ) -> Result<Option<Vec<u64>>, AllocError> {
        let fields = chain.fields;
        let mut responses = Vec::new(self.alloc);
        for (k, step) in chain.steps.iter().enumerate() {
            let at = Place {
                chain: at_chain,
                step: k,
            };
            match self.response(at, step, fields.period)? {
                Some(response) if response <= fields.deadline => responses.push(response)?,
                _ => return Ok(None),
            }
        }
        Ok(Some(responses))
    }

    // Whether a round refuses by jitters and costs alone. This is told first, since a long jitter makes long scans.
    fn is_late(&self) -> bool {
        self.chains.iter().any(|chain| chain.is_late())
    }

    // The responses of a round, chain by chain. None if the round refuses.
    fn responses(&self) -> Result<Option<Vec<Vec<u64>>>, AllocError> {
        if self.is_late() {
            return Ok(None);
        }
        let mut all = Vec::new(self.alloc);
        for (k, chain) in self.chains.iter().enumerate() {
            let Some(responses) = self.responses_of(k, chain)? else {
                return Ok(None);
            };
            all.push(responses)?;
        }
        Ok(Some(all))
    }

    fn set_jitters(&mut self) {
        for chain in self.chains.iter_mut() {
            chain.set_jitters();
        }
    }

    // Whether a round changes nothing.
    fn has(&self, all: &[Vec<u64>]) -> bool {
        let mut chains = self.chains.iter().zip(all);
        chains.all(|(chain, responses)| chain.has(responses.as_slice()))
    }

    // Takes over the responses of a round.
    fn take_over(&mut self, all: &[Vec<u64>]) {
        for (chain, responses) in self.chains.iter_mut().zip(all) {
            chain.take_over(responses.as_slice());
        }
    }

    // Rounds from what is kept, up to the one that changes nothing or the one that refuses.
    pub fn solve(&mut self) -> Result<Answer, AllocError> {
        for rounds in 1..=MOST_ROUNDS {
            self.set_jitters();
            let Some(all) = self.responses()? else {
                self.forget();
                return Ok(Err(Refusal::NothingCarries { rounds }));
            };
            if self.has(all.as_slice()) {
                self.standing = Some(rounds);
                return Ok(Ok(Reply::Solved { rounds }));
            }
            self.take_over(all.as_slice());
        }
        // by the documents no table comes here
        Ok(Err(Refusal::NeverSettles))
    }

    // The listing, if a solve stands.
    pub fn listing(&self) -> Result<Result<String, Refusal>, AllocError> {
        let Some(rounds) = self.standing else {
            return Ok(Err(Refusal::NotSolved));
        };
        let mut text = format!(in self.alloc; "rounds,{rounds}\n")?;
        for chain in self.chains.iter() {
            chain.list(&mut text)?;
        }
        Ok(Ok(text))
    }
}

// The place from 0 of what has this number from 1.
fn index(number: u64) -> Option<usize> {
    usize::try_from(number.checked_sub(1)?).ok()
}
