// Counts by kind of answer.
use crate::answer::Answer;
use oracle_tests::panel::Reply;
use std::alloc::{AllocError, Global};
use std::collections::BTreeMap;
use std::fmt;

// How often each refusal came, by its number.
#[derive(Drop)]
struct Refusals {
    counts: BTreeMap<u64, u64>,
}

#[derive(Drop)]
pub struct Tally {
    texts: u64,
    listings: u64,
    text_refusals: Refusals,
    pub runs: u64,
    calls: u64,
    done: u64,
    solved: u64,
    told: u64,
    call_refusals: Refusals,
    pub short_buffers: u64,
    pub call_listings: u64,
    most_rounds: u64,
    pub differences: u64,
}

// Counts one more.
pub fn count(counter: &mut u64) {
    *counter = counter.saturating_add(1);
}

// The number between the word that begins a text and the mark behind it.
fn number_between(text: &str, word: &str, mark: char) -> Option<u64> {
    let (digits, _) = text.strip_prefix(word)?.split_once(mark)?;
    digits.parse().ok()
}

impl Refusals {
    fn new(alloc: Global) -> Refusals {
        Refusals {
            counts: BTreeMap::new(alloc),
        }
    }

    fn count(&mut self, number: u64) -> Result<(), AllocError> {
        count(self.counts.entry(number)?.or_insert(0));
        Ok(())
    }

    fn list<W: fmt::Write>(&self, f: &mut fmt::Formatter<W>, kind: &str) -> fmt::Result {
        for (number, count) in &self.counts {
            writeln!(f, "{kind} refusals {number},{count}")?;
        }
        Ok(())
    }
}

impl Tally {
    pub fn new(alloc: Global) -> Tally {
        Tally {
            texts: 0,
            listings: 0,
            text_refusals: Refusals::new(alloc),
            runs: 0,
            calls: 0,
            done: 0,
            solved: 0,
            told: 0,
            call_refusals: Refusals::new(alloc),
            short_buffers: 0,
            call_listings: 0,
            most_rounds: 0,
            differences: 0,
        }
    }

    fn see_rounds(&mut self, rounds: u64) {
        self.most_rounds = self.most_rounds.max(rounds);
    }

    // Counts what is printed of a text.
    pub fn count_text(&mut self, printed: &str) -> Result<(), AllocError> {
        count(&mut self.texts);
        if let Some(number) = number_between(printed, "refused,", ',') {
            return self.text_refusals.count(number);
        }
        count(&mut self.listings);
        self.see_rounds(number_between(printed, "rounds,", '\n').unwrap_or(0));
        Ok(())
    }

    // Counts the answer to a call.
    pub fn count_answer(&mut self, answer: &Answer) -> Result<(), AllocError> {
        count(&mut self.calls);
        match answer {
            Ok(Reply::Done) => count(&mut self.done),
            Ok(Reply::Solved { rounds }) => {
                count(&mut self.solved);
                self.see_rounds(*rounds);
            }
            Ok(
                Reply::Told {
                    jitter: _,
                    response: _,
                },
            ) => count(&mut self.told),
            Err(why) => self.call_refusals.count(why.number)?,
        }
        Ok(())
    }
}

impl fmt::Display for Tally {
    fn fmt<W: fmt::Write>(&self, f: &mut fmt::Formatter<W>) -> fmt::Result {
        writeln!(f, "texts,{}", self.texts)?;
        writeln!(f, "text listings,{}", self.listings)?;
        self.text_refusals.list(f, "text")?;
        writeln!(f, "runs,{}\ncalls,{}", self.runs, self.calls)?;
        writeln!(f, "done,{}\nsolved,{}", self.done, self.solved)?;
        writeln!(f, "told,{}", self.told)?;
        self.call_refusals.list(f, "call")?;
        writeln!(f, "plan listings,{}", self.call_listings)?;
        writeln!(f, "short buffers,{}", self.short_buffers)?;
        writeln!(f, "most rounds,{}", self.most_rounds)?;
        write!(f, "differences,{}", self.differences)
    }
}
