// Random runs of calls on one plan, and what both analysers answer.
use crate::calls::{Call, LastSolve, Standing, answer_of, random_call};
use crate::comparison::Comparison;
use crate::dice::Dice;
use crate::product;
use crate::product::ProductPlan;
use crate::sheet::{Scale, mixture, random_letters};
use crate::tally::count;
use oracle_tests::panel::Panel;
use std::alloc::{AllocError, Global};
use std::fmt::Write;
use std::io;

// Both analysers on the same run, where it stands, and the calls so far in words.
#[derive(Drop)]
struct Pair {
    plan: ProductPlan,
    panel: Panel,
    at: Standing,
    words: String,
}

// How the numbers of a run are made, how many calls it has, and how often an add comes.
#[derive(Drop)]
struct Script {
    scale: Scale,
    calls: u64,
    adds: u64,
}

// A few chains of some load each.
fn usual_script(dice: &mut Dice) -> Script {
    let scale = Scale {
        nodes: dice.between(1, 4),
        chains: 6,
        steps: dice.between(1, 3),
        period: dice.of(&[12, 24, 40]),
        load: dice.between(20, 60),
        extras: dice.of(&[0, 10, 30]),
        slack: dice.of(&[2, 4, 8]),
        reach: dice.of(&[60, 120, 240]),
    };
    Script {
        scale,
        calls: if dice.percent(20) {
            dice.between(30, 45)
        } else {
            dice.between(5, 25)
        },
        adds: dice.between(20, 40),
    }
}

// Many chains of little load: the plan becomes full.
fn filling_script(dice: &mut Dice) -> Script {
    let scale = Scale {
        nodes: 8,
        chains: 20,
        steps: dice.of(&[1, 3, 6, 9]),
        period: 300,
        load: 2,
        extras: 3,
        slack: 3,
        reach: 3_000,
    };
    Script {
        scale,
        calls: dice.between(40, 60),
        adds: 75,
    }
}

// The second analyser's listing, or its refusal.
fn listing_of(alloc: Global, panel: &Panel) -> Result<String, AllocError> {
    let listing = panel.listing()?;
    listing.or_else(|why| format!(in alloc; "refused,{}\n", why.number()))
}

impl Comparison {
    // Compares the listings, with refusal 9 where no solve stands.
    fn compare_listing(&mut self, pair: &Pair) -> io::Result<bool> {
        let alloc = self.rt.alloc();
        let product = product::listing(alloc, &pair.plan)?;
        let oracle = listing_of(alloc, &pair.panel)?;
        count(&mut self.tally.call_listings);
        let same = product.as_slice() == oracle.as_bytes();
        if !same {
            self.differ(pair.words.as_bytes(), product.as_slice(), oracle.as_bytes())?;
        }
        Ok(same)
    }

    // Makes one call on both; whether they answered alike.
    fn compare_call(&mut self, pair: &mut Pair, call: &Call) -> io::Result<bool> {
        let alloc = self.rt.alloc();
        write!(pair.words, "{call}")?;
        let product = product::perform(alloc, &mut pair.plan, call)?;
        let oracle = answer_of(&mut pair.panel, call)?;
        self.tally.count_answer(&oracle)?;
        if product != oracle {
            let one = format!(in alloc; "{product:?}\n")?;
            let other = format!(in alloc; "{oracle:?}\n")?;
            self.differ(pair.words.as_bytes(), one.as_bytes(), other.as_bytes())?;
            return Ok(false);
        }
        pair.at.follow(call, &oracle)?;
        Ok(true)
    }

    // Makes the calls of a script, up to the first difference.
    fn play(&mut self, pair: &mut Pair, script: &Script) -> io::Result<()> {
        for _ in 0..script.calls {
            let alloc = self.rt.alloc();
            let call = random_call(alloc, &mut self.dice, &script.scale, &pair.at)?;
            if !self.compare_call(pair, &call)? {
                return Ok(());
            }
            let solves = matches!(call, Call::Solve);
            if (solves || self.dice.percent(5)) && !self.compare_listing(pair)? {
                return Ok(());
            }
        }
        Ok(())
    }

    // One run on a new plan.
    fn one_run(&mut self, script: &Script) -> io::Result<()> {
        let alloc = self.rt.alloc();
        let earliest = mixture(&mut self.dice);
        let letters = random_letters(alloc, &mut self.dice, script.scale.nodes, earliest)?;
        let Ok(plan) = product::open(&letters) else {
            return self.differ(b"open\n", b"refused\n", b"done\n");
        };
        let mut pair = Pair {
            plan,
            panel: Panel::new(alloc, letters),
            at: Standing {
                adds: script.adds,
                held: Vec::new(alloc),
                solve: LastSolve::Gone,
            },
            words: String::new(alloc),
        };
        count(&mut self.tally.runs);
        self.play(&mut pair, script)
    }

    pub fn compare_runs(&mut self) -> io::Result<()> {
        for k in 0..1500u64 {
            let script = if k % 20 == 0 {
                filling_script(&mut self.dice)
            } else {
                usual_script(&mut self.dice)
            };
            self.one_run(&script)?;
        }
        Ok(())
    }
}
