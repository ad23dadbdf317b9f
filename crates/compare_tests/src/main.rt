// Compares the analyser with the second one (crate oracle_tests) on random tables and random runs of calls.
#![tactic(auto)]

mod answer;
mod calls;
mod chosen;
mod comparison;
mod damage;
mod dice;
mod product;
mod runs;
mod sheet;
mod tally;
mod texts;

use comparison::Comparison;
use dice::Dice;
use std::io;
use tally::Tally;

const SEED: u64 = 20_261_118;

fn main(rt: HostRuntime) -> io::Result<()> {
    println!(rt; "seed,{SEED}")?;
    let tally = Tally::new(rt.alloc());
    let dice = Dice::new(SEED);
    let mut comparison = Comparison { rt, dice, tally };
    comparison.compare_chosen()?;
    comparison.compare_texts()?;
    comparison.compare_runs()?;
    println!(comparison.rt; "{}", comparison.tally)
}
