// Two node rules as one.
ghost use Rattle.std.specs.Prelude.{◌≡◌};
ghost use Rattle.mixed.specs.Mixture.{row_letter, mixture};
ghost use Rattle.mixed.specs.Laws.{mixture_laws};

use crate::letters::{Letter, Letters};
use records::Row;
use rules::NodeRule;

impl Letters {
    // The letter of the node of a row, if there is such a row.
    fn of_row(&self, rows: &[Row], row: usize) -> Option<Letter>
        ensures { result ≡ row_letter self.now rows.now row }
    {
        self.of(rows.get(row)?.step.node)
    }
}

// The first rule answers for the rows on nodes of the letter E, the second for those on nodes of the letter P.
#[derive(Drop)]
pub struct Mixed<A, B> {
    first: A,
    second: B,
    letters: Letters,
}

impl<A, B> Mixed<A, B> {
    pub fn new(first: A, second: B, letters: Letters) -> Self
        ensures first { result.first ≡ first }
        ensures second { result.second ≡ second }
        ensures letters { result.letters ≡ letters }
    {
        Mixed {
            first,
            second,
            letters,
        }
    }
}

impl<A: NodeRule, B: NodeRule> NodeRule for Mixed<A, B> {
    ghost answer = { λ m. mixture m.letters (A.NodeRule.answer m.first) (B.NodeRule.answer m.second) };

    ghost lawful = { λ rule. mixture_laws rule.letters (A.NodeRule.answer rule.first) (B.NodeRule.answer rule.second) (A.NodeRule.lawful rule.first) (B.NodeRule.lawful rule.second) };

    #[tactic(auto, unfolding(crate::specs::Mixture::mixture))]
    fn response(&self, rows: &[Row], jitters: &[u32], row: usize) -> Option<u32> {
        match self.letters.of_row(rows, row)? {
            Letter::E => self.first.response(rows, jitters, row),
            Letter::P => self.second.response(rows, jitters, row),
        }
    }
}
