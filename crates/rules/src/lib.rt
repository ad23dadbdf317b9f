// What a node rule is: one fixed map from rows, jitters and a row number to a response time, with the laws that it shows.
#![tactic(auto)]

ghost use Rattle.std.specs.Prelude.{◌≡◌};
ghost use Rattle.rules.specs.Rules.{Meaning, Laws};

use records::Row;

// How one node shares its time.
pub trait NodeRule {
    // what the rule answers for rows, their jitters and a row number: a response time, or over (None)
    ghost answer: { Self → Meaning };

    // The worst-case response time of one row at these jitters, or `None` where it is over.
    // The jitters are lent beside the rows: they change from round to round, and the rows do not.
    fn response(&self, rows: &[Row], jitters: &[u32], row: usize) -> Option<u32>
        ensures { result ≡ answer self.now rows.now jitters.now row };

    ghost lawful: { (rule : Self) → Laws (answer rule) };
}
