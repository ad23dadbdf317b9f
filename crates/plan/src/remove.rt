// One chain less in a plan's memory: the later ones close up.
ghost use Rattle.std.specs.Prelude.{◌≡◌, ◌+◌, ◌<◌, ◌≤◌, length};
ghost use Rattle.plan.specs.Contents.{removed};

use crate::table::{Span, Table};

impl Table {
    // The chain goes out, with its rows and with every response.
    #[tactic(auto, using(crate::proofs::Dropping::closed_up))]
    pub(crate) fn remove(&mut self, span: Span)
        requires chain { span.entry < length self.old.entries.items }
        requires few { length self.old.rows.items ≤ 64 }
        requires rows { span.first + span.steps ≤ length self.old.rows.items }
        requires responses { length self.old.responses.items ≡ length self.old.rows.items }
        ensures { self.new ≡ removed self.old span }
    {
        self.entries.remove(span.entry);
        let left = self.rows.len() - span.steps;
        self.rows
            .as_mut_slice()
            .copy_within(span.first + span.steps.., span.first);
        self.rows.truncate(left);
        self.forget();
    }
}
