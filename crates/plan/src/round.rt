// One round: every row's jitter out of the round before, then every row's response.
ghost use Rattle.std.specs.Prelude.{◌≡◌, ◌+◌, ◌<◌, ◌≤◌, true, length, IfSome, slice_index};
ghost use Rattle.std.specs.Option.{option_map};
ghost use Rattle.law.specs.Assignments.{rows_of, deadlines_of, jitters_of, total};
ghost use Rattle.law.specs.State.{kept_within, round as round_of};
ghost use Rattle.plan.specs.Contents.{chains_of, responses_fit_in};

use crate::plan::Plan;
use arrayvec::ArrayVec;
use rules::NodeRule;

// An assignment of a response to each row of a plan.
#[derive(Drop)]
pub(crate) struct Assignment<'a, R> {
    pub(crate) plan: &'a Plan<R>,
    pub(crate) responses: &'a [u32],
    ghost fit: { responses_fit_in plan.now.table responses.now ≡ true },
}

impl<R> Assignment<'_, R> {
    // The release jitter of a row.
    pub(crate) fn jitter(&self, row: usize) -> u32
        requires { row < length self.now.plan.now.table.rows.items }
        ensures { result ≡ slice_index (jitters_of (chains_of self.now.plan.now.table) self.now.responses.now) row }
    {
        let place = self.plan.place(row);
        let before = if place.step == 0 {
            place.chain.arrival_jitter
        } else {
            self.responses[row - 1]
        };
        before + self.plan.table.rows.as_slice()[row].step.delay
    }

    // The jitters of all rows.
    fn jitters(&self) -> ArrayVec<u32, 64>
        ensures { result.items ≡ jitters_of (chains_of self.now.plan.now.table) self.now.responses.now }
    {
        let mut jitters = ArrayVec::new();
        // by its number: a jitter is asked for by the row's place, here and in a question
        for row in 0..self.plan.table.rows.len() {
            jitters.push(self.jitter(row));
        }
        jitters
    }
}

impl<R: NodeRule> Assignment<'_, R> {
    // The responses of the next round, or `None` where one is over or past its chain's deadline.
    pub(crate) fn next(&self) -> Option<ArrayVec<u32, 64>>
        ensures value { option_map (λ next. next.items) result ≡ round_of (R.answer self.now.plan.now.rule) (chains_of self.now.plan.now.table) self.now.responses.now }
        ensures small { IfSome result (λ next. responses_fit_in self.now.plan.now.table next.items ≡ true) }
    {
        let jitters = self.jitters();
        let mut next = ArrayVec::new();
        // by its number: a node rule is asked by it
        for row in 0..self.plan.table.rows.len() {
            next.push(self.plan.row_response(row, jitters.as_slice())?);
        }
        Some(next)
    }
}

impl<R> Plan<R> {
    // The responses that a plan keeps.
    pub(crate) fn kept(&self) -> Assignment<'_, R>
        ensures plan { result.plan.now ≡ self.now }
        ensures responses { result.responses.now ≡ self.now.table.responses.items }
    {
        Assignment {
            plan: self,
            responses: self.table.responses.as_slice(),
        }
    }

    // One round more than the deadlines of all rows add up to.
    pub(crate) fn most_rounds(&self) -> u32
        ensures { result ≡ 1 + total (deadlines_of (chains_of self.now.table)) }
    {
        let mut sum = 1;
        for held in self.table.entries.as_slice() {
            sum += held.steps as u32 * held.fields.deadline.ticks;
        }
        sum
    }
}

impl<R: NodeRule> Plan<R> {
    // The response of a row at these jitters, or `None` where it is over or past its chain's deadline.
    fn row_response(&self, row: usize, jitters: &[u32]) -> Option<u32>
        requires { row < length self.now.table.rows.items }
        ensures value { result ≡ kept_within (slice_index (deadlines_of (chains_of self.now.table)) row) (R.answer self.now.rule (rows_of (chains_of self.now.table)) jitters.now row) }
        ensures small { IfSome result (λ response. response ≤ 1000000) }
    {
        let latest = self.place(row).chain.deadline.ticks;
        self.rule
            .response(self.table.rows.as_slice(), jitters, row)
            .filter(|response| *response <= latest)
    }
}
